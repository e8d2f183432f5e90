// SPDX-License-Identifier: MIT
// The published vectors. A case gives its input and, in hexadecimal, what is expected of it.
use crate::cases::{Message, count, cut, hkdf_case, hmac_case, million_case, whole};
use vector_text::Tally;

// FIPS 180-4: the empty message, and the examples of one and of two blocks.
const MESSAGES: [Message<'static>; 4] = [
    Message {
        text: b"",
        sha256: b"e3b0c44298fc1c149afbf4c8996fb92427ae41e4649b934ca495991b7852b855",
        sha512: b"cf83e1357eefb8bdf1542850d66d8007d620e4050b5715dc83f4a921d36ce9ce47d0d13c5d85f2b0ff8318d2877eec2f63b931bd47417a81a538327af927da3e",
    },
    Message {
        text: b"abc",
        sha256: b"ba7816bf8f01cfea414140de5dae2223b00361a396177a9cb410ff61f20015ad",
        sha512: b"ddaf35a193617abacc417349ae20413112e6fa4e89a97ea20a9eeee64b55d39a2192992a274fc1a836ba3c23a3feebbd454d4423643ce80e2a9ac94fa54ca49f",
    },
    Message {
        text: b"abcdbcdecdefdefgefghfghighijhijkijkljklmklmnlmnomnopnopq",
        sha256: b"248d6a61d20638b8e5c026930c3e6039a33ce45964ff2167f6ecedd419db06c1",
        sha512: b"204a8fc6dda82f0a0ced7beb8e08a41657c16ef468b228a8279be331a703c33596fd15c13b1b07f9aa1d3bea57789ca031ad85c7a71dd70354ec631238ca3445",
    },
    Message {
        text: b"abcdefghbcdefghicdefghijdefghijkefghijklfghijklmghijklmnhijklmnoijklmnopjklmnopqklmnopqrlmnopqrsmnopqrstnopqrstu",
        sha256: b"cf5b16a778af8380036ce59e7b0492370b249b11e8f07a51afac45037afee9d1",
        sha512: b"8e959b75dae313da8cf4f72814fc143f8f7779c6eb9f7fa17299aeadb6889018501d289e4900f7e4331b99dec4b5433ac7d329eeb6dd26545e96e55b874be909",
    },
];

// FIPS 180-4: a million of the letter a, with the digest of SHA-256, and then that of SHA-512.
fn million(t: Tally) -> Tally {
    million_case(
        t,
        b"cdc76e5c9914fb9281a1c7e284d73e67f1809a48a497200e046d39ccc7112cd0",
        b"e718483d0ce769644e2e42c7bc15b4638e1f98b13b2044285632a803afa973ebde0ff244877ea60a4cb0432ce577c31beb009c5c2c49aa2e4eadb217ad8cc09b",
    )
}

// Runs a case of each message.
fn messages<F: Fn(Tally, &Message) -> Tally>(case: F) -> Tally
    requires { F.IsAlwaysCallable case }
{
    let mut t = Tally::new();
    for message in &MESSAGES {
        t = case(t, message);
    }
    t
}

// The messages cut at every place, and fed to lent states.
pub fn lent_cases() -> Tally {
    messages(cut)
}

pub fn sha_cases() -> Tally {
    million(messages(whole))
}

// RFC 4231, section 4: test cases 1 to 7. Each has the tag of HMAC-SHA-256, and then that of
// HMAC-SHA-512. Case 5 has the first 16 bytes of each.
fn hmac1(t: Tally) -> Tally {
    let key = [0x0bu8; 20];
    hmac_case(
        t,
        &key,
        b"Hi There",
        b"b0344c61d8db38535ca8afceaf0bf12b881dc200c9833da726e9376c2e32cff7",
        b"87aa7cdea5ef619d4ff0b4241a1d6cb02379f4e2ce4ec2787ad0b30545e17cdedaa833b7d6b8a702038b274eaea3f4e4be9d914eeb61f1702e696c203a126854",
    )
}

fn hmac2(t: Tally) -> Tally {
    hmac_case(
        t,
        b"Jefe",
        b"what do ya want for nothing?",
        b"5bdcc146bf60754e6a042426089575c75a003f089d2739839dec58b964ec3843",
        b"164b7a7bfcf819e2e395fbe73b56e0a387bd64222e831fd610270cd7ea2505549758bf75c05a994a6d034f65f8f0e6fdcaeab1a34d4a6b4b636e070a38bce737",
    )
}

fn hmac3(t: Tally) -> Tally {
    let key = [0xaau8; 20];
    let text = [0xddu8; 50];
    hmac_case(
        t,
        &key,
        &text,
        b"773ea91e36800e46854db8ebd09181a72959098b3ef8c122d9635514ced565fe",
        b"fa73b0089d56a284efb0f0756c890be9b1b5dbdd8ee81a3655f83e33b2279d39bf3e848279a722c806b485a47e67c807b946a337bee8942674278859e13292fb",
    )
}

fn hmac4(t: Tally) -> Tally {
    let mut key = [0u8; 25];
    let text = [0xcdu8; 50];
    count(&mut key, 0x01);
    hmac_case(
        t,
        &key,
        &text,
        b"82558a389a443c0ea4cc819899f2083a85f0faa3e578f8077a2e3ff46729665b",
        b"b0ba465637458c6990e5a8c5f61d4af7e576d97ff94b872de76f8050361ee3dba91ca5c11aa25eb4d679275cc5788063a5f19741120c4f2de2adebeb10a298dd",
    )
}

fn hmac5(t: Tally) -> Tally {
    let key = [0x0cu8; 20];
    hmac_case(
        t,
        &key,
        b"Test With Truncation",
        b"a3b6167473100ee06e0c796c2955552b",
        b"415fad6271580a531d4179bc891d87a6",
    )
}

fn hmac6(t: Tally) -> Tally {
    let key = [0xaau8; 131];
    hmac_case(
        t,
        &key,
        b"Test Using Larger Than Block-Size Key - Hash Key First",
        b"60e431591ee0b67f0d8a26aacbf5b77f8e0bc6213728c5140546040f0ee37f54",
        b"80b24263c7c1a3ebb71493c1dd7be8b49b46d1f41b4aeec1121b013783f8f3526b56d037e05f2598bd0fd2215d6a1e5295e64f73f63f0aec8b915a985d786598",
    )
}

fn hmac7(t: Tally) -> Tally {
    let key = [0xaau8; 131];
    hmac_case(
        t,
        &key,
        b"This is a test using a larger than block-size key and a larger than block-size data. The key needs to be hashed before being used by the HMAC algorithm.",
        b"9b09ffa71b942fcb27635fbcd5b0e944bfdc63644f0713938a7f51535c3a35e2",
        b"e37b6a775dc87dbaa4dfa9f96e5e3ffddebd71f8867289865df5a32d20cdc944b6022cac3c4982b10d5eeb55c3e4de15134676fb6de0446065c97440fa8c6a58",
    )
}

pub fn hmac_cases() -> Tally {
    let t = hmac1(Tally::new());
    let t = hmac2(t);
    let t = hmac3(t);
    let t = hmac4(t);
    let t = hmac5(t);
    let t = hmac6(t);
    hmac7(t)
}

// RFC 5869, appendix A: test cases 1 to 3, of HKDF-SHA-256. Each has the pseudorandom key, and then
// the output.
fn hkdf1(t: Tally) -> Tally {
    let key = [0x0bu8; 22];
    let mut salt = [0u8; 13];
    let mut info = [0u8; 10];
    count(&mut salt, 0x00);
    count(&mut info, 0xf0);
    hkdf_case(
        t,
        &key,
        &salt,
        &info,
        b"077709362c2e32df0ddc3f0dc47bba6390b6c73bb50f9c3122ec844ad7c2b3e5",
        b"3cb25f25faacd57a90434f64d0362f2a2d2d0a90cf1a5a4c5db02d56ecc4c5bf34007208d5b887185865",
    )
}

fn hkdf2(t: Tally) -> Tally {
    let mut key = [0u8; 80];
    let mut salt = [0u8; 80];
    let mut info = [0u8; 80];
    count(&mut key, 0x00);
    count(&mut salt, 0x60);
    count(&mut info, 0xb0);
    hkdf_case(
        t,
        &key,
        &salt,
        &info,
        b"06a6b88c5853361a06104c9ceb35b45cef760014904671014a193f40c15fc244",
        b"b11e398dc80327a1c8e7f78c596a49344f012eda2d4efad8a050cc4c19afa97c59045a99cac7827271cb41c65e590e09da3275600c2f09b8367793a9aca3db71cc30c58179ec3e87c14c01d5c1f3434f1d87",
    )
}

fn hkdf3(t: Tally) -> Tally {
    let key = [0x0bu8; 22];
    hkdf_case(
        t,
        &key,
        b"",
        b"",
        b"19ef24a32c717b167f33a91d6f648bdf96596776afdb6377ac434c1c293ccb04",
        b"8da4e775a563c18f715f802a063c5a31b8a11f5c5ee1879ec3454e5f3c738d2d9d201395faa4b61a96c8",
    )
}

pub fn hkdf_cases() -> Tally {
    let t = hkdf1(Tally::new());
    let t = hkdf2(t);
    hkdf3(t)
}
