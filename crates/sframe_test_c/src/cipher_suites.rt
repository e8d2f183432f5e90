// SPDX-License-Identifier: MIT
// The suites: key derivation, encryption and decryption.
ghost use Rattle.std.specs.Prelude.{◌≡◌, ◌++◌};
ghost use Rattle.octets.specs.Octets.{pick};
ghost use Rattle.suites.specs.Suites.{suite_of};
ghost use Rattle.suites.specs.Derivation.{sframe_key, sframe_salt};
ghost use Rattle.aead.specs.Aead.{encrypt, decrypt, is_plain, room_after};
ghost use Rattle.sframe_test.specs.Judged.{Judged, For, DeriveTakes, EncryptTakes, DecryptTakes};

use sframe_test::number;

// Fills key and salt from a base key of at most 64 bytes, for a suite and a KID.
#[unsafe(no_mangle)]
pub extern "C" fn sframe_test_derive(
    suite: u64,
    base: &[u8],
    kid: u64,
    key: &mut [u8],
    salt: &mut [u8],
) -> u32
    ensures { For (suite_of suite) (λ s. Judged 0 (DeriveTakes s base.now key.old salt.old) ((key.new ≡ sframe_key s base.now kid) × (salt.new ≡ sframe_salt s base.now kid)) ((key.new ≡ key.old) × (salt.new ≡ salt.old)) result) ((result ≡ 1) × (key.new ≡ key.old) × (salt.new ≡ salt.old)) }
{
    number(sframe_test::cipher_suites::sframe_test_derive(suite, base, kid, key, salt))
}

// Fills out with the ciphertext and the tag. The associated data are header and metadata.
#[unsafe(no_mangle)]
pub extern "C" fn sframe_test_suite_encrypt(
    suite: u64,
    key: &[u8],
    nonce: &[u8],
    header: &[u8],
    metadata: &[u8],
    plaintext: &[u8],
    out: &mut [u8],
) -> u32
    ensures { For (suite_of suite) (λ s. Judged 0 (EncryptTakes s key.now nonce.now header.now metadata.now plaintext.now out.old) (out.new ≡ encrypt s key.now nonce.now (header.now ++ metadata.now) plaintext.now) (out.new ≡ out.old) result) ((result ≡ 1) × (out.new ≡ out.old)) }
{
    number(sframe_test::cipher_suites::sframe_test_suite_encrypt(
        suite, key, nonce, header, metadata, plaintext, out,
    ))
}

// Writes the plaintext of a ciphertext and its tag to the front of out, or answers 13.
#[unsafe(no_mangle)]
pub extern "C" fn sframe_test_suite_decrypt(
    suite: u64,
    key: &[u8],
    nonce: &[u8],
    header: &[u8],
    metadata: &[u8],
    sealed: &[u8],
    out: &mut [u8],
) -> u32
    ensures { For (suite_of suite) (λ s. Judged (pick (is_plain (decrypt s key.now nonce.now (header.now ++ metadata.now) sealed.now)) 0 13) (DecryptTakes s key.now nonce.now header.now metadata.now sealed.now out.old) (out.new ≡ room_after (decrypt s key.now nonce.now (header.now ++ metadata.now) sealed.now) out.old) (out.new ≡ out.old) result) ((result ≡ 1) × (out.new ≡ out.old)) }
{
    number(sframe_test::cipher_suites::sframe_test_suite_decrypt(
        suite, key, nonce, header, metadata, sealed, out,
    ))
}
