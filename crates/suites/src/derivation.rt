// SPDX-License-Identifier: MIT
// Key derivation and the nonce: RFC 9605, sections 4.4.2 and 4.4.3.
ghost use Rattle.std.specs.Prelude.{◌≡◌, ◌≤◌, length};
ghost use Rattle.octets.specs.Octets.{pasted};
ghost use Rattle.sha2_common.specs.Sizes.{sha256};
ghost use Rattle.hmac.specs.Hkdf.{limit, expand};
ghost use Rattle.hmac.specs.Limits.{largest};
ghost use Rattle.suites.specs.Suites.{Nk, Nn, hash_of};
ghost use Rattle.suites.specs.Derivation.{secret, label, derived, sframe_key, sframe_salt, nonce};
ghost use Rattle.suites.specs.Inner.Sizes.{label_size, max_text};

use crate::sizes::{Aes128CtrHmacSha256Tag80, Hash, Suite};
use header::{Ctr, Kid};
use sha256::Sha256;
use sha512::Sha512;

// The bytes of a label behind its text: the KID and the suite's number.
const KID_SIZE: usize = 8;

const NUMBER_SIZE: usize = 2;

// No text of a label is longer, and no label.
const MAX_TEXT: usize = 32;

const MAX_LABEL: usize = MAX_TEXT + KID_SIZE + NUMBER_SIZE;

// The bytes of the nonce and of the salt: by the contract of `nonce_size`, the same in every suite.
const NN: usize = Aes128CtrHmacSha256Tag80::NN;

// Writes the label of a derivation to the front of out: the text, the KID and the suite's number.
fn write_label(out: &mut [u8], text: &[u8], suite: Suite, kid: Kid)
    requires { (label_size text.now ≤ length out.old) × (length text.now ≤ max_text) }
    ensures { out.new ≡ pasted out.old 0 (label text.now suite kid.0) }
{
    let n = text.len();
    octets::copy_at(out, 0, text);
    octets::write_be_at(out, n, KID_SIZE, kid.0);
    octets::write_be_at(out, n + KID_SIZE, NUMBER_SIZE, suite.number());
}

// The nonce of a counter under a salt.
pub fn nonce_of(salt: &[u8], ctr: Ctr) -> [u8; NN]
    requires { length salt.now ≡ Nn }
    ensures { (result ≡ nonce salt.now ctr.0) × (length result ≡ Nn) }
{
    let mut counter = [0u8; NN];
    octets::write_be(&mut counter, NN, ctr.0);
    let mut n = [0u8; NN];
    octets::copy(&mut n, salt);
    octets::xor(&mut n, &counter);
    n
}

// Fills out from the base key under a label.
pub fn expand_label(suite: Suite, base: &[u8], info: &[u8], out: &mut [u8])
    requires out_len_bound { length out.old ≤ limit sha256 }
    requires base_len_bound { (length base.now ≤ largest) × (length info.now ≤ largest) }
    ensures { out.new ≡ expand (hash_of suite) (secret suite base.now) info.now (length out.old) }
{
    match suite.hash() {
        Hash::Sha256 => {
            let secret = hmac::hkdf_extract::<Sha256, _, _>(b"", base);
            hmac::hkdf_expand::<Sha256, _, _>(&secret, info, out);
        }
        Hash::Sha512 => {
            let secret = hmac::hkdf_extract::<Sha512, _, _>(b"", base);
            hmac::hkdf_expand::<Sha512, _, _>(&secret, info, out);
        }
    }
}

// Fills out with what the suite derives from the base key for a KID, under the label of a text.
fn derive(suite: Suite, base: &[u8], text: &[u8], kid: Kid, out: &mut [u8])
    requires { (length base.now ≤ largest) × (length text.now ≤ max_text) × (length out.old ≤ limit sha256) }
    ensures { out.new ≡ derived text.now suite base.now kid.0 (length out.old) }
{
    let n = text.len() + KID_SIZE + NUMBER_SIZE;
    let mut info = [0u8; MAX_LABEL];
    write_label(&mut info, text, suite, kid);
    expand_label(suite, base, &info[0..n], out);
}

// Fills key with what the suite derives from the base key for a KID.
pub fn derive_key(suite: Suite, base: &[u8], kid: Kid, key: &mut [u8])
    requires { (length base.now ≤ largest) × (length key.old ≡ Nk suite) }
    ensures { key.new ≡ sframe_key suite base.now kid.0 }
{
    derive(suite, base, b"SFrame 1.0 Secret key ", kid, key);
}

// Fills salt likewise.
pub fn derive_salt(suite: Suite, base: &[u8], kid: Kid, salt: &mut [u8])
    requires { (length base.now ≤ largest) × (length salt.old ≡ Nn) }
    ensures { salt.new ≡ sframe_salt suite base.now kid.0 }
{
    derive(suite, base, b"SFrame 1.0 Secret salt ", kid, salt);
}
