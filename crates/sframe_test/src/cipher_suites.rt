// SPDX-License-Identifier: MIT
// The suites: key derivation, encryption and decryption. Each function judges its input: it writes its results, or it refuses the
// input, or a tag that differs, and changes nothing.
ghost use Rattle.std.specs.Prelude.{◌≡◌, ◌++◌};
ghost use Rattle.octets.specs.Octets.{pick};
ghost use Rattle.suites.specs.Suites.{suite_of};
ghost use Rattle.suites.specs.Derivation.{sframe_key, sframe_salt};
ghost use Rattle.aead.specs.Aead.{encrypt, decrypt, is_plain, room_after};
ghost use Rattle.sframe_test.specs.Judged.{Judged, For, DeriveTakes, EncryptTakes, DecryptTakes, number_of};

use crate::Refused;
use crate::judge::{NN, parts_taken};
use header::Kid;
use suites::Suite;

// The longest base key.
const MAX_BASE: usize = 64;

// Derivation for a known suite.
fn derive_known(
    suite: Suite,
    base: &[u8],
    kid: u64,
    key: &mut [u8],
    salt: &mut [u8],
) -> Result<(), Refused>
    ensures { Judged 0 (DeriveTakes suite base.now key.old salt.old) ((key.new ≡ sframe_key suite base.now kid) × (salt.new ≡ sframe_salt suite base.now kid)) ((key.new ≡ key.old) × (salt.new ≡ salt.old)) (number_of result) }
{
    if MAX_BASE < base.len() {
        return Err(Refused::Input);
    }
    if key.len() != suite.key_size() {
        return Err(Refused::Input);
    }
    if salt.len() != NN {
        return Err(Refused::Input);
    }
    suites::derivation::derive_key(suite, base, Kid(kid), key);
    suites::derivation::derive_salt(suite, base, Kid(kid), salt);
    Ok(())
}

// Fills key and salt from a base key of at most 64 bytes, for a suite and a KID.
pub fn sframe_test_derive(
    suite: u64,
    base: &[u8],
    kid: u64,
    key: &mut [u8],
    salt: &mut [u8],
) -> Result<(), Refused>
    ensures { For (suite_of suite) (λ s. Judged 0 (DeriveTakes s base.now key.old salt.old) ((key.new ≡ sframe_key s base.now kid) × (salt.new ≡ sframe_salt s base.now kid)) ((key.new ≡ key.old) × (salt.new ≡ salt.old)) (number_of result)) ((number_of result ≡ 1) × (key.new ≡ key.old) × (salt.new ≡ salt.old)) }
{
    match suites::sizes::find(suite) {
        Some(s) => derive_known(s, base, kid, key, salt),
        None => Err(Refused::Input),
    }
}

// Encryption with a known suite.
fn encrypt_known(
    suite: Suite,
    key: &[u8],
    nonce: &[u8],
    header: &[u8],
    metadata: &[u8],
    plaintext: &[u8],
    out: &mut [u8],
) -> Result<(), Refused>
    ensures { Judged 0 (EncryptTakes suite key.now nonce.now header.now metadata.now plaintext.now out.old) (out.new ≡ encrypt suite key.now nonce.now (header.now ++ metadata.now) plaintext.now) (out.new ≡ out.old) (number_of result) }
{
    if key.len() != suite.key_size() {
        return Err(Refused::Input);
    }
    if !parts_taken(nonce, header, metadata, plaintext) {
        return Err(Refused::Input);
    }
    let nt = suite.tag_size();
    if out.len() < nt {
        return Err(Refused::Input);
    }
    if out.len() - nt != plaintext.len() {
        return Err(Refused::Input);
    }
    ciphers::encrypt(suite, key, nonce, header, metadata, plaintext, out);
    Ok(())
}

// Fills out with the ciphertext and the tag. The associated data are header and metadata.
pub fn sframe_test_suite_encrypt(
    suite: u64,
    key: &[u8],
    nonce: &[u8],
    header: &[u8],
    metadata: &[u8],
    plaintext: &[u8],
    out: &mut [u8],
) -> Result<(), Refused>
    ensures { For (suite_of suite) (λ s. Judged 0 (EncryptTakes s key.now nonce.now header.now metadata.now plaintext.now out.old) (out.new ≡ encrypt s key.now nonce.now (header.now ++ metadata.now) plaintext.now) (out.new ≡ out.old) (number_of result)) ((number_of result ≡ 1) × (out.new ≡ out.old)) }
{
    match suites::sizes::find(suite) {
        Some(s) => encrypt_known(s, key, nonce, header, metadata, plaintext, out),
        None => Err(Refused::Input),
    }
}

// Decryption with a known suite.
fn decrypt_known(
    suite: Suite,
    key: &[u8],
    nonce: &[u8],
    header: &[u8],
    metadata: &[u8],
    sealed: &[u8],
    out: &mut [u8],
) -> Result<(), Refused>
    ensures { Judged (pick (is_plain (decrypt suite key.now nonce.now (header.now ++ metadata.now) sealed.now)) 0 13) (DecryptTakes suite key.now nonce.now header.now metadata.now sealed.now out.old) (out.new ≡ room_after (decrypt suite key.now nonce.now (header.now ++ metadata.now) sealed.now) out.old) (out.new ≡ out.old) (number_of result) }
{
    if key.len() != suite.key_size() {
        return Err(Refused::Input);
    }
    if !parts_taken(nonce, header, metadata, sealed) {
        return Err(Refused::Input);
    }
    let nt = suite.tag_size();
    if sealed.len() < nt {
        return Err(Refused::Input);
    }
    if out.len() < sealed.len() - nt {
        return Err(Refused::Input);
    }
    if ciphers::decrypt(suite, key, nonce, header, metadata, sealed, out) {
        Ok(())
    } else {
        Err(Refused::Tag)
    }
}

// Writes the plaintext of a ciphertext and its tag to the front of out, or refuses the tag.
pub fn sframe_test_suite_decrypt(
    suite: u64,
    key: &[u8],
    nonce: &[u8],
    header: &[u8],
    metadata: &[u8],
    sealed: &[u8],
    out: &mut [u8],
) -> Result<(), Refused>
    ensures { For (suite_of suite) (λ s. Judged (pick (is_plain (decrypt s key.now nonce.now (header.now ++ metadata.now) sealed.now)) 0 13) (DecryptTakes s key.now nonce.now header.now metadata.now sealed.now out.old) (out.new ≡ room_after (decrypt s key.now nonce.now (header.now ++ metadata.now) sealed.now) out.old) (out.new ≡ out.old) (number_of result)) ((number_of result ≡ 1) × (out.new ≡ out.old)) }
{
    match suites::sizes::find(suite) {
        Some(s) => decrypt_known(s, key, nonce, header, metadata, sealed, out),
        None => Err(Refused::Input),
    }
}
