// SPDX-License-Identifier: MIT
// Tests of inputs that several functions share.
ghost use Rattle.sframe_test.specs.Judged.{Tells, AesKey, Parts};

use suites::sizes::Aes128CtrHmacSha256Tag80;

// The longest of each input.
pub const MAX_BYTES: usize = 65536;

// The bytes of a salt and of a nonce.
pub const NN: usize = Aes128CtrHmacSha256Tag80::NN;

// Whether a key has 16 or 32 bytes.
pub fn key_taken(key: &[u8]) -> bool
    ensures { Tells (AesKey key.now) result }
{
    if key.len() % 16 != 0 {
        return false;
    }
    if key.len() < 16 {
        return false;
    }
    if 32 < key.len() {
        return false;
    }
    true
}

// Whether a nonce has its length, and no other input is too long.
pub fn parts_taken(nonce: &[u8], header: &[u8], metadata: &[u8], text: &[u8]) -> bool
    ensures { Tells (Parts nonce.now header.now metadata.now text.now) result }
{
    if nonce.len() != NN {
        return false;
    }
    if MAX_BYTES < header.len() {
        return false;
    }
    if MAX_BYTES < metadata.len() {
        return false;
    }
    if MAX_BYTES < text.len() {
        return false;
    }
    true
}
