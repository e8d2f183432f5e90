// SPDX-License-Identifier: MIT
// Runs one vector and compares the answer with the one expected.

use sframe_test::Refused;
use vector_text::Tally;

// One more vector: it matches where the function took it, and wrote what was expected.
fn counted(t: Tally, answer: Result<(), Refused>, out: &[u8], expected: &[u8]) -> Tally {
    t.plus(answer.is_ok() && out.starts_with(expected))
}

// AES of a block.
pub fn block(t: Tally, key: &[u8], plaintext: &[u8], ciphertext: &[u8]) -> Tally {
    let mut out = [0u8; 80];
    let answer = sframe_test::aes_modes::sframe_test_aes(key, plaintext, &mut out);
    counted(t, answer, &out, ciphertext)
}

// Counter mode.
pub fn counter(
    t: Tally,
    key: &[u8],
    nonce: &[u8],
    count: u32,
    plaintext: &[u8],
    ciphertext: &[u8],
) -> Tally {
    let mut out = [0u8; 80];
    let answer = sframe_test::aes_modes::sframe_test_ctr(key, nonce, count, plaintext, &mut out);
    counted(t, answer, &out, ciphertext)
}

// GCM: the ciphertext, then the tag.
pub fn sealed(
    t: Tally,
    key: &[u8],
    nonce: &[u8],
    header: &[u8],
    metadata: &[u8],
    plaintext: &[u8],
    res: &[u8],
) -> Tally {
    let mut out = [0u8; 80];
    let answer = sframe_test::aes_modes::sframe_test_gcm_seal(
        key, nonce, header, metadata, plaintext, &mut out,
    );
    counted(t, answer, &out, res)
}
