// SPDX-License-Identifier: MIT
// Runs one case, and counts whether it gave what is expected.
ghost use Rattle.std.specs.Prelude.{◌≡◌, ◌+◌, ◌*◌, ◌≤◌, length};
ghost use Rattle.hmac.specs.Limits.{largest};

use hmac::{LARGEST, hkdf_expand, hkdf_extract, hmac_of};
use running_hash::digest;
use sha2_common::{Hash, MAXIMUM};
use sha256::Sha256;
use sha512::Sha512;
use std::num::wrapping_add_u8;
use vector_text::{Tally, digit};

// Whether text is bytes in hexadecimal.
fn is_hex(bytes: &[u8], text: &[u8]) -> bool {
    bytes.len() == text.len() / 2
        && bytes
            .iter()
            .zip(text.chunks_exact(2))
            .all(|(b, pair)| is_byte(*b, pair))
}

// Whether text is the two digits of b.
fn is_byte(b: u8, text: &[u8]) -> bool {
    match text {
        [high, low] => digit(*high) == Some(b / 16) && digit(*low) == Some(b % 16),
        _ => false,
    }
}

// Fills out with first, first + 1 and so on.
pub fn count(out: &mut [u8], first: u8) {
    let mut next = first;
    for b in out {
        *b = next;
        next = wrapping_add_u8(next, 1);
    }
}

// A message, and its digests in hexadecimal.
pub struct Message<'a> {
    pub text: &'a [u8],
    pub sha256: &'a [u8],
    pub sha512: &'a [u8],
}

// Both digests of a message by value and whole.
pub fn whole(t: Tally, message: &Message) -> Tally {
    if MAXIMUM < message.text.len() {
        return t.plus(false);
    }
    let short = Sha256::new().feed(message.text).finish();
    let long = Sha512::new().feed(message.text).finish();
    t.plus(is_hex(&short, message.sha256))
        .plus(is_hex(&long, message.sha512))
}

// Both digests of a message that is fed to lent states in two pieces, for each place where it can be cut.
pub fn cut(t: Tally, message: &Message) -> Tally {
    if MAXIMUM < message.text.len() {
        return t.plus(false);
    }
    let mut sum = t;
    for at in 0..=message.text.len() {
        let (first, second) = message.text.split_at(at);
        let short = digest::<Sha256, 64, 32>(first, second);
        let long = digest::<Sha512, 128, 64>(first, second);
        sum = sum
            .plus(is_hex(&short, message.sha256))
            .plus(is_hex(&long, message.sha512));
    }
    sum
}

// The digest of a million of the letter a, a thousand at a time.
fn million<H: Hash<BLOCK, DIGEST>, const BLOCK: usize, const DIGEST: usize>() -> [u8; DIGEST] {
    let piece = [b'a'; 1000];
    let mut state = H::new();
    for _ in 0..1000u64 {
        state = state.feed(&piece);
    }
    state.finish()
}

pub fn million_case(t: Tally, sha256: &[u8], sha512: &[u8]) -> Tally {
    let short = million::<Sha256, 64, 32>();
    let long = million::<Sha512, 128, 64>();
    t.plus(is_hex(&short, sha256)).plus(is_hex(&long, sha512))
}

// Whether expected is the tag in hexadecimal, or its front.
fn front_is_hex(tag: &[u8], expected: &[u8]) -> bool {
    let n = expected.len() / 2;
    if tag.len() < n {
        return false;
    }
    is_hex(&tag[..n], expected)
}

pub fn hmac_case(t: Tally, key: &[u8], text: &[u8], sha256: &[u8], sha512: &[u8]) -> Tally {
    if LARGEST < key.len() {
        return t.plus(false);
    }
    if LARGEST < text.len() {
        return t.plus(false);
    }
    let short = hmac_of::<Sha256, 64, 32>(key, text);
    let long = hmac_of::<Sha512, 128, 64>(key, text);
    t.plus(front_is_hex(&short, sha256))
        .plus(front_is_hex(&long, sha512))
}

// Whether okm is what the key expands to, in hexadecimal. out has room for it.
fn expands(key: &[u8], info: &[u8], okm: &[u8], out: &mut [u8]) -> bool
    requires { (length key.now ≤ 32) × (length info.now ≤ largest) × (length out.old ≤ 82) }
{
    hkdf_expand::<Sha256, 64, 32>(key, info, out);
    is_hex(out, okm)
}

// The pseudorandom key and the output, of at most 82 bytes.
pub fn hkdf_case(t: Tally, ikm: &[u8], salt: &[u8], info: &[u8], prk: &[u8], okm: &[u8]) -> Tally {
    if LARGEST < ikm.len() {
        return t.plus(false);
    }
    if LARGEST < salt.len() {
        return t.plus(false);
    }
    if LARGEST < info.len() {
        return t.plus(false);
    }
    let n = okm.len() / 2;
    if 82 < n {
        return t.plus(false);
    }
    let key = hkdf_extract::<Sha256, 64, 32>(salt, ikm);
    let mut out = [0u8; 82];
    let expanded = expands(&key, info, okm, &mut out[..n]);
    t.plus(is_hex(&key, prk)).plus(expanded)
}
