// SPDX-License-Identifier: MIT
// Hashes and derived keys for tests. Each public function judges its input: it writes the result to the front of the
// output, or it refuses the input and changes nothing. A message is fed in three pieces, which end at first, at second
// and at its own end.
ghost use Rattle.std.specs.Prelude.{◌≡◌, [], ◌++◌, ◌≤◌, length, drop};
ghost use Rattle.sha2_common.specs.Sha2.{hash};
ghost use Rattle.sha2_common.specs.Sizes.{sha256, sha512};
ghost use Rattle.sha2_common.specs.Limits.{maximum};
ghost use Rattle.hmac.specs.Hmac.{hmac};
ghost use Rattle.hmac.specs.Hkdf.{extract, expand, limit};
ghost use Rattle.hmac.specs.Limits.{largest};
ghost use Rattle.sframe_test.specs.Judged.{Judged, HashTakes, HmacTakes, HkdfTakes, number_of};

use crate::Refused;
use hmac::{HmacSha256, HmacSha512, LARGEST, hkdf_expand, hkdf_extract};
use octets::copy;
use sha2_common::{Hash, MAXIMUM};

fn digest_of<H: Hash<BLOCK, DIGEST>, const BLOCK: usize, const DIGEST: usize>(
    message: &[u8],
    first: usize,
    second: usize,
) -> [u8; DIGEST]
    requires { (first ≤ second) × (second ≤ length message.now) × (length message.now ≤ maximum) }
    ensures { (result ≡ hash H.params message.now) × (length result ≡ DIGEST) }
{
    let one = H::new().feed(&message[..first]);
    let two = one.feed(&message[first..second]);
    two.feed(&message[second..]).finish()
}

fn hmac_sha256_pieces(key: &[u8], message: &[u8], first: usize, second: usize) -> [u8; 32]
    requires { (first ≤ second) × (second ≤ length message.now) × (length message.now ≤ largest) × (length key.now ≤ largest) }
    ensures { (result ≡ hmac sha256 key.now message.now) × (length result ≡ 32) }
{
    let one = HmacSha256::new(key).feed(&message[..first]);
    let two = one.feed(&message[first..second]);
    two.feed(&message[second..]).finish()
}

fn hmac_sha512_pieces(key: &[u8], message: &[u8], first: usize, second: usize) -> [u8; 64]
    requires { (first ≤ second) × (second ≤ length message.now) × (length message.now ≤ largest) × (length key.now ≤ largest) }
    ensures { (result ≡ hmac sha512 key.now message.now) × (length result ≡ 64) }
{
    let one = HmacSha512::new(key).feed(&message[..first]);
    let two = one.feed(&message[first..second]);
    two.feed(&message[second..]).finish()
}

// The digest of a message.
pub fn digest<H: Hash<BLOCK, DIGEST>, const BLOCK: usize, const DIGEST: usize>(
    message: &[u8],
    first: usize,
    second: usize,
    digest: &mut [u8],
) -> Result<(), Refused>
    ensures { Judged 0 (HashTakes maximum DIGEST message.now first second digest.old) (digest.new ≡ hash H.params message.now ++ drop DIGEST digest.old) (digest.new ≡ digest.old) (number_of result) }
{
    if MAXIMUM < message.len() {
        return Err(Refused::Input);
    }
    if message.len() < second {
        return Err(Refused::Input);
    }
    if second < first {
        return Err(Refused::Input);
    }
    if digest.len() < DIGEST {
        return Err(Refused::Input);
    }
    let result = digest_of::<H, BLOCK, DIGEST>(message, first, second);
    copy(digest, &result);
    Ok(())
}

// The tag of a message. One function of a type parameter for both hashes gets no proof: a running HMAC over a parameter
// owes that its size is below 2^63, which nothing here says.
pub fn tag_sha256(
    key: &[u8],
    message: &[u8],
    first: usize,
    second: usize,
    tag: &mut [u8],
) -> Result<(), Refused>
    ensures { Judged 0 (HmacTakes largest 32 key.now message.now first second tag.old) (tag.new ≡ hmac sha256 key.now message.now ++ drop 32 tag.old) (tag.new ≡ tag.old) (number_of result) }
{
    if LARGEST < key.len() {
        return Err(Refused::Input);
    }
    if LARGEST < message.len() {
        return Err(Refused::Input);
    }
    if message.len() < second {
        return Err(Refused::Input);
    }
    if second < first {
        return Err(Refused::Input);
    }
    if tag.len() < 32 {
        return Err(Refused::Input);
    }
    let result = hmac_sha256_pieces(key, message, first, second);
    copy(tag, &result);
    Ok(())
}

pub fn tag_sha512(
    key: &[u8],
    message: &[u8],
    first: usize,
    second: usize,
    tag: &mut [u8],
) -> Result<(), Refused>
    ensures { Judged 0 (HmacTakes largest 64 key.now message.now first second tag.old) (tag.new ≡ hmac sha512 key.now message.now ++ drop 64 tag.old) (tag.new ≡ tag.old) (number_of result) }
{
    if LARGEST < key.len() {
        return Err(Refused::Input);
    }
    if LARGEST < message.len() {
        return Err(Refused::Input);
    }
    if message.len() < second {
        return Err(Refused::Input);
    }
    if second < first {
        return Err(Refused::Input);
    }
    if tag.len() < 64 {
        return Err(Refused::Input);
    }
    let result = hmac_sha512_pieces(key, message, first, second);
    copy(tag, &result);
    Ok(())
}

// HKDF-Extract with no salt, then HKDF-Expand to out's length, which is at most that of 255 digests.
pub fn key<H: Hash<BLOCK, DIGEST>, const BLOCK: usize, const DIGEST: usize>(
    ikm: &[u8],
    info: &[u8],
    out: &mut [u8],
) -> Result<(), Refused>
    ensures { Judged 0 (HkdfTakes largest (limit H.params) ikm.now info.now out.old) (out.new ≡ expand H.params (extract H.params [] ikm.now) info.now (length out.old)) (out.new ≡ out.old) (number_of result) }
{
    if LARGEST < ikm.len() {
        return Err(Refused::Input);
    }
    if LARGEST < info.len() {
        return Err(Refused::Input);
    }
    if 255 * DIGEST < out.len() {
        return Err(Refused::Input);
    }
    let prk = hkdf_extract::<H, BLOCK, DIGEST>(b"", ikm);
    hkdf_expand::<H, BLOCK, DIGEST>(&prk, info, out);
    Ok(())
}
