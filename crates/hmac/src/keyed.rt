// SPDX-License-Identifier: MIT
// HMAC: of a text that is given in pieces, and of a whole one.
ghost use Rattle.std.specs.Prelude.{◌≡◌, ℕ, List, [], ◌++◌, ◌+◌, ◌≤◌, length, replicate};
ghost use Rattle.octets.specs.Octets.{xors};
ghost use Rattle.sha2_common.specs.Limits.{maximum};
ghost use Rattle.sha2_common.specs.Fed.{Fed};
ghost use Rattle.hmac.specs.Hmac.{extended, hmac};
ghost use Rattle.hmac.specs.Limits.{largest};
ghost use Rattle.hmac.specs.Inner.Running.{Keyed};

use crate::{IPAD, OPAD};
use octets::{copy, xor};
use sha2_common::Hash;

// The running HMAC: the inner hash, which takes the text, and the outer hash, which waits for the
// inner digest.
#[derive(Clone, Copy)]
pub struct Hmac<H, const BLOCK: usize, const DIGEST: usize> {
    inner: H,
    outer: H,
}

// The key as one block.
pub fn block_key<H: Hash<BLOCK, DIGEST>, const BLOCK: usize, const DIGEST: usize>(
    key: &[u8],
) -> [u8; BLOCK]
    requires { length key.now ≤ largest }
    ensures { (result ≡ extended H.params key.now) × (length result ≡ BLOCK) }
{
    let mut block = [0u8; BLOCK];
    if key.len() <= BLOCK {
        copy(&mut block, key);
        return block;
    }
    let digest = running_hash::digest::<H, BLOCK, DIGEST>(key, b"");
    copy(&mut block, &digest);
    block
}

// The block XOR a pad.
pub fn masked_block<const BLOCK: usize>(block: &[u8], pad: u8) -> [u8; BLOCK]
    requires { length block.now ≡ BLOCK }
    ensures { (result ≡ xors block.now (replicate BLOCK pad)) × (length result ≡ BLOCK) }
{
    let mut masked = [0u8; BLOCK];
    copy(&mut masked, block);
    xor(&mut masked, &[pad; BLOCK]);
    masked
}

// The hash that has been fed the block XOR a pad.
pub(crate) fn keyed<H: Hash<BLOCK, DIGEST>, const BLOCK: usize, const DIGEST: usize>(
    block: &[u8],
    pad: u8,
) -> H
    requires { length block.now ≡ BLOCK }
    ensures { (Fed H.params (H.state result) (xors block.now (replicate BLOCK pad))) × ((H.state result).len ≡ BLOCK) }
{
    let masked = masked_block::<BLOCK>(block, pad);
    H::new().feed(&masked)
}

// The tag of what the inner hash has been fed behind its masked key.
pub(crate) fn end<H: Hash<BLOCK, DIGEST>, const BLOCK: usize, const DIGEST: usize>(
    inner: H,
    outer: H,
) -> [u8; DIGEST]
    requires { ((H.state inner).len ≤ maximum) × ((H.state outer).len ≡ BLOCK) }
    ensures { ((k m : List ℕ) → Keyed H.params (H.state inner) (H.state outer) k m → result ≡ hmac H.params k m) × (length result ≡ DIGEST) }
{
    let digest = inner.finish();
    outer.feed(&digest).finish()
}

impl<H: Hash<BLOCK, DIGEST>, const BLOCK: usize, const DIGEST: usize> Hmac<H, BLOCK, DIGEST> {
    // The key is set, and no text has been fed.
    pub fn new(key: &[u8]) -> Hmac<H, BLOCK, DIGEST>
        requires { length key.now ≤ largest }
        ensures { (Keyed H.params (H.state result.inner) (H.state result.outer) key.now []) × ((H.state result.inner).len ≡ BLOCK) × ((H.state result.outer).len ≡ BLOCK) }
    {
        let block = block_key::<H, BLOCK, DIGEST>(key);
        let inner = keyed(&block, IPAD);
        let outer = keyed(&block, OPAD);
        Hmac { inner, outer }
    }

    // s has been fed after what was fed before.
    pub fn feed(self, s: &[u8]) -> Hmac<H, BLOCK, DIGEST>
        requires { (H.state self.inner).len + length s.now ≤ maximum }
        ensures { ((k m : List ℕ) → Keyed H.params (H.state self.inner) (H.state self.outer) k m → Keyed H.params (H.state result.inner) (H.state result.outer) k (m ++ s.now)) × ((H.state result.inner).len ≡ (H.state self.inner).len + length s.now) × ((H.state result.outer).len ≡ (H.state self.outer).len) }
    {
        Hmac {
            inner: self.inner.feed(s),
            outer: self.outer,
        }
    }

    // The tag of what has been fed.
    pub fn finish(self) -> [u8; DIGEST]
        requires { ((H.state self.inner).len ≤ maximum) × ((H.state self.outer).len ≡ BLOCK) }
        ensures { ((k m : List ℕ) → Keyed H.params (H.state self.inner) (H.state self.outer) k m → result ≡ hmac H.params k m) × (length result ≡ DIGEST) }
    {
        end(self.inner, self.outer)
    }
}

// The tag of a whole text.
pub fn hmac_of<H: Hash<BLOCK, DIGEST>, const BLOCK: usize, const DIGEST: usize>(
    key: &[u8],
    text: &[u8],
) -> [u8; DIGEST]
    requires { (length key.now ≤ largest) × (length text.now ≤ largest) }
    ensures { (result ≡ hmac H.params key.now text.now) × (length result ≡ DIGEST) }
{
    let block = block_key::<H, BLOCK, DIGEST>(key);
    let inner = masked_block::<BLOCK>(&block, IPAD);
    let outer = masked_block::<BLOCK>(&block, OPAD);
    let digest = running_hash::digest::<H, BLOCK, DIGEST>(&inner, text);
    running_hash::digest::<H, BLOCK, DIGEST>(&outer, &digest)
}
