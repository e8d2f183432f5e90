// SPDX-License-Identifier: MIT
// HKDF: the two steps of RFC 5869.
ghost use Rattle.std.specs.Prelude.{◌≡◌, ℕ, List, [], ◌∷◌, ◌++◌, ◌≤◌, length};
ghost use Rattle.hmac.specs.Hmac.{hmac};
ghost use Rattle.hmac.specs.Hkdf.{extract, expand, limit};
ghost use Rattle.hmac.specs.Limits.{largest};
ghost use Rattle.hmac.specs.Inner.Running.{Keyed};

use crate::keyed::{block_key, end, hmac_of, keyed};
use crate::{IPAD, OPAD};
use octets::copy;
use sha2_common::Hash;

// HKDF-Extract: the pseudorandom key.
pub fn hkdf_extract<H: Hash<BLOCK, DIGEST>, const BLOCK: usize, const DIGEST: usize>(
    salt: &[u8],
    ikm: &[u8],
) -> [u8; DIGEST]
    requires { (length salt.now ≤ largest) × (length ikm.now ≤ largest) }
    ensures { (result ≡ extract H.params salt.now ikm.now) × (length result ≡ DIGEST) }
{
    hmac_of::<H, BLOCK, DIGEST>(salt, ikm)
}

// The block T(i) of HKDF-Expand, from the block before it and the hashes that were fed the masked key.
fn next_block<H: Hash<BLOCK, DIGEST>, const BLOCK: usize, const DIGEST: usize>(
    inner: H,
    outer: H,
    before: &[u8],
    info: &[u8],
    i: u8,
) -> [u8; DIGEST]
    requires { ((H.state inner).len ≡ BLOCK) × ((H.state outer).len ≡ BLOCK) × (length before.now ≤ DIGEST) × (length info.now ≤ largest) }
    ensures { ((k : List ℕ) → Keyed H.params (H.state inner) (H.state outer) k [] → result ≡ hmac H.params k (before.now ++ (info.now ++ (i ∷ [])))) × (length result ≡ DIGEST) }
{
    end(inner.feed(before).feed(info).feed(&[i]), outer)
}

// HKDF-Expand: fills out with keying material.
pub fn hkdf_expand<H: Hash<BLOCK, DIGEST>, const BLOCK: usize, const DIGEST: usize>(
    prk: &[u8],
    info: &[u8],
    out: &mut [u8],
)
    requires { (length prk.now ≤ largest) × (length info.now ≤ largest) × (length out.old ≤ limit H.params) }
    ensures { out.new ≡ expand H.params prk.now info.now (length out.old) }
{
    let key = block_key::<H, BLOCK, DIGEST>(prk);
    let inner: H = keyed(&key, IPAD);
    let outer: H = keyed(&key, OPAD);
    let mut block = [0u8; DIGEST];
    let mut used = 0;
    let count = out.len().div_ceil(DIGEST);
    for i in 0..count {
        let counter = (i + 1) as u8;
        block = next_block(inner, outer, &block[..used], info, counter);
        used = DIGEST;
        let at = i * DIGEST;
        let n = DIGEST.min(out.len() - at);
        copy(&mut out[at..at + n], &block[..n]);
    }
}
