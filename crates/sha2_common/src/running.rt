// SPDX-License-Identifier: MIT
// A hash of a message that is given in pieces.
ghost use Rattle.std.specs.Prelude.{◌≡◌, ℕ, ◌+◌, ◌*◌, ◌/◌, ◌%◌, ◌<◌, ◌≤◌, List, [], ◌++◌, length};
ghost use Rattle.sha2_common.specs.Sha2.{Params, compress, run, joined, zeros, hash};
ghost use Rattle.sha2_common.specs.Limits.{maximum};
ghost use Rattle.sha2_common.specs.Running.{State, left, room_of, fresh, fed, finished, state_of};
ghost use Rattle.sha2_common.specs.Fed.{Fed};

use crate::Hash;
use octets::{copy, write_be64};

// A hash value, with blocks of BLOCK bytes and digests of DIGEST.
pub trait Value<const BLOCK: usize, const DIGEST: usize>: Copy {
    // The parameters of its hash, and its words.
    ghost params: { Params };

    ghost words: { Self → List ℕ };

    fn initial() -> Self
        ensures { words result ≡ params.initial };

    // The hash value after a block.
    fn compress(self, block: &[u8; BLOCK]) -> Self
        ensures { words result ≡ compress params (words self) block.now };

    // Its bytes.
    fn digest(self) -> [u8; DIGEST]
        ensures { result ≡ joined params (words self) };

    ghost sizes: { (params.block ≡ BLOCK) × (8 * params.size ≡ DIGEST) × (0 < DIGEST) × (DIGEST ≤ BLOCK) × (64 ≤ BLOCK) × (BLOCK ≤ 128) × (params.field ≡ BLOCK / 8) };
}

// The running hash: the hash value of the whole blocks fed, the bytes after them, and the number of
// bytes fed in all.
#[derive(Clone, Copy)]
pub struct Running<V, const BLOCK: usize, const DIGEST: usize> {
    pub value: V,
    pub waiting: [u8; BLOCK],
    pub len: u64,
}

// The hash value after the whole blocks of s.
fn blocks<V: Value<BLOCK, DIGEST>, const BLOCK: usize, const DIGEST: usize>(h: V, s: &[u8]) -> V
    ensures { V.words result ≡ run V.params (V.words h) s.now }
{
    let mut v = h;
    for block in s.as_chunks::<BLOCK>().0 {
        v = v.compress(block);
    }
    v
}

// A block's room that holds front and back, with zeros behind them.
pub fn room<const BLOCK: usize>(front: &[u8], back: &[u8]) -> [u8; BLOCK]
    requires { length front.now + length back.now ≤ BLOCK }
    ensures { (p : Params) → p.block ≡ BLOCK → result ≡ room_of p (front.now ++ back.now) }
{
    let mut block = [0u8; BLOCK];
    let have = front.len();
    let out = &mut block[..];
    copy(out, front);
    copy(&mut out[have..], back);
    block
}

// The hash value after the whole blocks of front, which is less than a block, and s.
fn absorb<V: Value<BLOCK, DIGEST>, const BLOCK: usize, const DIGEST: usize>(
    h: V,
    front: &[u8],
    s: &[u8],
) -> V
    requires { (length front.now < BLOCK) × (length s.now ≤ maximum) }
    ensures { V.words result ≡ run V.params (V.words h) (front.now ++ s.now) }
{
    let have = front.len();
    if have + s.len() < BLOCK {
        return h;
    }
    if have == 0 {
        return blocks(h, s);
    }
    let from = BLOCK - have;
    let first = room::<BLOCK>(front, &s[..from]);
    let v = h.compress(&first);
    blocks(v, &s[from..])
}

// A block's room that holds what is left of front and s after their whole blocks.
fn rest<const BLOCK: usize>(front: &[u8], s: &[u8]) -> [u8; BLOCK]
    requires { (length front.now < BLOCK) × (length s.now ≤ maximum) }
    ensures { (p : Params) → p.block ≡ BLOCK → result ≡ room_of p (left p (front.now ++ s.now)) }
{
    let have = front.len();
    if have + s.len() < BLOCK {
        return room(front, s);
    }
    let at = s.len() - (have + s.len()) % BLOCK;
    room(b"", &s[at..])
}

// Where the padding of a message ends that leaves have bytes after its whole blocks, counted from there.
fn padded_end<const BLOCK: usize>(have: usize) -> usize
    requires { (have < BLOCK) × (64 ≤ BLOCK) × (BLOCK ≤ 128) }
    ensures padding { (p : Params) (n : ℕ) → p.block ≡ BLOCK → p.field ≡ BLOCK / 8 → have ≡ n % BLOCK → result ≡ have + (p.field + 1) + zeros p n }
    ensures ends { (result ≤ 2 * BLOCK) × (have + 9 ≤ result) }
{
    if have + BLOCK / 8 < BLOCK {
        BLOCK
    } else {
        2 * BLOCK
    }
}

impl<V: Value<BLOCK, DIGEST>, const BLOCK: usize, const DIGEST: usize> Running<V, BLOCK, DIGEST> {
    // Nothing has been fed.
    pub fn new() -> Running<V, BLOCK, DIGEST>
        ensures { (Fed V.params (state_of (V.words result.value) result.waiting result.len) []) × (result.len ≡ 0) × (state_of (V.words result.value) result.waiting result.len ≡ fresh V.params) }
    {
        Running {
            value: V::initial(),
            waiting: [0; BLOCK],
            len: 0,
        }
    }

    // s has been fed after what was fed before.
    pub fn feed(self, s: &[u8]) -> Running<V, BLOCK, DIGEST>
        requires { self.len + length s.now ≤ maximum }
        ensures { ((m : List ℕ) → Fed V.params (state_of (V.words self.value) self.waiting self.len) m → Fed V.params (state_of (V.words result.value) result.waiting result.len) (m ++ s.now)) × (result.len ≡ self.len + length s.now) × (state_of (V.words result.value) result.waiting result.len ≡ fed V.params (state_of (V.words self.value) self.waiting self.len) s.now) }
    {
        let have = (self.len % BLOCK as u64) as usize;
        let front = &self.waiting[..have];
        Running {
            value: absorb(self.value, front, s),
            waiting: rest(front, s),
            len: self.len + s.len() as u64,
        }
    }

    // The digest of what has been fed.
    pub fn finish(self) -> [u8; DIGEST]
        requires { self.len ≤ maximum }
        ensures { ((m : List ℕ) → Fed V.params (state_of (V.words self.value) self.waiting self.len) m → result ≡ hash V.params m) × (length result ≡ DIGEST) × (result ≡ finished V.params (state_of (V.words self.value) self.waiting self.len)) }
    {
        let have = (self.len % BLOCK as u64) as usize;
        let end = padded_end::<BLOCK>(have);
        let mut tail = [0u8; 256];
        copy(&mut tail, &self.waiting[..have]);
        tail[have] = 0x80;
        write_be64(&mut tail[end - 8..], self.len * 8);
        blocks(self.value, &tail[..end]).digest()
    }
}

impl<V: Value<BLOCK, DIGEST>, const BLOCK: usize, const DIGEST: usize> Hash<BLOCK, DIGEST>
    for Running<V, BLOCK, DIGEST> {
    ghost params = { V.params };

    ghost state = { λ s. state_of (V.words s.value) s.waiting s.len };

    ghost sizes = { (V.sizes.0, V.sizes.1, V.sizes.2, V.sizes.3, V.sizes.5) };

    fn new() -> Running<V, BLOCK, DIGEST> {
        Running::new()
    }

    fn feed(self, s: &[u8]) -> Running<V, BLOCK, DIGEST> {
        Running::feed(self, s)
    }

    fn finish(self) -> [u8; DIGEST] {
        Running::finish(self)
    }
}
