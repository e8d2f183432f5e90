// SPDX-License-Identifier: MIT
// GHASH (SP 800-38D §6.4). A product of blocks is taken as one of polynomials, by nine products of 32 bits after
// Karatsuba, and reduced. There is no table: no index and no branch depends on a block or on the hash key.
#![tactic(auto)]

ghost use Rattle.std.specs.Prelude.{◌≡◌, ◌++◌, ◌+◌, ◌^◌, ◌≤◌, ◌<◌, length, get_or, drop};
ghost use Rattle.std.specs.Int.Bits.{bit_xor};
ghost use Rattle.octets.specs.Octets.{number, bytes};
ghost use Rattle.aes.specs.Aes.{block_size};
ghost use Rattle.clmul.specs.Inner.Karatsuba.{karatsuba};
ghost use Rattle.ghash.specs.Ghash.{halve, product, absorb};
ghost use Rattle.ghash.specs.Inner.HashKey.{value_of, factors_of, HashKey, hash_key_of};
ghost use Rattle.ghash.specs.Inner.Products.{halves, factors, Products};

use aes::BLOCK;

// The factors of 32 bits by which a product of blocks is taken.
const FACTORS: usize = 9;

// The last of them. Those before it are even in number, so that the compiler takes two of their products at a time.
const LAST: usize = FACTORS - 1;

// The context of a hash key: the factors of the block whose half is the key.
pub type HashKey = [u32; FACTORS];

// A block, in two halves.
#[derive(Clone, Copy)]
pub struct Block {
    pub hi: u64,
    pub lo: u64,
}

// The sum of two blocks.
pub fn plus(a: Block, b: Block) -> Block
    ensures { value_of result ≡ bit_xor (value_of a) (value_of b) }
{
    Block {
        hi: a.hi ^ b.hi,
        lo: a.lo ^ b.lo,
    }
}

// The block of which h is the half.
fn doubled(h: Block) -> Block
    ensures { halve (value_of result) ≡ value_of h }
{
    let top = h.hi / 0x8000_0000_0000_0000;
    let rest = h.hi ^ top * 0xe100_0000_0000_0000;
    Block {
        hi: rest * 2 + h.lo / 0x8000_0000_0000_0000,
        lo: h.lo % 0x8000_0000_0000_0000 * 2 + top,
    }
}

// The factors of a block.
fn factors(x: Block) -> [u32; FACTORS]
    ensures { result ≡ factors_of x.hi x.lo }
{
    let a = (x.lo % 0x1_0000_0000) as u32;
    let b = (x.lo / 0x1_0000_0000) as u32;
    let c = (x.hi % 0x1_0000_0000) as u32;
    let d = (x.hi / 0x1_0000_0000) as u32;
    [a, b, a ^ b, c, d, c ^ d, a ^ c, b ^ d, (a ^ c) ^ (b ^ d)]
}

// The context of the hash key h.
pub fn expand(h: Block) -> HashKey
    ensures { HashKey (value_of h) result }
{
    factors(doubled(h))
}

// The products of the factors of x and those of the context.
fn products(t: &HashKey, x: Block) -> [u64; FACTORS]
    ensures { Products (factors_of x.hi x.lo) t.now factors result }
{
    let f = factors(x);
    let mut p = [0u64; FACTORS];
    for i in 0..LAST {
        p[i] = clmul::multiply(f[i], t[i]);
    }
    p[LAST] = clmul::multiply(f[LAST], t[LAST]);
    p
}

// The product of 64 bits, from three of 32.
fn join(low: u64, high: u64, both: u64) -> Block
    ensures { value_of result ≡ karatsuba 32 low high both }
{
    let mid = both ^ low ^ high;
    Block {
        hi: high ^ mid / 0x1_0000_0000,
        lo: low ^ mid % 0x1_0000_0000 * 0x1_0000_0000,
    }
}

// 64 times halved, at once: each bit of the low half falls out and is reduced.
fn halved(v: Block) -> Block
    ensures { value_of result ≡ halves 64 (value_of v) }
{
    let l = v.lo;
    Block {
        hi: l ^ l / 2 ^ l / 4 ^ l / 128,
        lo: v.hi
            ^ l % 2 * 0x8000_0000_0000_0000
            ^ l % 4 * 0x4000_0000_0000_0000
            ^ l % 128 * 0x200_0000_0000_0000,
    }
}

// The product of 128 bits, from three of 64, 128 times halved.
fn reduced(low: Block, high: Block, both: Block) -> Block
    ensures { value_of result ≡ halves 128 (karatsuba 64 (value_of low) (value_of high) (value_of both)) }
{
    let mid = plus(plus(both, low), high);
    let rest = Block {
        hi: low.hi ^ mid.lo,
        lo: low.lo,
    };
    let top = Block {
        hi: high.hi,
        lo: high.lo ^ mid.hi,
    };
    plus(top, halved(halved(rest)))
}

// The product of x and the hash key.
pub fn times(t: &HashKey, x: Block) -> Block
    requires { HashKey (hash_key_of t.now) t.now }
    ensures { value_of result ≡ product (value_of x) (hash_key_of t.now) }
{
    let p = products(t, x);
    reduced(
        join(p[0], p[1], p[2]),
        join(p[3], p[4], p[5]),
        join(p[6], p[7], p[8]),
    )
}

// The bytes of the block at index i of a and then b, filled up with zeros.
fn gather(a: &[u8], b: &[u8], i: usize) -> [u8; BLOCK]
    requires { (i < length a.now + length b.now) × (length a.now + length b.now < 2 ^ 32) }
    ensures { number block_size result ≡ number block_size (drop i (a.now ++ b.now)) }
{
    let mut out = [0u8; BLOCK];
    for k in 0..BLOCK {
        out[k] = at(a, b, i + k);
    }
    out
}

// The byte at index i of a and then b, or 0 past the end.
fn at(a: &[u8], b: &[u8], i: usize) -> u8
    ensures { result ≡ get_or (a.now ++ b.now) i 0 }
{
    if i < a.len() {
        return a[i];
    }
    let j = i - a.len();
    if j < b.len() {
        return b[j];
    }
    0
}

// The block at the front of b.
pub fn load(b: &[u8]) -> Block
    requires { block_size ≤ length b.now }
    ensures { value_of result ≡ number block_size b.now }
{
    Block {
        hi: octets::read_be64(b),
        lo: octets::read_be64(&b[8..]),
    }
}

// Writes a block to the front of out.
pub fn store(out: &mut [u8], b: Block)
    requires { block_size ≤ length out.old }
    ensures { out.new ≡ bytes block_size (value_of b) ++ drop block_size out.old }
{
    octets::write_be64(out, b.hi);
    octets::write_be64(&mut out[8..], b.lo);
}

// The block at index i of a and then b, filled up with zeros.
fn padded(a: &[u8], b: &[u8], i: usize) -> Block
    requires { (i < length a.now + length b.now) × (length a.now + length b.now < 2 ^ 32) }
    ensures { value_of result ≡ number block_size (drop i (a.now ++ b.now)) }
{
    if i < a.len() {
        if BLOCK <= a.len() - i {
            return load(&a[i..]);
        }
    }
    let g = gather(a, b, i);
    load(&g)
}

// GHASH from y on, over a and then b.
pub fn absorb(t: &HashKey, y: Block, a: &[u8], b: &[u8]) -> Block
    requires hash_key { HashKey (hash_key_of t.now) t.now }
    requires b_len_bound { length a.now + length b.now < 2 ^ 32 }
    ensures { value_of result ≡ absorb (hash_key_of t.now) (value_of y) (a.now ++ b.now) }
{
    let n = (a.len() + b.len() + (BLOCK - 1)) / BLOCK;
    let mut z = y;
    for i in 0..n {
        z = times(t, plus(z, padded(a, b, BLOCK * i)));
    }
    z
}
