// SPDX-License-Identifier: MIT
// AES encryption (FIPS 197) of sixteen counter blocks at once, in bit planes. What is done does not depend on key or data: no
// look-up by either, and no branch.
//
// The sixteen blocks have one nonce and block counts that follow each other from a multiple of sixteen on, so that their
// low four bits are the same in every batch.
#![tactic(auto)]

ghost use Rattle.std.specs.Prelude.{◌≡◌, ◌++◌, ◌+◌, ◌*◌, ◌%◌, ◌≤◌, ◌<◌, length, drop};
ghost use Rattle.bit_transpose.specs.Transposition.{Transposed};
ghost use Rattle.aes_rows.specs.Rows.{Each};
ghost use Rattle.aes_keys.specs.Inner.Keys.{Ready, key_of, rounds_at, size};
ghost use Rattle.aes_batch.specs.Inner.Batch.{Numbers, Numbered, Cleared, Clearing, Transposing, Counters, Encrypted, Gathered, word_bytes, Unsliced, Blocks, counters_of, front_of};

use aes::BLOCK;
use aes_keys::Context;
use aes_rows::{PLANES, Rows};
use bitslice::Planes;

// The blocks of a batch, and their bytes.
pub const BLOCKS: usize = 16;

pub const BYTES: usize = BLOCK * BLOCKS;

// The bytes of sixteen blocks, one after the other.
pub type Batch = [u8; BYTES];

// Adds to the last column of each block its number. The lane of block m is m / 2, and 8 more where m is odd.
fn number(q: &mut Rows)
    ensures { Numbered q.old q.new }
{
    let n = Planes {
        p0: 0xff00,
        p1: 0xaaaa,
        p2: 0xcccc,
        p3: 0xf0f0,
        p4: 0,
        p5: 0,
        p6: 0,
        p7: 0,
    };
    let p = bitslice::plus(aes_rows::load_row(q, 3), n);
    aes_rows::store_row(q, 3, p);
}

// The counter blocks of a nonce, from a block count on.
fn counters(q: &mut Rows, nonce: &[u8], count: u32)
    requires { (length nonce.now ≡ 12) × (count % 16 ≡ 0) }
    ensures { Counters nonce.now count q.new }
{
    let a = octets::read_be32(nonce);
    let b = octets::read_be32(&nonce[4..]);
    let c = octets::read_be32(&nonce[8..]);
    aes_keys::fill(q, a, b, c, count);
    number(q);
}

// A row with the lanes of block 0 cleared.
fn without_first(a: Planes) -> Planes
    ensures { Cleared a result }
{
    Planes {
        p0: a.p0 & 0xfffe_fffe_fffe_fffe,
        p1: a.p1 & 0xfffe_fffe_fffe_fffe,
        p2: a.p2 & 0xfffe_fffe_fffe_fffe,
        p3: a.p3 & 0xfffe_fffe_fffe_fffe,
        p4: a.p4 & 0xfffe_fffe_fffe_fffe,
        p5: a.p5 & 0xfffe_fffe_fffe_fffe,
        p6: a.p6 & 0xfffe_fffe_fffe_fffe,
        p7: a.p7 & 0xfffe_fffe_fffe_fffe,
    }
}

// Makes block 0 the block of zeros.
fn clear_first(q: &mut Rows)
    ensures { Each Clearing 4 q.old q.new }
{
    aes_rows::each_row(q, |_r: usize, a: Planes| without_first(a));
}

// The encryption of sixteen states (FIPS 197 §5.1).
fn encrypt(ctx: &Context, q: &mut Rows)
    requires { Ready ctx.now }
    ensures { Encrypted (key_of ctx.now) q.old q.new }
{
    let n = ctx[aes_keys::ROUNDS_AT] as usize;
    let (keys, _) = ctx.as_chunks::<PLANES>();
    aes_rows::add(q, &keys[0]);
    for r in 1..n {
        aes_rows::sub_rows(q);
        aes_rows::mix(q, &keys[r]);
    }
    aes_rows::sub_rows(q);
    aes_rows::last(q, &keys[n]);
}

// Planes into bytes, row by row.
fn transpose(q: &mut Rows)
    ensures { Each Transposing 4 q.old q.new }
{
    aes_rows::each_row(q, |_r: usize, a: Planes| bit_transpose::transpose(a));
}

// Rows of bytes into the words of blocks, two blocks at a time.
fn gather(w: &mut Rows, q: &Rows)
    ensures { Gathered 8 q.now w.new }
{
    for i in 0..8 {
        let k = 4 * i;
        let f = bit_transpose::columns(q[i], q[8 + i], q[16 + i], q[24 + i]);
        w[k] = f.a;
        w[k + 1] = f.b;
        w[k + 2] = f.c;
        w[k + 3] = f.d;
    }
}

// Writes the words of a state as bytes.
fn write(out: &mut [u8], q: &Rows)
    requires { length out.old ≡ 256 }
    ensures { out.new ≡ word_bytes 32 q.now }
{
    for i in 0..PLANES {
        let at = 8 * i;
        octets::write_be64(&mut out[at..], q[i]);
    }
}

// The bytes of sixteen states.
fn unslice(q: &mut Rows) -> Batch
    ensures { Unsliced q.old result }
{
    transpose(q);
    let mut w = [0u64; PLANES];
    gather(&mut w, q);
    let mut out = [0u8; BYTES];
    write(&mut out, &w);
    out
}

// The encrypted counter blocks of a nonce, from a block count on.
pub fn stream(ctx: &Context, nonce: &[u8], count: u32) -> Batch
    requires { (Ready ctx.now) × (length nonce.now ≡ 12) × (count % 16 ≡ 0) }
    ensures { Blocks (key_of ctx.now) (counters_of nonce.now count) result }
{
    let mut q = [0u64; PLANES];
    counters(&mut q, nonce, count);
    encrypt(ctx, &mut q);
    unslice(&mut q)
}

// The same with the encrypted block of zeros in the place of the first. The two share `encrypt` and `unslice`, each a function
// of its own: with one function over both, these two would be compiled as one, which takes 2% more instructions.
pub fn front(ctx: &Context, nonce: &[u8], count: u32) -> Batch
    requires { (Ready ctx.now) × (length nonce.now ≡ 12) × (count % 16 ≡ 0) }
    ensures { Blocks (key_of ctx.now) (front_of nonce.now count) result }
{
    let mut q = [0u64; PLANES];
    counters(&mut q, nonce, count);
    clear_first(&mut q);
    encrypt(ctx, &mut q);
    unslice(&mut q)
}
