// SPDX-License-Identifier: MIT
// AES encryption (FIPS 197) of one block, for keys of 16 and of 32 bytes, by a table of the rounds. The calls use the batches of
// `aes_batch`, which look nothing up; this is for whoever wants one block, the programs of vectors among them.
//
// A key is made into a context once, by `expand`; `encrypt` and `encrypt_block` work from it. What the array of a
// context holds is known to this crate alone.
#![tactic(auto)]

ghost use Rattle.std.specs.Prelude.{◌≡◌, ◌++◌, ◌+◌, ◌*◌, ◌≤◌, ◌<◌, length, get_or, set, drop};
ghost use Rattle.std.specs.Int.Bits.{bit_xor};
ghost use Rattle.octets.specs.Octets.{bytes, pasted};
ghost use Rattle.aes_tables.specs.Field.{s_box};
ghost use Rattle.aes.specs.Aes.{KeySize, byte, block_size, add_round_key, mix_columns, shift_rows, sub_bytes, rounds, encrypt_state, state_of, block_of, encrypt};
ghost use Rattle.aes.specs.Inner.Schedule.{max_rounds};
ghost use Rattle.aes_block.specs.Inner.Context.{table_at, entries, share0, share1, share2, share3, Table, Context, Ready, key_of, list_of};

use crate::table::Rounds;
use aes::schedule::WORDS;

mod schedule;
mod table;

// Where the number of rounds stands in a context: behind the longest key schedule.
const ROUNDS_AT: usize = WORDS;

// Where the table of the rounds starts, and its entries, one for each byte.
const TABLE_AT: usize = 64;

const ENTRIES: usize = 256;

// The numbers of a context.
const CONTEXT_SIZE: usize = TABLE_AT + ENTRIES;

// The context of a key: the key schedule, a word in each number, the number of rounds, and the table of the rounds.
pub type Context = [u64; CONTEXT_SIZE];

// The state: four columns, each a word whose first byte is the highest.
#[derive(Clone, Copy)]
pub struct State {
    pub c0: u32,
    pub c1: u32,
    pub c2: u32,
    pub c3: u32,
}

// Writes word i of the key schedule.
fn put_word(ctx: &mut Context, i: usize, w: u32)
    requires table { Table entries ctx.old }
    requires i_lt_table_at { i < table_at }
    ensures { (ctx.new ≡ set ctx.old i w) × Table entries ctx.new }
{
    ctx[i] = w as u64;
}

// The context of a key.
pub fn expand(key: &[u8]) -> Context
    requires { KeySize (length key.now) }
    ensures { Context key.now result }
{
    let w = aes::schedule::words(&schedule::s_box(), key);
    let mut ctx = table::start();
    for i in 0..WORDS {
        put_word(&mut ctx, i, w[i]);
    }
    ctx[ROUNDS_AT] = (key.len() / 4 + 6) as u64;
    ctx
}

// Word i of the key schedule.
fn word_at(t: Rounds, i: usize) -> u32
    requires { i < table_at }
    ensures { result ≡ get_or t.entry.ctx.now i 0 }
{
    (t.ctx[i] % 0x1_0000_0000) as u32
}

// The words of round key r.
fn round_key(t: Rounds, r: usize) -> State
    requires { r ≤ max_rounds }
    ensures { (result.c0 ≡ get_or t.entry.ctx.now (4 * r) 0) × (result.c1 ≡ get_or t.entry.ctx.now (4 * r + 1) 0) × (result.c2 ≡ get_or t.entry.ctx.now (4 * r + 2) 0) × (result.c3 ≡ get_or t.entry.ctx.now (4 * r + 3) 0) }
{
    State {
        c0: word_at(t, 4 * r),
        c1: word_at(t, 4 * r + 1),
        c2: word_at(t, 4 * r + 2),
        c3: word_at(t, 4 * r + 3),
    }
}

// AddRoundKey of round r.
fn add_round_key(t: Rounds, s: State, r: usize) -> State
    requires { r ≤ max_rounds }
    ensures { list_of result ≡ add_round_key t.entry.ctx.now r (list_of s) }
{
    let k = round_key(t, r);
    State {
        c0: s.c0 ^ k.c0,
        c1: s.c1 ^ k.c1,
        c2: s.c2 ^ k.c2,
        c3: s.c3 ^ k.c3,
    }
}

// Adds the shares of the bytes of column a, which ShiftRows takes to four columns, and moves the columns on by one: the
// column that was first is last.
fn share(t: Rounds, s: State, a: u32) -> State
    ensures { (result.c0 ≡ bit_xor s.c1 (share3 (s_box (byte 3 a)))) × (result.c1 ≡ bit_xor s.c2 (share2 (s_box (byte 2 a)))) × (result.c2 ≡ bit_xor s.c3 (share1 (s_box (byte 1 a)))) × (result.c3 ≡ bit_xor s.c0 (share0 (s_box (byte 0 a)))) }
{
    State {
        c0: s.c1 ^ table::share(t, 3, a),
        c1: s.c2 ^ table::share(t, 2, a),
        c2: s.c3 ^ table::share(t, 1, a),
        c3: s.c0 ^ table::share(t, 0, a),
    }
}

// Round r: SubBytes, ShiftRows, MixColumns and AddRoundKey. It starts from the round key, so that the sum does not wait
// for it, and takes one column after the other, so that few values are held at a time.
fn round(t: Rounds, s: State, r: usize) -> State
    requires { r ≤ max_rounds }
    ensures { list_of result ≡ add_round_key t.entry.ctx.now r (mix_columns (shift_rows (sub_bytes (list_of s)))) }
{
    let k = round_key(t, r);
    let a = share(t, k, s.c0);
    let b = share(t, a, s.c1);
    let c = share(t, b, s.c2);
    share(t, c, s.c3)
}

// The word of four bytes, each in its place.
fn join(p: u32, q: u32, r: u32, s: u32) -> u32
    requires { (p ≤ 0xff000000) × (q ≤ 0xff0000) × (r ≤ 0xff00) × (s ≤ 0xff) }
    ensures { result ≡ p + q + r + s }
{
    p + q + r + s
}

// SubBytes and ShiftRows.
fn shift(t: Rounds, s: State) -> State
    ensures { list_of result ≡ shift_rows (sub_bytes (list_of s)) }
{
    let a = table::substituted(t, s.c0);
    let b = table::substituted(t, s.c1);
    let c = table::substituted(t, s.c2);
    let d = table::substituted(t, s.c3);
    State {
        c0: join(a.c0, b.c1, c.c2, d.c3),
        c1: join(b.c0, c.c1, d.c2, a.c3),
        c2: join(c.c0, d.c1, a.c2, b.c3),
        c3: join(d.c0, a.c1, b.c2, c.c3),
    }
}

// The encryption of a state (FIPS 197 §5.1).
pub fn encrypt(ctx: &Context, s: State) -> State
    requires { Ready ctx.now }
    ensures { list_of result ≡ encrypt_state (key_of ctx.now) (list_of s) }
{
    let n = ctx[ROUNDS_AT] as usize;
    let rounds = Rounds { ctx };
    let mut t = add_round_key(rounds, s, 0);
    for r in 1..n {
        t = round(rounds, t, r);
    }
    add_round_key(rounds, shift(rounds, t), n)
}

// The state of a block of 16 bytes, and back.
pub fn load(block: &[u8]) -> State
    requires { block_size ≤ length block.now }
    ensures { list_of result ≡ state_of block.now }
{
    State {
        c0: octets::read_be32(block),
        c1: octets::read_be32(&block[4..]),
        c2: octets::read_be32(&block[8..]),
        c3: octets::read_be32(&block[12..]),
    }
}

pub fn store(out: &mut [u8], s: State)
    requires { block_size ≤ length out.old }
    ensures { out.new ≡ block_of (list_of s) ++ drop block_size out.old }
{
    put(out, 0, s.c0);
    put(out, 4, s.c1);
    put(out, 8, s.c2);
    put(out, 12, s.c3);
}

// Writes w as 4 bytes at index i.
fn put(out: &mut [u8], i: usize, w: u32)
    requires { i + 4 ≤ length out.old }
    ensures { out.new ≡ pasted out.old i (bytes 4 w) }
{
    octets::write_be32(&mut out[i..], w);
}

// Writes the encryption of the 16 bytes of block to the front of out.
pub fn encrypt_block(ctx: &Context, block: &[u8], out: &mut [u8])
    requires ready { Ready ctx.now }
    requires block_len { (length block.now ≡ block_size) × (block_size ≤ length out.old) }
    ensures { out.new ≡ encrypt (key_of ctx.now) block.now ++ drop block_size out.old }
{
    store(out, encrypt(ctx, load(block)));
}
