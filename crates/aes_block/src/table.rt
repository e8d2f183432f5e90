// SPDX-License-Identifier: MIT
// The table by which a round works: for each byte, what SubBytes and MixColumns make of it.
ghost use Rattle.std.specs.Prelude.{◌≡◌, ◌*◌, ◌%◌, ◌^◌, ◌≤◌, ◌<◌};
ghost use Rattle.aes_tables.specs.Field.{s_box};
ghost use Rattle.aes.specs.Aes.{byte};
ghost use Rattle.aes_round_table.specs.Inner.RoundTable.{entry_of};
ghost use Rattle.aes_block.specs.Inner.Context.{entries, Table, share_of};

use crate::{Context, State, TABLE_AT};

// The context to which a key schedule is added.
pub fn start() -> Context
    ensures { Table entries result }
{
    aes_round_table::table()
}

// A context that holds the table.
#[derive(Clone, Copy)]
pub struct Rounds<'a> {
    pub ctx: &'a Context,
    ghost table: { Table entries ctx.now },
}

// The low 32 bits.
pub fn low(x: u64) -> u32
    ensures { result ≡ x % 2 ^ 32 }
{
    (x % 0x1_0000_0000) as u32
}

// Byte i of a word.
fn byte_of(i: u32, a: u32) -> u8
    requires { i < 4 }
    ensures { result ≡ byte i a }
{
    ((a >> (24 - 8 * i)) % 256) as u8
}

// The table's entry for x.
fn entry(t: Rounds, x: u8) -> u64
    ensures { result ≡ entry_of x }
{
    t.ctx[TABLE_AT + x as usize]
}

// The share of byte i of a column in a column of the next state: an entry turned to the byte's place.
pub fn share(t: Rounds, i: u32, a: u32) -> u32
    requires { i < 4 }
    ensures { result ≡ share_of i (s_box (byte i a)) }
{
    low(entry(t, byte_of(i, a)) >> (8 * i))
}

// The S-box's entry for x, the second byte of the table's.
fn sub(t: Rounds, x: u8) -> u8
    ensures { result ≡ s_box x }
{
    (entry(t, x) / 256 % 256) as u8
}

// SubBytes of a column, each byte alone in its place.
pub fn substituted(t: Rounds, a: u32) -> State
    ensures c0_value { (result.c0 ≡ s_box (byte 0 a) * 0x1000000) × (result.c1 ≡ s_box (byte 1 a) * 0x10000) × (result.c2 ≡ s_box (byte 2 a) * 0x100) × (result.c3 ≡ s_box (byte 3 a)) }
    ensures c0_bound { (result.c0 ≤ 0xff000000) × (result.c1 ≤ 0xff0000) × (result.c2 ≤ 0xff00) × (result.c3 ≤ 0xff) }
{
    let p = sub(t, byte_of(0, a));
    let q = sub(t, byte_of(1, a));
    let r = sub(t, byte_of(2, a));
    let s = sub(t, byte_of(3, a));
    State {
        c0: p as u32 * 0x100_0000,
        c1: q as u32 * 0x1_0000,
        c2: r as u32 * 0x100,
        c3: s as u32,
    }
}
