// SPDX-License-Identifier: MIT
// The key of AES in bit planes (FIPS 197 §5.2): the key schedule by the circuit of the S-box, with no look-up, and each
// round key in the form in which a round of sixteen blocks takes it.
#![tactic(auto)]

ghost use Rattle.std.specs.Prelude.{◌≡◌, ◌+◌, ◌*◌, ◌/◌, ◌%◌, ◌^◌, ◌≤◌, ◌<◌, length};
ghost use Rattle.aes.specs.Aes.{KeySize};
ghost use Rattle.aes_keys.specs.Inner.Keys.{size, packed, Filled, Context};

use aes_rows::PLANES;
use bitslice::Planes;

mod schedule;

// The round keys of the longest key.
const ROUND_KEYS: usize = 15;

// Where the number of rounds stands in a context: behind the longest key's planes.
pub const ROUNDS_AT: usize = PLANES * ROUND_KEYS;

// The numbers of a context.
const CONTEXT_SIZE: usize = ROUNDS_AT + 1;

// The context of a key: its round keys in planes, and the number of rounds.
pub type Context = [u64; CONTEXT_SIZE];

// A context to be filled.
pub fn blank() -> Context
    ensures { length result ≡ size }
{
    [0u64; CONTEXT_SIZE]
}

// The bytes of four words that are moved down by s bits, each twice, those of the first word highest.
fn pack(w0: u32, w1: u32, w2: u32, w3: u32, s: u32) -> u64
    requires { s < 32 }
    ensures { result ≡ packed (w0 / 2 ^ s % 256) (w1 / 2 ^ s % 256) (w2 / 2 ^ s % 256) (w3 / 2 ^ s % 256) }
{
    let a = ((w0 >> s) % 256) as u64;
    let b = ((w1 >> s) % 256) as u64;
    let c = ((w2 >> s) % 256) as u64;
    let d = ((w3 >> s) % 256) as u64;
    (((a * 0x1_0000 + b) * 0x1_0000 + c) * 0x1_0000 + d) * 0x101
}

// Fills q with sixteen blocks that have these four columns.
pub fn fill(q: &mut [u64], w0: u32, w1: u32, w2: u32, w3: u32)
    requires { length q.old ≡ 32 }
    ensures { Filled w0 w1 w2 w3 q.new }
{
    aes_rows::each_row(q, |r: usize, _a: Planes| {
        bitslice::spread(pack(w0, w1, w2, w3, (24 - 8 * r) as u32))
    });
}

// Fills ctx with the context of a key.
pub fn expand(ctx: &mut [u64], key: &[u8])
    requires { (length ctx.old ≡ size) × KeySize (length key.now) }
    ensures { Context key.now ctx.new }
{
    let w = aes::schedule::words(&schedule::Circuit, key);
    let n = key.len() / 4 + 6;
    for r in 0..n + 1 {
        let at = PLANES * r;
        let end = at + PLANES;
        fill(
            &mut ctx[at..end],
            w[4 * r],
            w[4 * r + 1],
            w[4 * r + 2],
            w[4 * r + 3],
        );
    }
    ctx[ROUNDS_AT] = n as u64;
}
