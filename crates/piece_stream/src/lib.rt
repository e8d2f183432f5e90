// SPDX-License-Identifier: MIT
// Counter mode from any byte of the key stream on, sixteen blocks at a time.
#![tactic(auto)]

ghost use Rattle.std.specs.Prelude.{◌≡◌, ◌+◌, ◌*◌, ◌≤◌, ◌<◌, length};
ghost use Rattle.aes_keys.specs.Inner.Keys.{Ready, key_of};
ghost use Rattle.aes_batch.specs.Inner.Batch.{Blocks, front_of};
ghost use Rattle.gcm.specs.Counter.{nonce_size};
ghost use Rattle.gcm.specs.Inner.Limits.{counts};
ghost use Rattle.piece_stream.specs.CounterFrom.{ctr_from};
ghost use Rattle.piece_stream.specs.Inner.Fronts.{batch_at, in_front};

use aes::BLOCK;
use aes_batch::{BLOCKS, BYTES, Batch};
use aes_keys::Context;
use gcm_batch::counter;
use gcm_batch::counter::{next, xor_part};

// Writes input XOR the key stream that starts at the block count, from its byte number at on.
pub fn apply_from(ctx: &Context, nonce: &[u8], count: u32, at: usize, input: &[u8], out: &mut [u8])
    requires ready { Ready ctx.now }
    requires nonce_len { length nonce.now ≡ nonce_size }
    requires out_len { length out.old ≡ length input.now }
    requires input_bound { 16 * count + (at + length input.now) < counts }
    ensures { out.new ≡ ctr_from (key_of ctx.now) nonce.now count at input.now }
{
    counter::apply_from(ctx, nonce, BLOCK * count as usize + at, input, out);
}

// The batch that byte number at of that key stream lies in, with the encrypted block of zeros in the place of its first block.
pub fn front(ctx: &Context, nonce: &[u8], count: u32, at: usize) -> Batch
    requires { Ready ctx.now × (length nonce.now ≡ nonce_size) × (16 * count + at < counts) }
    ensures { Blocks (key_of ctx.now) (front_of nonce.now (batch_at count at)) result }
{
    let p = BLOCK * count as usize + at;
    aes_batch::front(ctx, nonce, (p / BYTES * BLOCKS) as u32)
}

// How many of n bytes from byte i of a batch on its front has key stream for.
fn in_front(i: usize, n: usize) -> usize
    requires { i < 256 }
    ensures { (result ≡ in_front i n) × (result ≤ n) × (i + result ≤ 256) }
{
    if i < BLOCK {
        return 0;
    }
    next(0, BYTES - i, n)
}

// As apply_from, with the front of the batch that the input starts in: what that has of the key stream is not made again.
// `gcm_batch::apply` is this from block count 2 on; it stands apart, since the wrong programs of this crate are of these lines.
pub fn apply_front(
    ctx: &Context,
    nonce: &[u8],
    f: &[u8],
    count: u32,
    at: usize,
    input: &[u8],
    out: &mut [u8],
)
    requires ready { Ready ctx.now × (length nonce.now ≡ nonce_size) }
    requires blocks { Blocks (key_of ctx.now) (front_of nonce.now (batch_at count at)) f.now }
    requires out_len { length out.old ≡ length input.now }
    requires input_bound { 16 * count + (at + length input.now) < counts }
    ensures { out.new ≡ ctr_from (key_of ctx.now) nonce.now count at input.now }
{
    let from = (BLOCK * count as usize + at) % BYTES;
    let n = in_front(from, input.len());
    xor_part(&f[from..BYTES], &input[0..n], &mut out[0..n]);
    apply_from(ctx, nonce, count, at + n, &input[n..], &mut out[n..]);
}
