// SPDX-License-Identifier: MIT
// Counter mode over AES: a key stream of encrypted counter blocks, sixteen at a time, XORed with the data.
ghost use Rattle.std.specs.Prelude.{◌≡◌, ◌+◌, ◌*◌, ◌≤◌, ◌<◌, min, length};
ghost use Rattle.octets.specs.Octets.{xors};
ghost use Rattle.aes.specs.Aes.{block_size, blocks};
ghost use Rattle.aes_keys.specs.Inner.Keys.{Ready, key_of};
ghost use Rattle.gcm.specs.Counter.{nonce_size, ctr, ctr_from};
ghost use Rattle.gcm.specs.Inner.Limits.{counts};

use aes::BLOCK;
use aes_batch::{BLOCKS, BYTES};
use aes_keys::Context;

// Writes input XOR as many bytes of the key stream s.
pub fn xor_part(s: &[u8], input: &[u8], out: &mut [u8])
    requires { (length input.now ≤ length s.now) × (length out.old ≡ length input.now) }
    ensures { out.new ≡ xors input.now s.now }
{
    octets::copy(out, input);
    octets::xor(out, s);
}

// Where the part of at most m bytes that starts at index i ends, of n bytes.
pub fn next(i: usize, m: usize, n: usize) -> usize
    requires { i ≤ n }
    ensures { result ≡ min (i + m) n }
{
    if n - i < m {
        return n;
    }
    i + m
}

// Writes input XOR the key stream that is counted from block count 0, from its byte number start on. A batch starts at a
// multiple of sixteen blocks; of the first one the bytes before the input's are left out, of the last one those behind: so the
// steps differ, and the loop is no walk over parts of one length.
pub fn apply_from(ctx: &Context, nonce: &[u8], start: usize, input: &[u8], out: &mut [u8])
    requires ready { Ready ctx.now }
    requires nonce_len { length nonce.now ≡ nonce_size }
    requires out_len { length out.old ≡ length input.now }
    requires input_bound { start + length input.now < block_size * counts }
    ensures { out.new ≡ ctr_from (key_of ctx.now) nonce.now 0 start input.now }
{
    let mut i = 0;
    while i < input.len() {
        let p = start + i;
        let s = aes_batch::stream(ctx, nonce, (p / BYTES * BLOCKS) as u32);
        let from = p % BYTES;
        let end = next(i, BYTES - from, input.len());
        xor_part(&s[from..BYTES], &input[i..end], &mut out[i..end]);
        i = end;
    }
}

// Writes input XOR the key stream that starts at the block count.
pub fn apply(ctx: &Context, nonce: &[u8], count: u32, input: &[u8], out: &mut [u8])
    requires ready { Ready ctx.now }
    requires nonce_len { length nonce.now ≡ nonce_size }
    requires out_len { length out.old ≡ length input.now }
    requires input_bound { count + blocks (length input.now) < counts }
    ensures { out.new ≡ ctr (key_of ctx.now) nonce.now count input.now }
{
    apply_from(ctx, nonce, BLOCK * count as usize, input, out);
}
