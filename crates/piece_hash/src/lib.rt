// SPDX-License-Identifier: MIT
// Running hashes in 96 lent bytes: SHA-256, and GHASH over whole blocks. The first 32 hold the value, the others the bytes that
// wait for the rest of their block.
#![tactic(auto)]

ghost use Rattle.std.specs.Prelude.{◌≡◌, ◌++◌, ◌+◌, ◌≤◌, ◌<◌, ◌^◌, length, take};
ghost use Rattle.aes.specs.Aes.{block_size};
ghost use Rattle.sha2_common.specs.Sha2.{words};
ghost use Rattle.sha2_common.specs.Sizes.{sha256};
ghost use Rattle.sha2_common.specs.Limits.{maximum};
ghost use Rattle.sha2_common.specs.Running.{room_of};
ghost use Rattle.sha256.specs.Inner.State.{words256, state256};
ghost use Rattle.ghash.specs.Inner.HashKey.{value_of, HashKey, hash_key_of};
ghost use Rattle.piece_hash.specs.Held.{value_size, room_size, held_size, room_in, held, kept, fed_hash, digest_of, kept_block, absorb_whole, left_over, fed_blocks, blocks_of};

use ghash::{Block, HashKey};
use octets::{copy_at, read_be32};
use sha2_common::{Value, room};
use sha256::{Sha256, Word256, Words256};

// The bytes of a value, of the room, and of both.
const VALUE: usize = 32;

const ROOM: usize = 64;

pub const HELD: usize = VALUE + ROOM;

// The bytes of a block of GHASH.
const BLOCK: usize = 16;

// Writes a value and a room.
fn put(b: &mut [u8], value: &[u8], waiting: &[u8])
    requires { (length b.old ≡ held_size) × (length value.now ≡ value_size) × (length waiting.now ≡ room_size) }
    ensures { b.new ≡ value.now ++ waiting.now }
{
    copy_at(b, 0, value);
    copy_at(b, VALUE, waiting);
}

// ---- SHA-256

// The eight words at the front of b.
fn words(b: &[u8]) -> Words256
    requires { value_size ≤ length b.now }
    ensures { words256 result ≡ words sha256 8 b.now }
{
    Words256 {
        a: Word256(read_be32(b)),
        b: Word256(read_be32(&b[4..])),
        c: Word256(read_be32(&b[8..])),
        d: Word256(read_be32(&b[12..])),
        e: Word256(read_be32(&b[16..])),
        f: Word256(read_be32(&b[20..])),
        g: Word256(read_be32(&b[24..])),
        h: Word256(read_be32(&b[28..])),
    }
}

// The running hash that b holds, which has been fed n bytes.
fn load(b: &[u8], n: u64) -> Sha256
    requires { length b.now ≡ held_size }
    ensures { state256 result ≡ held n b.now }
{
    let value = words(b);
    let waiting = room(&b[VALUE..], b"");
    Sha256 {
        value,
        waiting,
        len: n,
    }
}

// Writes the bytes that hold a running hash.
pub fn save(h: Sha256, b: &mut [u8])
    requires { length b.old ≡ held_size }
    ensures { b.new ≡ kept (state256 h) }
{
    let value = h.value.digest();
    let waiting = h.waiting;
    put(b, &value, &waiting);
}

// The running hash that b holds, which has been fed n bytes, is fed c.
pub fn feed(b: &mut [u8], n: u64, c: &[u8])
    requires { (length b.old ≡ held_size) × (n + length c.now ≤ maximum) }
    ensures { b.new ≡ fed_hash n b.old c.now }
{
    let h = load(b, n).feed(c);
    save(h, b);
}

// The digest that the running hash in b gives, which has been fed n bytes.
pub fn finish(b: &[u8], n: u64) -> [u8; VALUE]
    requires { (length b.now ≡ held_size) × (n ≤ maximum) }
    ensures { (result ≡ digest_of n b.now) × (length result ≡ value_size) }
{
    load(b, n).finish()
}

// ---- GHASH

// Writes the bytes that hold a value of GHASH and what waits.
pub fn save_block(y: Block, waiting: &[u8], b: &mut [u8])
    requires { (length b.old ≡ held_size) × (length waiting.now ≤ room_size) }
    ensures { b.new ≡ kept_block (value_of y) waiting.now }
{
    let mut value = [0u8; VALUE];
    ghash::store(&mut value, y);
    let w = room::<ROOM>(waiting, b"");
    put(b, &value, &w);
}

// The block of front and the bytes of back that fill it.
fn joined(front: &[u8], back: &[u8]) -> [u8; BLOCK]
    requires { length front.now + length back.now ≡ block_size }
    ensures { (result ≡ front.now ++ back.now) × (length result ≡ block_size) }
{
    let n = front.len();
    let mut block = [0u8; BLOCK];
    copy_at(&mut block, 0, front);
    copy_at(&mut block, n, back);
    block
}

// GHASH from y on, over the whole blocks of front, which is less than a block, and c.
fn absorb(t: &HashKey, y: Block, front: &[u8], c: &[u8]) -> Block
    requires hash_key { HashKey (hash_key_of t.now) t.now }
    requires front_len_bound { (length front.now < block_size) × (length c.now < 2 ^ 31) }
    ensures { value_of result ≡ absorb_whole (hash_key_of t.now) (value_of y) (front.now ++ c.now) }
{
    let have = front.len();
    if have + c.len() < BLOCK {
        return y;
    }
    let from = BLOCK - have;
    let first = joined(front, &c[..from]);
    let end = from + (c.len() - from) / BLOCK * BLOCK;
    let z = ghash::absorb(t, y, &first, b"");
    ghash::absorb(t, z, &c[from..end], b"")
}

// Writes what is left of the bytes that wait and c after their whole blocks, behind the value y.
fn save_rest(y: Block, n: usize, c: &[u8], b: &mut [u8])
    requires { (length b.old ≡ held_size) × (n < block_size) × (length c.now < 2 ^ 31) }
    ensures { b.new ≡ kept_block (value_of y) (left_over (take n (room_in b.old) ++ c.now)) }
{
    let at = VALUE + n;
    if n + c.len() < BLOCK {
        let w = room::<ROOM>(&b[VALUE..at], c);
        let end = n + c.len();
        save_block(y, &w[..end], b);
        return;
    }
    let from = c.len() - (n + c.len()) % BLOCK;
    save_block(y, &c[from..], b);
}

// GHASH held in b, where n bytes wait, absorbs c.
pub fn feed_blocks(t: &HashKey, b: &mut [u8], n: usize, c: &[u8])
    requires hash_key { HashKey (hash_key_of t.now) t.now }
    requires b_len { (length b.old ≡ held_size) × (n < block_size) × (length c.now < 2 ^ 31) }
    ensures { b.new ≡ fed_blocks (hash_key_of t.now) n b.old c.now }
{
    let at = VALUE + n;
    let y = absorb(t, ghash::load(b), &b[VALUE..at], c);
    save_rest(y, n, c, b);
}

// The value of GHASH held in b once the n bytes that wait have been absorbed too.
pub fn finish_blocks(t: &HashKey, b: &[u8], n: usize) -> Block
    requires hash_key { HashKey (hash_key_of t.now) t.now }
    requires b_len { (length b.now ≡ held_size) × (n < block_size) }
    ensures { value_of result ≡ blocks_of (hash_key_of t.now) n b.now }
{
    let at = VALUE + n;
    ghash::absorb(t, ghash::load(b), &b[VALUE..at], b"")
}
