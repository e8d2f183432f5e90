// SPDX-License-Identifier: MIT
// A line of calls on a frame in pieces: the running state (`state`), and what is done to it: the ciphertext of a piece, the
// running hash, the tag.
#![tactic(auto)]

pub mod state;

ghost use Rattle.std.specs.Prelude.{◌≡◌, ◌+◌, ◌≤◌, length, take};
ghost use Rattle.octets.specs.Octets.{bytes, pasted};
ghost use Rattle.aes_keys.specs.Inner.Keys.{Context, Ready, key_of};
ghost use Rattle.ghash.specs.Inner.HashKey.{HashKey};
ghost use Rattle.gcm.specs.Counter.{nonce_size};
ghost use Rattle.gcm.specs.Gcm.{hash_key, tag_size};
ghost use Rattle.answers.specs.Limits.{max_plaintext};
ghost use Rattle.suites.specs.Suites.{mode_of, Nt};
ghost use Rattle.suites.specs.declared.sizes.Mode.TheVariants.{CtrHmac, Gcm};
ghost use Rattle.aead.specs.Aead.{cipher_key};
ghost use Rattle.piece_line.specs.State.{state_size, at_taken, taken_in, key_in};
ghost use Rattle.piece_line.specs.Line.{after, cipher_piece, tag_in};

use aes_keys::Context;
use gcm::TAG;
use sha256::Sha256;
use state::{HASH, KEY, NONCE, STATE_SIZE, TAKEN, aad_of, key_end, taken_of};
use suites::Suite;
use suites::sizes::Mode;

// What the inner hash has taken before the associated data: a block of the key, three lengths, the nonce.
const BEFORE: u64 = 100;

// The bytes of a block of GHASH.
const BLOCK: u64 = 16;

// The first block count of the data in GCM.
const FIRST: u32 = 2;

// Where the key of HMAC starts and ends.
const AUTH: usize = KEY + 16;

const AUTH_END: usize = AUTH + 32;

// The AES context of the key in a state.
fn context_of(state: &[u8], suite: Suite) -> Context
    requires { state_size ≤ length state.now }
    ensures { Context (cipher_key suite (key_in suite state.now)) result }
{
    let end = key_end(suite);
    let mut ctx = aes_keys::blank();
    ciphers::context(&mut ctx, suite, &state[KEY..end]);
    ctx
}

// The context of the hash key of a key.
pub fn hash_key(ctx: &Context, nonce: &[u8]) -> ghash::HashKey
    requires { (Ready ctx.now) × (length nonce.now ≡ nonce_size) }
    ensures { HashKey (hash_key (key_of ctx.now)) result }
{
    let f = gcm_batch::front(ctx, nonce);
    gcm_batch::hash_key(ctx, nonce, &f)
}

// Writes the count of the bytes taken: n more than taken.
fn count(state: &mut [u8], taken: u64, n: usize)
    requires { (state_size ≤ length state.old) × (taken + n ≤ max_plaintext) }
    ensures { state.new ≡ pasted state.old at_taken (bytes 4 (taken + n)) }
{
    octets::write_be_at(state, TAKEN, 4, taken + n as u64);
}

// A state with HMAC takes the ciphertext c.
fn take_hmac(suite: Suite, state: &mut [u8], c: &[u8])
    requires { (state_size ≤ length state.old) × (mode_of suite ≡ CtrHmac) × (taken_in state.old + length c.now ≤ max_plaintext) }
    ensures { state.new ≡ after suite state.old c.now }
{
    let taken = taken_of(state);
    let n = BEFORE + aad_of(state) + taken;
    piece_hash::feed(&mut state[HASH..STATE_SIZE], n, c);
    count(state, taken, c.len());
}

// The same with GCM and its hash key: another hash, with another state, so that the two are no one function.
fn take_gcm(suite: Suite, h: &ghash::HashKey, state: &mut [u8], c: &[u8])
    requires state_size_in_bounds { (state_size ≤ length state.old) × (mode_of suite ≡ Gcm) × (taken_in state.old + length c.now ≤ max_plaintext) }
    requires hash_key { HashKey (hash_key (key_in suite state.old)) h.now }
    ensures { state.new ≡ after suite state.old c.now }
{
    let taken = taken_of(state);
    let i = (taken % BLOCK) as usize;
    piece_hash::feed_blocks(h, &mut state[HASH..STATE_SIZE], i, c);
    count(state, taken, c.len());
}

// A state takes the ciphertext c.
pub fn take_in(suite: Suite, state: &mut [u8], c: &[u8])
    requires { (state_size ≤ length state.old) × (taken_in state.old + length c.now ≤ max_plaintext) }
    ensures { state.new ≡ after suite state.old c.now }
{
    match suite.mode() {
        Mode::CtrHmac => take_hmac(suite, state, c),
        Mode::Gcm => {
            let ctx = context_of(state, suite);
            let h = hash_key(&ctx, &state[NONCE..KEY]);
            take_gcm(suite, &h, state, c);
        }
    }
}

// Writes the ciphertext of a piece with HMAC, and takes it.
fn seal_hmac(suite: Suite, state: &mut [u8], piece: &[u8], out: &mut [u8])
    requires state_size_in_bounds { (state_size ≤ length state.old) × (mode_of suite ≡ CtrHmac) }
    requires piece_bound { (taken_in state.old + length piece.now ≤ max_plaintext) × (length out.old ≡ length piece.now) }
    ensures state_after { state.new ≡ after suite state.old (cipher_piece suite state.old piece.now) }
    ensures out_after { out.new ≡ cipher_piece suite state.old piece.now }
{
    let ctx = context_of(state, suite);
    let taken = taken_of(state) as usize;
    piece_stream::apply_from(&ctx, &state[NONCE..KEY], 0, taken, piece, out);
    take_hmac(suite, state, out);
}

// The same with GCM: one front has the first blocks of key stream and the block of the hash key.
fn seal_gcm(suite: Suite, state: &mut [u8], piece: &[u8], out: &mut [u8])
    requires state_size_in_bounds { (state_size ≤ length state.old) × (mode_of suite ≡ Gcm) }
    requires piece_bound { (taken_in state.old + length piece.now ≤ max_plaintext) × (length out.old ≡ length piece.now) }
    ensures state_after { state.new ≡ after suite state.old (cipher_piece suite state.old piece.now) }
    ensures out_after { out.new ≡ cipher_piece suite state.old piece.now }
{
    let ctx = context_of(state, suite);
    let taken = taken_of(state) as usize;
    let f = piece_stream::front(&ctx, &state[NONCE..KEY], FIRST, taken);
    piece_stream::apply_front(&ctx, &state[NONCE..KEY], &f, FIRST, taken, piece, out);
    let h = gcm_batch::hash_key_of(&ctx, &f);
    take_gcm(suite, &h, state, out);
}

// Writes the ciphertext of a piece, and takes it.
pub fn seal_in(suite: Suite, state: &mut [u8], piece: &[u8], out: &mut [u8])
    requires { (state_size ≤ length state.old) × (taken_in state.old + length piece.now ≤ max_plaintext) × (length out.old ≡ length piece.now) }
    ensures state_after { state.new ≡ after suite state.old (cipher_piece suite state.old piece.now) }
    ensures out_after { out.new ≡ cipher_piece suite state.old piece.now }
{
    match suite.mode() {
        Mode::CtrHmac => seal_hmac(suite, state, piece, out),
        Mode::Gcm => seal_gcm(suite, state, piece, out),
    }
}

// Of which the first Nt bytes are the tag of a suite with HMAC.
fn hmac_tag(suite: Suite, state: &[u8]) -> [u8; TAG]
    requires { (state_size ≤ length state.now) × (taken_in state.now ≤ max_plaintext) × (mode_of suite ≡ CtrHmac) }
    ensures { (take (Nt suite) result ≡ tag_in suite state.now) × (length result ≡ tag_size) }
{
    let n = BEFORE + aad_of(state) + taken_of(state);
    let inner = piece_hash::finish(&state[HASH..STATE_SIZE], n);
    let block = hmac::block_key::<Sha256, _, _>(&state[AUTH..AUTH_END]);
    let outer = hmac::masked_block::<64>(&block, hmac::OPAD);
    let whole = running_hash::digest::<Sha256, _, _>(&outer, &inner);
    let mut t = [0u8; TAG];
    octets::copy(&mut t, &whole[0..TAG]);
    t
}

// The tag of a suite with GCM.
fn gcm_tag(suite: Suite, ctx: &Context, state: &[u8]) -> [u8; TAG]
    requires state_size_in_bounds { (state_size ≤ length state.now) × (taken_in state.now ≤ max_plaintext) × (mode_of suite ≡ Gcm) }
    requires context { Context (cipher_key suite (key_in suite state.now)) ctx.now }
    ensures { (result ≡ tag_in suite state.now) × (length result ≡ tag_size) }
{
    let taken = taken_of(state);
    let f = gcm_batch::front(ctx, &state[NONCE..KEY]);
    let h = gcm_batch::hash_key(ctx, &state[NONCE..KEY], &f);
    let y = piece_hash::finish_blocks(&h, &state[HASH..STATE_SIZE], (taken % BLOCK) as usize);
    let lengths = ghash::Block {
        hi: aad_of(state) * 8,
        lo: taken * 8,
    };
    let z = ghash::times(&h, ghash::plus(y, lengths));
    let mut t = [0u8; TAG];
    ghash::store(&mut t, z);
    octets::xor(&mut t, &f[TAG..2 * TAG]);
    t
}

// TAG bytes of which the first Nt are the tag.
pub fn tag_of(suite: Suite, state: &[u8]) -> [u8; TAG]
    requires { (state_size ≤ length state.now) × (taken_in state.now ≤ max_plaintext) }
    ensures { (take (Nt suite) result ≡ tag_in suite state.now) × (length result ≡ tag_size) }
{
    match suite.mode() {
        Mode::CtrHmac => hmac_tag(suite, state),
        Mode::Gcm => {
            let end = key_end(suite);
            let mut ctx = aes_keys::blank();
            ciphers::context(&mut ctx, suite, &state[KEY..end]);
            gcm_tag(suite, &ctx, state)
        }
    }
}
