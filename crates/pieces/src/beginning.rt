// SPDX-License-Identifier: MIT
// The state that a line begins with.
ghost use Rattle.std.specs.Prelude.{◌≡◌, [], ◌++◌, ◌≤◌, length};
ghost use Rattle.octets.specs.Octets.{bytes, pasted};
ghost use Rattle.header.specs.Header.{max_header};
ghost use Rattle.answers.specs.Limits.{max_plaintext, max_metadata};
ghost use Rattle.suites.specs.Suites.{Nk, Nn, Nt, mode_of};
ghost use Rattle.suites.specs.Inner.Sizes.{max_nt};
ghost use Rattle.suites.specs.declared.sizes.Mode.TheVariants.{CtrHmac, Gcm};
ghost use Rattle.suites.specs.declared.sizes.Suite.TheVariants.{Ctr80};
ghost use Rattle.piece_hash.specs.Held.{held_size};
ghost use Rattle.piece_line.specs.State.{state_size, at_key, key_space};
ghost use Rattle.piece_line.specs.Line.{front, key_field, hash_after, begun};

use octets::{copy_at, write_be_at};
use piece_line::hash_key;
use piece_line::state::{AAD, ANNOUNCED, HASH, KEY, NONCE, STATE_SIZE, SUITE, TAKEN};
use sha256::Sha256;
use suites::Suite;
use suites::sizes::Mode;

// Where the key of HMAC starts in a key.
const NKA: usize = 16;

// The bytes that a key has room in.
const KEY_SPACE: usize = 48;

// Writes the running hash of a suite with HMAC that has taken the associated data.
fn begin_hmac(
    nt: usize,
    key: &[u8],
    nonce: &[u8],
    header: &[u8],
    metadata: &[u8],
    announced: usize,
    b: &mut [u8],
)
    requires key_len { (length key.now ≡ Nk Ctr80) × (length nonce.now ≡ Nn) × (nt ≤ max_nt) × (length b.old ≡ held_size) }
    requires header_len_bound { (length header.now ≤ max_header) × (length metadata.now ≤ max_metadata) × (announced ≤ max_plaintext) }
    ensures { b.new ≡ hash_after CtrHmac nt announced key.now nonce.now (header.now ++ metadata.now) [] }
{
    let block = hmac::block_key::<Sha256, _, _>(&key[NKA..]);
    let inner = hmac::masked_block::<64>(&block, hmac::IPAD);
    let aad = header.len() + metadata.len();
    let l = hmac_tag::lengths(aad as u64, announced as u64, nt as u64);
    let front = Sha256::new().feed(&inner).feed(&l).feed(nonce);
    piece_hash::save(front.feed(header).feed(metadata), b);
}

// The same with GCM.
fn begin_gcm(suite: Suite, key: &[u8], nonce: &[u8], header: &[u8], metadata: &[u8], b: &mut [u8])
    requires key_len { (length key.now ≡ Nk suite) × (mode_of suite ≡ Gcm) × (length nonce.now ≡ Nn) × (length b.old ≡ held_size) }
    requires header_len_bound { (length header.now ≤ max_header) × (length metadata.now ≤ max_metadata) }
    ensures { b.new ≡ hash_after Gcm (Nt suite) 0 key.now nonce.now (header.now ++ metadata.now) [] }
{
    let mut ctx = aes_keys::blank();
    ciphers::context(&mut ctx, suite, key);
    let t = hash_key(&ctx, nonce);
    let y = ghash::absorb(&t, ghash::Block { hi: 0, lo: 0 }, header, metadata);
    piece_hash::save_block(y, b"", b);
}

// Writes the running hash that has taken the associated data.
fn begin_hash(
    suite: Suite,
    key: &[u8],
    nonce: &[u8],
    header: &[u8],
    metadata: &[u8],
    announced: usize,
    b: &mut [u8],
)
    requires key_len { (length key.now ≡ Nk suite) × (length nonce.now ≡ Nn) × (length b.old ≡ held_size) }
    requires header_len_bound { (length header.now ≤ max_header) × (length metadata.now ≤ max_metadata) × (announced ≤ max_plaintext) }
    ensures { b.new ≡ hash_after (mode_of suite) (Nt suite) announced key.now nonce.now (header.now ++ metadata.now) [] }
{
    match suite.mode() {
        Mode::CtrHmac => {
            let nt = suite.tag_size();
            begin_hmac(nt, key, nonce, header, metadata, announced, b);
        }
        Mode::Gcm => begin_gcm(suite, key, nonce, header, metadata, b),
    }
}

// Writes kind, suite and counts to the front of a state.
fn write_front(kind: u8, suite: Suite, aad: usize, announced: usize, state: &mut [u8])
    requires { state_size ≤ length state.old }
    ensures { state.new ≡ pasted state.old 0 (front kind suite aad announced) }
{
    write_be_at(state, 0, 1, kind as u64);
    write_be_at(state, SUITE, 1, suite.number());
    write_be_at(state, AAD, 2, aad as u64);
    write_be_at(state, ANNOUNCED, 4, announced as u64);
}

// Writes a key to its place in a state, with zeros behind it, and that nothing is taken.
fn write_key(key: &[u8], state: &mut [u8])
    requires { (state_size ≤ length state.old) × (length key.now ≤ key_space) }
    ensures { state.new ≡ pasted state.old at_key (key_field key.now ++ bytes 4 0) }
{
    let mut k = [0u8; KEY_SPACE];
    octets::copy(&mut k, key);
    copy_at(state, KEY, &k);
    write_be_at(state, TAKEN, 4, 0);
}

// Writes the state of a line that begins.
pub fn begin(
    kind: u8,
    suite: Suite,
    key: &[u8],
    nonce: &[u8],
    header: &[u8],
    metadata: &[u8],
    announced: usize,
    state: &mut [u8],
)
    requires state_size_in_bounds { (state_size ≤ length state.old) × (length key.now ≡ Nk suite) × (length nonce.now ≡ Nn) }
    requires header_len_bound { (length header.now ≤ max_header) × (length metadata.now ≤ max_metadata) × (announced ≤ max_plaintext) }
    ensures { state.new ≡ pasted state.old 0 (begun kind suite announced nonce.now key.now (header.now ++ metadata.now)) }
{
    write_front(kind, suite, header.len() + metadata.len(), announced, state);
    copy_at(state, NONCE, nonce);
    write_key(key, state);
    begin_hash(
        suite,
        key,
        nonce,
        header,
        metadata,
        announced,
        &mut state[HASH..STATE_SIZE],
    );
}
