// SPDX-License-Identifier: MIT
// Counter mode and GCM (SP 800-38D) over AES, sixteen blocks at a time.
//
// The associated data are given in two parts and hashed one after the other. A GCM key is an AES context and the
// context of its hash key.
#![tactic(auto)]

ghost use Rattle.std.specs.Prelude.{◌≡◌, ◌++◌, ◌+◌, ◌*◌, ◌≤◌, length, take, replicate};
ghost use Rattle.aes.specs.Aes.{block_size, encrypt};
ghost use Rattle.aes_keys.specs.Inner.Keys.{Ready, key_of};
ghost use Rattle.gcm.specs.Counter.{nonce_size, ctr};
ghost use Rattle.ghash.specs.Inner.HashKey.{value_of, HashKey, hash_key_of};
ghost use Rattle.gcm.specs.Gcm.{hash_key, hash, gcm_tag, gcm_encrypt, tag_size};
ghost use Rattle.gcm.specs.Inner.Limits.{max_bytes};
ghost use Rattle.gcm_batch.specs.Inner.Front.{Front};

use aes::BLOCK;
use aes_keys::Context;
use gcm::TAG;

pub mod counter;

// The front of a key and a nonce: the blocks of the hash key, the tag's mask and the first data, encrypted in one batch.
pub type Front = aes_batch::Batch;

// Where the mask and the data stand in a front.
const MASK_AT: usize = BLOCK;

const DATA_AT: usize = 2 * BLOCK;

// The block count of the batch behind a front.
const BEHIND: u32 = 16;

// The front of a key and a nonce.
pub fn front(ctx: &Context, nonce: &[u8]) -> Front
    requires { (Ready ctx.now) × (length nonce.now ≡ nonce_size) }
    ensures { Front (key_of ctx.now) nonce.now result }
{
    aes_batch::front(ctx, nonce, 0)
}

// The context of the hash key of a key, from bytes that begin with the encrypted block of zeros.
pub fn hash_key_of(ctx: &Context, f: &[u8]) -> ghash::HashKey
    requires { take block_size f.now ≡ encrypt (key_of ctx.now) (replicate block_size 0) }
    ensures { HashKey (hash_key (key_of ctx.now)) result }
{
    ghash::expand(ghash::load(f))
}

// The same from a front.
pub fn hash_key(ctx: &Context, nonce: &[u8], f: &[u8]) -> ghash::HashKey
    requires { Front (key_of ctx.now) nonce.now f.now }
    ensures { HashKey (hash_key (key_of ctx.now)) result }
{
    hash_key_of(ctx, f)
}

// GHASH over the associated data header and metadata, the ciphertext, and the block of their lengths.
fn digest(t: &ghash::HashKey, header: &[u8], metadata: &[u8], ciphertext: &[u8]) -> ghash::Block
    requires hash_key { HashKey (hash_key_of t.now) t.now }
    requires header_len_bound { (length header.now ≤ max_bytes) × (length metadata.now ≤ max_bytes) × (length ciphertext.now ≤ max_bytes) }
    ensures { value_of result ≡ hash (hash_key_of t.now) (header.now ++ metadata.now) ciphertext.now }
{
    let aad = ghash::absorb(t, ghash::Block { hi: 0, lo: 0 }, header, metadata);
    let y = ghash::absorb(t, aad, ciphertext, &ciphertext[..0]);
    let lengths = ghash::Block {
        hi: (header.len() + metadata.len()) as u64 * 8,
        lo: ciphertext.len() as u64 * 8,
    };
    ghash::times(t, ghash::plus(y, lengths))
}

// Writes the tag.
pub fn tag(
    ctx: &Context,
    t: &ghash::HashKey,
    nonce: &[u8],
    f: &[u8],
    header: &[u8],
    metadata: &[u8],
    ciphertext: &[u8],
    out: &mut [u8],
)
    requires front { Front (key_of ctx.now) nonce.now f.now × HashKey (hash_key (key_of ctx.now)) t.now }
    requires header_len_bound { (length header.now ≤ max_bytes) × (length metadata.now ≤ max_bytes) × (length ciphertext.now ≤ max_bytes) }
    requires out_len { length out.old ≡ tag_size }
    ensures { out.new ≡ gcm_tag (key_of ctx.now) nonce.now (header.now ++ metadata.now) ciphertext.now }
{
    let y = digest(t, header, metadata, ciphertext);
    ghash::store(out, y);
    octets::xor(out, &f[MASK_AT..DATA_AT]);
}

// Writes input XOR the key stream that starts at block count 2, of which the front has the first blocks.
pub fn apply(ctx: &Context, nonce: &[u8], f: &[u8], input: &[u8], out: &mut [u8])
    requires ready { Ready ctx.now × Front (key_of ctx.now) nonce.now f.now }
    requires nonce_len { length nonce.now ≡ nonce_size }
    requires out_len { (length out.old ≡ length input.now) × (length input.now ≤ max_bytes) }
    ensures { out.new ≡ ctr (key_of ctx.now) nonce.now 2 input.now }
{
    let n = counter::next(0, aes_batch::BYTES - DATA_AT, input.len());
    counter::xor_part(&f[DATA_AT..], &input[0..n], &mut out[0..n]);
    counter::apply(ctx, nonce, BEHIND, &input[n..], &mut out[n..]);
}

// Writes the ciphertext, then the tag.
pub fn encrypt(
    ctx: &Context,
    t: &ghash::HashKey,
    nonce: &[u8],
    f: &[u8],
    header: &[u8],
    metadata: &[u8],
    plaintext: &[u8],
    out: &mut [u8],
)
    requires ready { Ready ctx.now × Front (key_of ctx.now) nonce.now f.now × HashKey (hash_key (key_of ctx.now)) t.now }
    requires nonce_len { length nonce.now ≡ nonce_size }
    requires header_len_bound { (length header.now ≤ max_bytes) × (length metadata.now ≤ max_bytes) × (length plaintext.now ≤ max_bytes) }
    requires out_len { length out.old ≡ length plaintext.now + tag_size }
    ensures { out.new ≡ gcm_encrypt (key_of ctx.now) nonce.now (header.now ++ metadata.now) plaintext.now }
{
    let n = plaintext.len();
    apply(ctx, nonce, f, plaintext, &mut out[..n]);
    let mut mac = [0u8; TAG];
    tag(ctx, t, nonce, f, header, metadata, &out[..n], &mut mac);
    octets::copy(&mut out[n..], &mac);
}
