// SPDX-License-Identifier: MIT
// AES, counter mode, GHASH and GCM. Each function judges its input: it writes its result to the front of out, or it
// refuses the input and changes nothing.
ghost use Rattle.std.specs.Prelude.{◌≡◌, ◌++◌, ◌+◌, ◌≤◌, length, drop};
ghost use Rattle.octets.specs.Octets.{number, bytes};
ghost use Rattle.aes.specs.Aes.{KeySize, block_size, encrypt};
ghost use Rattle.aes_block.specs.Inner.Context.{Ready, key_of};
ghost use Rattle.aes_keys.specs.Inner.Keys as keys;
ghost use Rattle.gcm.specs.Counter.{nonce_size, ctr};
ghost use Rattle.ghash.specs.Ghash.{absorb};
ghost use Rattle.gcm.specs.Gcm.{tag_size, gcm_tag, gcm_encrypt};
ghost use Rattle.gcm.specs.Inner.Limits.{max_bytes};
ghost use Rattle.sframe_test.specs.Judged.{Judged, AesTakes, AesRepeatTakes, CtrTakes, GhashTakes, GcmTakes, number_of};
ghost use Rattle.sframe_test.specs.Repeated.{repeated};

use crate::Refused;
use crate::judge::{MAX_BYTES, NN, key_taken, parts_taken};

// The last block count that the longest input may start at.
const LAST_COUNT: u32 = 0xffff_0000;

// The context of a key by which batches are encrypted.
fn context(key: &[u8]) -> aes_keys::Context
    requires { KeySize (length key.now) }
    ensures { keys.Context key.now result }
{
    let mut ctx = aes_keys::blank();
    aes_keys::expand(&mut ctx, key);
    ctx
}

// AES encryption of a block of 16 bytes, under a key of 16 or 32.
pub fn sframe_test_aes(key: &[u8], block: &[u8], out: &mut [u8]) -> Result<(), Refused>
    ensures { Judged 0 (AesTakes key.now block.now out.old) (out.new ≡ encrypt key.now block.now ++ drop 16 out.old) (out.new ≡ out.old) (number_of result) }
{
    if !key_taken(key) {
        return Err(Refused::Input);
    }
    if block.len() != 16 {
        return Err(Refused::Input);
    }
    if out.len() < 16 {
        return Err(Refused::Input);
    }
    let ctx = aes_block::expand(key);
    aes_block::encrypt_block(&ctx, block, out);
    Ok(())
}

// Encrypts the block in out, 16 bytes, n times over.
fn repeat(ctx: &aes_block::Context, n: u32, out: &mut [u8])
    requires ready { Ready ctx.now }
    requires out_len { length out.old ≡ block_size }
    ensures { out.new ≡ repeated (encrypt (key_of ctx.now)) n out.old }
{
    for _ in 0..n {
        let s = aes_block::load(out);
        let t = aes_block::encrypt(ctx, s);
        aes_block::store(out, t);
    }
}

// AES encryption of a block n times over, on one context: for n large, the time of the block alone.
pub fn sframe_test_aes_repeat(
    key: &[u8],
    block: &[u8],
    n: u32,
    out: &mut [u8],
) -> Result<(), Refused>
    ensures { Judged 0 (AesRepeatTakes key.now block.now out.old) (out.new ≡ repeated (encrypt key.now) n block.now) (out.new ≡ out.old) (number_of result) }
{
    if !key_taken(key) {
        return Err(Refused::Input);
    }
    if block.len() != 16 {
        return Err(Refused::Input);
    }
    if out.len() != 16 {
        return Err(Refused::Input);
    }
    let ctx = aes_block::expand(key);
    octets::copy(out, block);
    repeat(&ctx, n, out);
    Ok(())
}

// input XOR the key stream of a nonce of 12 bytes that starts at the block count.
pub fn sframe_test_ctr(
    key: &[u8],
    nonce: &[u8],
    count: u32,
    input: &[u8],
    out: &mut [u8],
) -> Result<(), Refused>
    ensures { Judged 0 (CtrTakes key.now nonce.now count input.now out.old) (out.new ≡ ctr key.now nonce.now count input.now ++ drop (length input.now) out.old) (out.new ≡ out.old) (number_of result) }
{
    if !key_taken(key) {
        return Err(Refused::Input);
    }
    if nonce.len() != NN {
        return Err(Refused::Input);
    }
    if MAX_BYTES < input.len() {
        return Err(Refused::Input);
    }
    if LAST_COUNT < count {
        return Err(Refused::Input);
    }
    let n = input.len();
    if out.len() < n {
        return Err(Refused::Input);
    }
    let ctx = context(key);
    gcm_batch::counter::apply(&ctx, nonce, count, input, &mut out[..n]);
    Ok(())
}

// GHASH under a hash key of 16 bytes, over the data filled up with zeros to whole blocks.
pub fn sframe_test_ghash(key: &[u8], input: &[u8], out: &mut [u8]) -> Result<(), Refused>
    ensures { Judged 0 (GhashTakes key.now input.now out.old) (out.new ≡ bytes 16 (absorb (number 16 key.now) 0 input.now) ++ drop 16 out.old) (out.new ≡ out.old) (number_of result) }
{
    if key.len() != 16 {
        return Err(Refused::Input);
    }
    if MAX_BYTES < input.len() {
        return Err(Refused::Input);
    }
    if out.len() < 16 {
        return Err(Refused::Input);
    }
    let t = ghash::expand(ghash::load(key));
    let y = ghash::absorb(&t, ghash::Block { hi: 0, lo: 0 }, input, &input[..0]);
    ghash::store(out, y);
    Ok(())
}

// GCM encryption and the tag of GCM, each with a front and a hash key of its own.
fn gcm_seal(
    ctx: &aes_keys::Context,
    nonce: &[u8],
    header: &[u8],
    metadata: &[u8],
    plaintext: &[u8],
    out: &mut [u8],
)
    requires ready { (keys.Ready ctx.now) × (length nonce.now ≡ nonce_size) }
    requires header_len_bound { (length header.now ≤ max_bytes) × (length metadata.now ≤ max_bytes) × (length plaintext.now ≤ max_bytes) }
    requires out_len { length out.old ≡ length plaintext.now + tag_size }
    ensures { out.new ≡ gcm_encrypt (keys.key_of ctx.now) nonce.now (header.now ++ metadata.now) plaintext.now }
{
    let f = gcm_batch::front(ctx, nonce);
    let t = gcm_batch::hash_key(ctx, nonce, &f);
    gcm_batch::encrypt(ctx, &t, nonce, &f, header, metadata, plaintext, out);
}

fn gcm_tag(
    ctx: &aes_keys::Context,
    nonce: &[u8],
    header: &[u8],
    metadata: &[u8],
    ciphertext: &[u8],
    out: &mut [u8],
)
    requires ready { (keys.Ready ctx.now) × (length nonce.now ≡ nonce_size) }
    requires header_len_bound { (length header.now ≤ max_bytes) × (length metadata.now ≤ max_bytes) × (length ciphertext.now ≤ max_bytes) }
    requires out_len { length out.old ≡ tag_size }
    ensures { out.new ≡ gcm_tag (keys.key_of ctx.now) nonce.now (header.now ++ metadata.now) ciphertext.now }
{
    let f = gcm_batch::front(ctx, nonce);
    let t = gcm_batch::hash_key(ctx, nonce, &f);
    gcm_batch::tag(ctx, &t, nonce, &f, header, metadata, ciphertext, out);
}

// GCM encryption: the ciphertext, then the tag. The associated data are header and metadata.
pub fn sframe_test_gcm_seal(
    key: &[u8],
    nonce: &[u8],
    header: &[u8],
    metadata: &[u8],
    plaintext: &[u8],
    out: &mut [u8],
) -> Result<(), Refused>
    ensures { Judged 0 (GcmTakes (length plaintext.now + 16) key.now nonce.now header.now metadata.now plaintext.now out.old) (out.new ≡ gcm_encrypt key.now nonce.now (header.now ++ metadata.now) plaintext.now ++ drop (length plaintext.now + 16) out.old) (out.new ≡ out.old) (number_of result) }
{
    if !key_taken(key) {
        return Err(Refused::Input);
    }
    if !parts_taken(nonce, header, metadata, plaintext) {
        return Err(Refused::Input);
    }
    let n = plaintext.len() + 16;
    if out.len() < n {
        return Err(Refused::Input);
    }
    let ctx = context(key);
    gcm_seal(&ctx, nonce, header, metadata, plaintext, &mut out[..n]);
    Ok(())
}

// The tag of GCM over a ciphertext.
pub fn sframe_test_gcm_tag(
    key: &[u8],
    nonce: &[u8],
    header: &[u8],
    metadata: &[u8],
    ciphertext: &[u8],
    out: &mut [u8],
) -> Result<(), Refused>
    ensures { Judged 0 (GcmTakes 16 key.now nonce.now header.now metadata.now ciphertext.now out.old) (out.new ≡ gcm_tag key.now nonce.now (header.now ++ metadata.now) ciphertext.now ++ drop 16 out.old) (out.new ≡ out.old) (number_of result) }
{
    if !key_taken(key) {
        return Err(Refused::Input);
    }
    if !parts_taken(nonce, header, metadata, ciphertext) {
        return Err(Refused::Input);
    }
    if out.len() < 16 {
        return Err(Refused::Input);
    }
    let ctx = context(key);
    gcm_tag(&ctx, nonce, header, metadata, ciphertext, &mut out[..16]);
    Ok(())
}
