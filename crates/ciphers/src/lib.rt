// SPDX-License-Identifier: MIT
// Encryption and decryption, one way for all five suites: RFC 9605, sections 4.4.3, 4.4.4 and 4.5.
#![tactic(auto)]

ghost use Rattle.std.specs.Prelude.{◌≡◌, ◌++◌, ◌+◌, ◌-◌, ◌≤◌, length, take, drop, IfSome};
ghost use Rattle.aes_keys.specs.Inner.Keys.{size, Context, Ready, key_of};
ghost use Rattle.gcm.specs.Counter.{ctr};
ghost use Rattle.gcm.specs.Gcm.{gcm_tag};
ghost use Rattle.gcm.specs.Inner.Limits.{max_bytes};
ghost use Rattle.gcm_batch.specs.Inner.Front.{Front};
ghost use Rattle.suites.specs.Suites.{Nk, Nn, Nt};
ghost use Rattle.suites.specs.Inner.Sizes.{max_nt};
ghost use Rattle.ciphers.specs.Inner.Fronts.{Fronted, count_of};
ghost use Rattle.suites.specs.declared.sizes.Suite.TheVariants.{Ctr80};
ghost use Rattle.aead.specs.Aead.{cipher_key, ctr_tag, tag, encrypt, decrypt, is_plain, room_after};

use hmac_tag::mac;
use suites::sizes::{Aes128CtrHmacSha256Tag80, Aes128GcmSha256, Mode, Suite};

// The bytes of the longest tag, which is that of Galois/counter mode.
const MAX_NT: usize = Aes128GcmSha256::NT;

// The bytes of the key that encrypt in counter mode: by the contract of `cipher_key_size`, the same in its three suites.
const NKA: usize = Aes128CtrHmacSha256Tag80::NKA;

// Fills ctx with the AES context of a suite's key.
pub fn context(ctx: &mut [u64], suite: Suite, key: &[u8])
    requires { (length ctx.old ≡ size) × (length key.now ≡ Nk suite) }
    ensures { Context (cipher_key suite key.now) ctx.new }
{
    let n = suite.cipher_key_size();
    aes_keys::expand(ctx, &key[0..n]);
}

// With Galois/counter mode the front of key and nonce; counter mode needs none.
fn front(suite: Suite, ctx: &aes_keys::Context, nonce: &[u8]) -> Option<gcm_batch::Front>
    requires { (Ready ctx.now) × (length nonce.now ≡ Nn) }
    ensures { Fronted suite (key_of ctx.now) nonce.now result }
{
    match suite.mode() {
        Mode::CtrHmac => None,
        Mode::Gcm => Some(gcm_batch::front(ctx, nonce)),
    }
}

// MAX_NT bytes of which the first nt are the tag of counter mode.
fn ctr_tag(
    nt: usize,
    key: &[u8],
    nonce: &[u8],
    header: &[u8],
    metadata: &[u8],
    ciphertext: &[u8],
) -> [u8; MAX_NT]
    requires key_len { (length key.now ≡ Nk Ctr80) × (length nonce.now ≡ Nn) × (nt ≤ max_nt) }
    requires header_len_bound { (length header.now ≤ max_bytes) × (length metadata.now ≤ max_bytes) × (length ciphertext.now ≤ max_bytes) }
    ensures { (take nt result ≡ ctr_tag nt key.now nonce.now (header.now ++ metadata.now) ciphertext.now) × (length result ≡ max_nt) }
{
    let whole = mac(&key[NKA..], nt, nonce, header, metadata, ciphertext);
    let mut t = [0u8; MAX_NT];
    octets::copy(&mut t, &whole[0..MAX_NT]);
    t
}

// The tag of Galois/counter mode.
fn gcm_tag(
    ctx: &aes_keys::Context,
    nonce: &[u8],
    f: &[u8],
    header: &[u8],
    metadata: &[u8],
    ciphertext: &[u8],
) -> [u8; MAX_NT]
    requires front { Front (key_of ctx.now) nonce.now f.now }
    requires header_len_bound { (length header.now ≤ max_bytes) × (length metadata.now ≤ max_bytes) × (length ciphertext.now ≤ max_bytes) }
    ensures { (result ≡ gcm_tag (key_of ctx.now) nonce.now (header.now ++ metadata.now) ciphertext.now) × (length result ≡ max_nt) }
{
    let h = gcm_batch::hash_key(ctx, nonce, f);
    let mut t = [0u8; MAX_NT];
    gcm_batch::tag(ctx, &h, nonce, f, header, metadata, ciphertext, &mut t);
    t
}

// MAX_NT bytes of which the first Nt are the suite's tag of a ciphertext.
fn tag_of(
    suite: Suite,
    ctx: &aes_keys::Context,
    key: &[u8],
    nonce: &[u8],
    f: &Option<gcm_batch::Front>,
    header: &[u8],
    metadata: &[u8],
    ciphertext: &[u8],
) -> [u8; MAX_NT]
    requires context { (Context (cipher_key suite key.now) ctx.now) × (length key.now ≡ Nk suite) × (length nonce.now ≡ Nn) }
    requires fronted { Fronted suite (key_of ctx.now) nonce.now f.now }
    requires header_len_bound { (length header.now ≤ max_bytes) × (length metadata.now ≤ max_bytes) × (length ciphertext.now ≤ max_bytes) }
    ensures { (take (Nt suite) result ≡ tag suite key.now nonce.now (header.now ++ metadata.now) ciphertext.now) × (length result ≡ max_nt) }
{
    match f {
        None => {
            let nt = suite.tag_size();
            ctr_tag(nt, key, nonce, header, metadata, ciphertext)
        }
        Some(front) => gcm_tag(ctx, nonce, front, header, metadata, ciphertext),
    }
}

// Writes the ciphertext of the input.
fn cipher(
    ctx: &aes_keys::Context,
    nonce: &[u8],
    f: &Option<gcm_batch::Front>,
    input: &[u8],
    out: &mut [u8],
)
    requires ready { (Ready ctx.now) × (length nonce.now ≡ Nn) × (length input.now ≤ max_bytes) × (length out.old ≡ length input.now) }
    requires fronted { IfSome f.now (λ x. Front (key_of ctx.now) nonce.now x) }
    ensures { out.new ≡ ctr (key_of ctx.now) nonce.now (count_of f.now) input.now }
{
    match f {
        None => gcm_batch::counter::apply(ctx, nonce, 0, input, out),
        Some(front) => gcm_batch::apply(ctx, nonce, front, input, out),
    }
}

// Writes the ciphertext of the input to the front of out.
fn apply(
    ctx: &aes_keys::Context,
    nonce: &[u8],
    f: &Option<gcm_batch::Front>,
    input: &[u8],
    out: &mut [u8],
)
    requires ready { (Ready ctx.now) × (length nonce.now ≡ Nn) × (length input.now ≤ max_bytes) × (length input.now ≤ length out.old) }
    requires fronted { IfSome f.now (λ x. Front (key_of ctx.now) nonce.now x) }
    ensures { out.new ≡ ctr (key_of ctx.now) nonce.now (count_of f.now) input.now ++ drop (length input.now) out.old }
{
    let n = input.len();
    cipher(ctx, nonce, f, input, &mut out[0..n]);
}

// Fills out with the ciphertext of the plaintext and its tag. The associated data comes in two parts.
pub fn encrypt(
    suite: Suite,
    key: &[u8],
    nonce: &[u8],
    header: &[u8],
    metadata: &[u8],
    plaintext: &[u8],
    out: &mut [u8],
)
    requires key_len { (length key.now ≡ Nk suite) × (length nonce.now ≡ Nn) }
    requires header_len_bound { (length header.now ≤ max_bytes) × (length metadata.now ≤ max_bytes) × (length plaintext.now ≤ max_bytes) }
    requires out_len { length out.old ≡ length plaintext.now + Nt suite }
    ensures { out.new ≡ encrypt suite key.now nonce.now (header.now ++ metadata.now) plaintext.now }
{
    let n = plaintext.len();
    let nt = suite.tag_size();
    let mut ctx = aes_keys::blank();
    context(&mut ctx, suite, key);
    let f = front(suite, &ctx, nonce);
    apply(&ctx, nonce, &f, plaintext, out);
    let t = tag_of(suite, &ctx, key, nonce, &f, header, metadata, &out[0..n]);
    octets::copy_at(out, n, &t[0..nt]);
}

// Whether sealed, which ends in a tag, is an encryption; then its plaintext is written to the front of out. The tag is
// compared before the first byte of out is written.
pub fn decrypt(
    suite: Suite,
    key: &[u8],
    nonce: &[u8],
    header: &[u8],
    metadata: &[u8],
    sealed: &[u8],
    out: &mut [u8],
) -> bool
    requires key_len { (length key.now ≡ Nk suite) × (length nonce.now ≡ Nn) }
    requires header_len_bound { (length header.now ≤ max_bytes) × (length metadata.now ≤ max_bytes) × (length sealed.now ≤ max_bytes) }
    requires suite_in_bounds { (Nt suite ≤ length sealed.now) × (length sealed.now - Nt suite ≤ length out.old) }
    ensures value { result ≡ is_plain (decrypt suite key.now nonce.now (header.now ++ metadata.now) sealed.now) }
    ensures out_after { out.new ≡ room_after (decrypt suite key.now nonce.now (header.now ++ metadata.now) sealed.now) out.old }
{
    let nt = suite.tag_size();
    let n = sealed.len() - nt;
    let mut ctx = aes_keys::blank();
    context(&mut ctx, suite, key);
    let f = front(suite, &ctx, nonce);
    let t = tag_of(suite, &ctx, key, nonce, &f, header, metadata, &sealed[0..n]);
    if !octets::equal(&sealed[n..], &t[0..nt]) {
        return false;
    }
    apply(&ctx, nonce, &f, &sealed[0..n], out);
    true
}
