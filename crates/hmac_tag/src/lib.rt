// SPDX-License-Identifier: MIT
// The tag of the suites of counter mode: RFC 9605, section 4.5.1.
#![tactic(auto)]

ghost use Rattle.std.specs.Prelude.{◌≡◌, ◌++◌, ◌*◌, ◌≤◌, length};
ghost use Rattle.octets.specs.Octets.{bytes};
ghost use Rattle.sha2_common.specs.Sizes.{sha256};
ghost use Rattle.hmac.specs.Hmac.{hmac};
ghost use Rattle.hmac.specs.Hkdf.{hash_len};
ghost use Rattle.gcm.specs.Counter.{nonce_size};
ghost use Rattle.gcm.specs.Inner.Limits.{max_bytes};
ghost use Rattle.hmac_tag.specs.TagInput.{length_size, tag_input};

use hmac::HmacSha256;

// The bytes of one length, and of three.
const LENGTH_SIZE: usize = 8;

const LENGTHS_SIZE: usize = 3 * LENGTH_SIZE;

// The bytes of a digest of SHA-256, which are also those of the key that authenticates.
const NH: usize = 32;

// Three lengths, each in 8 bytes.
pub fn lengths(aad: u64, ciphertext: u64, tag: u64) -> [u8; LENGTHS_SIZE]
    ensures { (result ≡ bytes length_size aad ++ (bytes length_size ciphertext ++ bytes length_size tag)) × (length result ≡ 3 * length_size) }
{
    let mut l = [0u8; LENGTHS_SIZE];
    octets::write_be_at(&mut l, 0, LENGTH_SIZE, aad);
    octets::write_be_at(&mut l, LENGTH_SIZE, LENGTH_SIZE, ciphertext);
    octets::write_be_at(&mut l, 2 * LENGTH_SIZE, LENGTH_SIZE, tag);
    l
}

// The HMAC under a key of which the first nt bytes are the tag. The associated data comes in two parts.
pub fn mac(
    key: &[u8],
    nt: usize,
    nonce: &[u8],
    header: &[u8],
    metadata: &[u8],
    ciphertext: &[u8],
) -> [u8; NH]
    requires key_len { (length key.now ≡ hash_len sha256) × (length nonce.now ≡ nonce_size) }
    requires header_len_bound { (length header.now ≤ max_bytes) × (length metadata.now ≤ max_bytes) × (length ciphertext.now ≤ max_bytes) }
    ensures { (result ≡ hmac sha256 key.now (tag_input nt nonce.now (header.now ++ metadata.now) ciphertext.now)) × (length result ≡ hash_len sha256) }
{
    let aad = header.len() + metadata.len();
    let l = lengths(aad as u64, ciphertext.len() as u64, nt as u64);
    let front = HmacSha256::new(key).feed(&l).feed(nonce);
    front.feed(header).feed(metadata).feed(ciphertext).finish()
}
