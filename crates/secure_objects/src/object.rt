// SPDX-License-Identifier: MIT
// Encryption and decryption of an object.
ghost use Rattle.std.specs.Prelude.{◌≡◌, ◌++◌, [], ◌+◌, ◌-◌, ◌<◌, ◌≤◌, length, take};
ghost use Rattle.answers.specs.Limits.{max_plaintext, max_metadata};
ghost use Rattle.suites.specs.Suites.{Nk, Nn, Nt};
ghost use Rattle.suites.specs.Derivation.{nonce};
ghost use Rattle.aead.specs.Aead.{is_plain, room_after};
ghost use Rattle.secure_objects.specs.Objects.{name_most, object_ceiling, counter, aad, secured, unsecured};
ghost use Rattle.secure_objects.specs.Inner.Sizes.{numbers_most, head_most};

use crate::varint::{MAX_VARINT, write_varint};
use crate::{MAX_NAME, Pair, TrackId};
use suites::Suite;
use suites::sizes::Aes128GcmSha256;

// The bytes of the nonce and of the salt: by the contract of `nonce_size`, the same in every suite.
const NN: usize = Aes128GcmSha256::NN;

// No head of the associated data is longer: three numbers and the name.
const MAX_HEAD: usize = 3 * MAX_VARINT + MAX_NAME;

// The nonce of an object under a salt.
fn nonce_of(salt: &[u8], pair: Pair) -> [u8; NN]
    requires { (length salt.now ≡ Nn) × (pair.object.0 < object_ceiling) }
    ensures { (result ≡ nonce salt.now (counter pair.group.0 pair.object.0)) × (length result ≡ Nn) }
{
    let mut counter = [0u8; NN];
    octets::write_be_at(&mut counter, 0, 8, pair.group.0);
    octets::write_be_at(&mut counter, 8, 4, pair.object.0);
    let mut n = [0u8; NN];
    octets::copy(&mut n, salt);
    octets::xor(&mut n, &counter);
    n
}

// Writes the head of the associated data to the front of out, all of it but the properties; its length is the result.
fn write_head(out: &mut [u8], track: TrackId, pair: Pair) -> usize
    requires { (numbers_most + length track.name.now ≤ length out.old) × (length track.name.now ≤ name_most) }
    ensures { (take result out.new ≡ aad track.entry.id.0 pair.group.0 pair.object.0 track.entry.name.now []) × (result ≤ head_most) }
{
    let a = write_varint(out, 0, track.id.0);
    let b = write_varint(out, a, pair.group.0);
    let c = write_varint(out, b, pair.object.0);
    octets::copy_at(out, c, track.name);
    c + track.name.len()
}

// Fills out with the object of a plaintext, under a track's key and salt.
pub fn secure(
    suite: Suite,
    key: &[u8],
    salt: &[u8],
    track: TrackId,
    pair: Pair,
    properties: &[u8],
    plaintext: &[u8],
    out: &mut [u8],
)
    requires key_len { (length key.now ≡ Nk suite) × (length salt.now ≡ Nn) × (length track.name.now ≤ name_most) × (pair.object.0 < object_ceiling) }
    requires properties_len_bound { (length properties.now ≤ max_metadata) × (length plaintext.now ≤ max_plaintext) × (length out.old ≡ length plaintext.now + Nt suite) }
    ensures { out.new ≡ secured suite key.now salt.now track.entry.name.now track.entry.id.0 pair.group.0 pair.object.0 properties.now plaintext.now }
{
    let nonce = nonce_of(salt, pair);
    let mut head = [0u8; MAX_HEAD];
    let n = write_head(&mut head, track, pair);
    ciphers::encrypt(suite, key, &nonce, &head[0..n], properties, plaintext, out);
}

// Whether sealed, which ends in a tag, is an object under a track's key and salt; then its plaintext is written to the front of
// out.
pub fn unsecure(
    suite: Suite,
    key: &[u8],
    salt: &[u8],
    track: TrackId,
    pair: Pair,
    properties: &[u8],
    sealed: &[u8],
    out: &mut [u8],
) -> bool
    requires key_len { (length key.now ≡ Nk suite) × (length salt.now ≡ Nn) × (length track.name.now ≤ name_most) × (pair.object.0 < object_ceiling) }
    requires properties_len_bound { (length properties.now ≤ max_metadata) × (Nt suite ≤ length sealed.now) × (length sealed.now - Nt suite ≤ max_plaintext) × (length sealed.now - Nt suite ≤ length out.old) }
    ensures value { result ≡ is_plain (unsecured suite key.now salt.now track.entry.name.now track.entry.id.0 pair.group.0 pair.object.0 properties.now sealed.now) }
    ensures out_after { out.new ≡ room_after (unsecured suite key.now salt.now track.entry.name.now track.entry.id.0 pair.group.0 pair.object.0 properties.now sealed.now) out.old }
{
    let nonce = nonce_of(salt, pair);
    let mut head = [0u8; MAX_HEAD];
    let n = write_head(&mut head, track, pair);
    ciphers::decrypt(suite, key, &nonce, &head[0..n], properties, sealed, out)
}
