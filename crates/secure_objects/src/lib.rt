// SPDX-License-Identifier: MIT
// Secure objects of draft-ietf-moq-secure-objects: key derivation, associated data, nonce, encryption and decryption, over the
// AEAD and the HKDF of the suites.
#![tactic(auto)]

pub mod derivation;
pub mod object;
pub mod varint;

// The Key ID of a track, and the two numbers of an object in it, which cannot be exchanged.
#[derive(Clone, Copy)]
pub struct KeyId(pub u64);

#[derive(Clone, Copy)]
pub struct GroupId(pub u64);

#[derive(Clone, Copy)]
pub struct ObjectId(pub u64);

// The group and the object of a sealing.
#[derive(Clone, Copy)]
pub struct Pair {
    pub group: GroupId,
    pub object: ObjectId,
}

// A track: its full name, and its Key ID.
#[derive(Clone, Copy)]
pub struct TrackId<'a> {
    pub name: &'a [u8],
    pub id: KeyId,
}

// The longest full track name.
pub const MAX_NAME: usize = 256;

// An Object ID is below this.
pub const OBJECT_CEILING: u64 = 0x1_0000_0000;
