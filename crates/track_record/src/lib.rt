// SPDX-License-Identifier: MIT
// One record of the track store, 344 bytes, and what they are as a record. Nobody outside this crate knows where a field stands;
// docs/TRACKS.md says it.
#![tactic(auto)]

pub mod judging;
pub mod row;

pub const RECORD_SIZE: usize = 344;

// Where the fields of a record stand.
const MARK: usize = 0;

const SUITE: usize = 1;

const FLAG: usize = 2;

const KEY_ID: usize = 4;

const PAIR_GROUP: usize = 12;

const PAIR_OBJECT: usize = 20;

const NAME_LENGTH: usize = 24;

const SALT: usize = 28;

const KEY: usize = 40;

const NAME: usize = 88;

// The marks of a record that is not empty.
const SENDER: u8 = 1;

const RECEIVER: u8 = 2;

const RETIRED: u8 = 3;

// What a track is added for. A type of its own, since this store does not stand on that of SFrame's keys.
#[derive(Clone, Copy, PartialEq, Eq)]
pub enum Role {
    Sending,
    Receiving,
}

// What a record that is not empty is for.
#[derive(Clone, Copy, PartialEq, Eq)]
pub enum Kind {
    Sender,
    Receiver,
    Retired,
}
