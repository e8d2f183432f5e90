// SPDX-License-Identifier: MIT
// One record of the key store: 96 bytes, and what they are as a record. Nobody outside this crate knows where a field stands.
#![tactic(auto)]

pub mod judging;
pub mod row;

pub const RECORD_SIZE: usize = 96;

// Where the fields of a record stand.
const MARK: usize = 0;

const SUITE: usize = 1;

const SPENT: usize = 2;

const VERSION: usize = 3;

const KID: usize = 4;

const COUNTER: usize = 12;

const SALT: usize = 20;

const KEY: usize = 32;

const HIGHEST: usize = 80;

const MASK: usize = 88;

// The mark of a record: the byte in the store that tells its kind, by the layout (specs/Layout.antt).
const EMPTY: u8 = 0;

const SENDING: u8 = 1;

const RECEIVING: u8 = 2;

const RETIRED: u8 = 3;

// The version of this layout, in every record that is not empty.
const LAYOUT_VERSION: u8 = 1;

// The last counter.
const LAST: u64 = 0xffff_ffff_ffff_ffff;

// What a key is added for.
#[derive(Clone, Copy, PartialEq, Eq)]
pub enum Role {
    Sending,
    Receiving,
}

// What a record is.
#[derive(Clone, Copy, PartialEq, Eq)]
pub enum Kind {
    Empty,
    Sender,
    Receiver,
    Retired,
}
