// SPDX-License-Identifier: MIT
// The running state: where its fields stand, and which states are possible.
ghost use Rattle.std.specs.Prelude.{◌≡◌, ◌+◌, ◌≤◌, ◌<◌, ◌^◌, length};
ghost use Rattle.suites.specs.Suites.{Nk};
ghost use Rattle.piece_line.specs.State.{at_key, state_size, aad_in, announced_in, taken_in, counts_fit, line_of};

use answers::{MAX_METADATA, MAX_PLAINTEXT};
use header::MAX_HEADER;
use suites::Suite;

// The bytes of a state.
pub const STATE_SIZE: usize = 168;

// The kinds of line: bytes of the state and no enum, since `line_of`, and the beginnings above it, answer for any byte.
pub const SEALING: u8 = 1;

pub const CHECKING: u8 = 2;

// Where each field starts. The kind of line stands at 0.
pub const SUITE: usize = 1;

pub const AAD: usize = 2;

pub const ANNOUNCED: usize = 4;

pub const NONCE: usize = 8;

pub const KEY: usize = 20;

pub const TAKEN: usize = 68;

pub const HASH: usize = 72;

// The most bytes of associated data.
const MAX_AAD: u64 = (MAX_HEADER + MAX_METADATA) as u64;

fn wide(x: u8) -> u64
    ensures { result ≡ x }
{
    x as u64
}

// The bytes of associated data.
pub fn aad_of(state: &[u8]) -> u64
    requires { state_size ≤ length state.now }
    ensures { (result ≡ aad_in state.now) × (result < 2 ^ 16) }
{
    octets::read_be(&state[AAD..], 2)
}

// The bytes announced.
pub fn announced_of(state: &[u8]) -> u64
    requires { state_size ≤ length state.now }
    ensures { (result ≡ announced_in state.now) × (result < 2 ^ 32) }
{
    octets::read_be(&state[ANNOUNCED..], 4)
}

// The bytes taken so far.
pub fn taken_of(state: &[u8]) -> u64
    requires { state_size ≤ length state.now }
    ensures { (result ≡ taken_in state.now) × (result < 2 ^ 32) }
{
    octets::read_be(&state[TAKEN..], 4)
}

// Where the key of a suite ends.
pub fn key_end(suite: Suite) -> usize
    ensures { (result ≡ at_key + Nk suite) × (result ≤ 68) }
{
    KEY + suite.key_size()
}

// Whether the counts of a state are possible.
fn counts_fit(state: &[u8]) -> bool
    requires { state_size ≤ length state.now }
    ensures { result ≡ counts_fit state.now }
{
    let aad = aad_of(state);
    let announced = announced_of(state);
    if aad < 1 {
        return false;
    }
    if MAX_AAD < aad {
        return false;
    }
    if (MAX_PLAINTEXT as u64) < announced {
        return false;
    }
    taken_of(state) <= announced
}

// The suite of a line of a kind, where the state is possible.
pub fn line_of(state: &[u8], kind: u8) -> Option<Suite>
    ensures { result ≡ line_of kind state.now }
{
    if state.len() < STATE_SIZE {
        return None;
    }
    if state[0] != kind {
        return None;
    }
    if !counts_fit(state) {
        return None;
    }
    suites::sizes::find(wide(state[SUITE]))
}
