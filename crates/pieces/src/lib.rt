// SPDX-License-Identifier: MIT
// A frame in pieces, without a store: the state that a line begins with, and the calls on it. The causes are tried in the order
// 16, 12 where sealing, and 16, 11, 13 where checking.
#![tactic(auto)]

mod beginning;

ghost use Rattle.std.specs.Prelude.{◌≡◌, ◌+◌, ◌≤◌, length};
ghost use Rattle.octets.specs.Octets.{pasted, same};
ghost use Rattle.answers.specs.Refusals.{number_of, written_of};
ghost use Rattle.answers.specs.Limits.{max_plaintext};
ghost use Rattle.piece_line.specs.State.{state_size, announced_in, taken_in};
ghost use Rattle.suites.specs.Suites.{Nt};
ghost use Rattle.piece_line.specs.Line.{after, cipher_piece, tag_in};
ghost use Rattle.pieces.specs.Calls.{past, early, seal_piece, seal_end, check_piece, check_end};

use answers::Refusal;
pub use beginning::begin;
pub use piece_line::state::{CHECKING, SEALING, STATE_SIZE};
use piece_line::state::{announced_of, line_of, taken_of};
use piece_line::{seal_in, tag_of, take_in};
use suites::Suite;

// Whether a piece of n bytes goes past what was announced.
fn is_past(state: &[u8], n: usize) -> bool
    requires { (state_size ≤ length state.now) × (taken_in state.now ≤ announced_in state.now) }
    ensures { result ≡ past state.now n }
{
    announced_of(state) - taken_of(state) < n as u64
}

// Whether an end comes before all of what was announced was taken.
fn is_early(state: &[u8]) -> bool
    requires { state_size ≤ length state.now }
    ensures { result ≡ early state.now }
{
    taken_of(state) != announced_of(state)
}

// Writes the ciphertext of a piece to the front of the room, and takes it.
fn encrypt_piece(suite: Suite, state: &mut [u8], piece: &[u8], room: &mut [u8])
    requires { (state_size ≤ length state.old) × (taken_in state.old + length piece.now ≤ max_plaintext) × (length piece.now ≤ length room.old) }
    ensures state_after { state.new ≡ after suite state.old (cipher_piece suite state.old piece.now) }
    ensures room_after { room.new ≡ pasted room.old 0 (cipher_piece suite state.old piece.now) }
{
    let n = piece.len();
    seal_in(suite, state, piece, &mut room[0..n]);
}

// Seals a piece: its ciphertext stands at the front of the room.
pub fn seal_piece(state: &mut [u8], piece: &[u8], room: &mut [u8]) -> Result<usize, Refusal>
    ensures number_value { (number_of result ≡ (seal_piece state.old piece.now room.old).number) × (written_of result ≡ (seal_piece state.old piece.now room.old).written) }
    ensures state_after { state.new ≡ (seal_piece state.old piece.now room.old).state }
    ensures room_after { room.new ≡ (seal_piece state.old piece.now room.old).room }
{
    let suite = line_of(state, SEALING).ok_or(Refusal::StateMismatch)?;
    if is_past(state, piece.len()) {
        return Err(Refusal::StateMismatch);
    }
    if room.len() < piece.len() {
        return Err(Refusal::RoomShort);
    }
    encrypt_piece(suite, state, piece, room);
    Ok(piece.len())
}

// Ends a sealing: the tag stands at the front of the room. It may be called again.
pub fn seal_end(state: &[u8], room: &mut [u8]) -> Result<usize, Refusal>
    ensures number_value { (number_of result ≡ (seal_end state.now room.old).number) × (written_of result ≡ (seal_end state.now room.old).written) }
    ensures room_after { room.new ≡ (seal_end state.now room.old).room }
{
    let suite = line_of(state, SEALING).ok_or(Refusal::StateMismatch)?;
    if is_early(state) {
        return Err(Refusal::StateMismatch);
    }
    let nt = suite.tag_size();
    if room.len() < nt {
        return Err(Refusal::RoomShort);
    }
    let t = tag_of(suite, state);
    octets::copy_at(room, 0, &t[0..nt]);
    Ok(nt)
}

// Checks a piece of ciphertext.
pub fn check_piece(state: &mut [u8], piece: &[u8]) -> Result<(), Refusal>
    ensures value { number_of result ≡ (check_piece state.old piece.now).number }
    ensures state_after { state.new ≡ (check_piece state.old piece.now).state }
{
    let suite = line_of(state, CHECKING).ok_or(Refusal::StateMismatch)?;
    if is_past(state, piece.len()) {
        return Err(Refusal::StateMismatch);
    }
    take_in(suite, state, piece);
    Ok(())
}

// Whether a tag of the suite's length is that of what was taken: every byte of it is compared.
fn is_tag(suite: Suite, state: &[u8], tag: &[u8]) -> bool
    requires { (state_size ≤ length state.now) × (taken_in state.now ≤ max_plaintext) × (length tag.now ≡ Nt suite) }
    ensures { result ≡ same tag.now (tag_in suite state.now) }
{
    let n = tag.len();
    let t = tag_of(suite, state);
    octets::equal(&tag[0..n], &t[0..n])
}

// Ends a check: whether that is the tag of what was taken.
pub fn check_end(state: &[u8], tag: &[u8]) -> Result<(), Refusal>
    ensures { number_of result ≡ check_end state.now tag.now }
{
    let suite = line_of(state, CHECKING).ok_or(Refusal::StateMismatch)?;
    if is_early(state) {
        return Err(Refusal::StateMismatch);
    }
    let nt = suite.tag_size();
    if tag.len() != nt {
        return Err(Refusal::FrameShort);
    }
    if !is_tag(suite, state, tag) {
        return Err(Refusal::TagDiffers);
    }
    Ok(())
}
