// SPDX-License-Identifier: MIT
// Beginning to seal in pieces. The causes are tried in the order 1, 6, 7, 8, 9, 12.
#![tactic(auto)]

ghost use Rattle.std.specs.Prelude.{◌≡◌, true, false, ◌++◌, length};
ghost use Rattle.octets.specs.Octets.{pasted};
ghost use Rattle.header.specs.Header.{header};
ghost use Rattle.answers.specs.Answers.{done, first};
ghost use Rattle.piece_line.specs.State.{sealing};
ghost use Rattle.key_record.specs.Layout.{decode};
ghost use Rattle.key_record.specs.Record.{is_empty, is_sending, counter_of};
ghost use Rattle.key_record.specs.Inner.Rows.{Row, counter_left};
ghost use Rattle.answers.specs.Refusals.{number_of, written_of};
ghost use Rattle.store.specs.Sframe.{sframe};
ghost use Rattle.begin_state.specs.Begin.{first_state};
ghost use Rattle.begin_seal.specs.Begin.{begin_causes, seal_begin};

use answers::{Refusal, too_long};
use header::{Kid, MAX_HEADER};
use pieces::{SEALING, STATE_SIZE};

// The length of the header of a sending record's next frame.
fn header_length(row: &[u8], kid: Kid) -> usize
    requires { (Row row.now) × (is_sending (decode row.now) ≡ true) × (counter_left (decode row.now) ≡ true) }
    ensures { result ≡ length (header kid.0 (counter_of (decode row.now))) }
{
    let mut head = [0u8; MAX_HEADER];
    judge_seal::write_next(row, kid, &mut head)
}

// Why a held record refuses to begin, by the first cause that applies.
fn judge(
    row: &[u8],
    kid: Kid,
    metadata: usize,
    announced: usize,
    room: usize,
    state: usize,
) -> Result<(), Refusal>
    requires { (Row row.now) × (is_empty (decode row.now) ≡ false) }
    ensures { number_of result ≡ first (begin_causes true (decode row.now) kid.0 metadata announced room state) }
{
    if !key_record::row::is_sending(row) {
        return Err(Refusal::RoleRefused);
    }
    if !key_record::row::counter_left(row) {
        return Err(Refusal::CounterSpent);
    }
    if too_long(announced, metadata) {
        return Err(Refusal::InputTooLong);
    }
    if room < header_length(row, kid) {
        return Err(Refusal::RoomShort);
    }
    if state < STATE_SIZE {
        return Err(Refusal::RoomShort);
    }
    Ok(())
}

// Writes header and running state of a record's next sealing, where nothing is against it.
fn write_line(
    row: &[u8],
    kid: Kid,
    metadata: &[u8],
    announced: usize,
    state: &mut [u8],
    room: &mut [u8],
) -> usize
    requires row { Row row.now }
    requires state_value { first (begin_causes true (decode row.now) kid.0 (length metadata.now) announced (length room.old) (length state.old)) ≡ done }
    ensures value { result ≡ length (header kid.0 (counter_of (decode row.now))) }
    ensures room_after { room.new ≡ pasted room.old 0 (header kid.0 (counter_of (decode row.now))) }
    ensures state_after { state.new ≡ pasted state.old 0 (first_state sframe sealing (decode row.now) (counter_of (decode row.now)) announced (header kid.0 (counter_of (decode row.now)) ++ metadata.now)) }
{
    let mut head = [0u8; MAX_HEADER];
    let n = judge_seal::write_next(row, kid, &mut head);
    let ctr = key_record::row::next_of(row);
    begin_state::write_first(row, SEALING, ctr, &head[0..n], metadata, announced, state);
    octets::copy(room, &head[0..n]);
    n
}

// Begins to seal a plaintext of the announced length with the key of a KID: the header stands at the front of the room, and the running
// state at the front of its own bytes. The counter is counted up once everything has been checked. Any number may be given for the place
// where the record is believed to stand.
pub fn seal_begin(
    store: &mut [u8],
    kid: Kid,
    place: usize,
    metadata: &[u8],
    announced: usize,
    state: &mut [u8],
    room: &mut [u8],
) -> Result<usize, Refusal>
    ensures number_value { (number_of result ≡ (seal_begin sframe store.old kid.0 metadata.now announced state.old room.old).number) × (written_of result ≡ (seal_begin sframe store.old kid.0 metadata.now announced state.old room.old).written) }
    ensures store_after { store.new ≡ (seal_begin sframe store.old kid.0 metadata.now announced state.old room.old).store }
    ensures room_after { room.new ≡ (seal_begin sframe store.old kid.0 metadata.now announced state.old room.old).room }
    ensures state_after { state.new ≡ (seal_begin sframe store.old kid.0 metadata.now announced state.old room.old).state }
{
    if !store::is_sound(store) {
        return Err(Refusal::StoreInvalid);
    }
    let i = store::find_near(store, kid, place).ok_or(Refusal::KidMissing)?;
    judge(
        store::row_at(store, i),
        kid,
        metadata.len(),
        announced,
        room.len(),
        state.len(),
    )?;
    let length = write_line(
        store::row_at(store, i),
        kid,
        metadata,
        announced,
        state,
        room,
    );
    store::advance_at(store, i);
    Ok(length)
}
