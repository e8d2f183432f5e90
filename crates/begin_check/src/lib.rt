// SPDX-License-Identifier: MIT
// Beginning to check a received frame in pieces. The causes are tried in the order 1, 10, 6, 7, 9, 12.
#![tactic(auto)]

ghost use Rattle.std.specs.Prelude.{Some, ◌≡◌, true, false, [], ◌≤◌, length};
ghost use Rattle.header.specs.Header.{max_header};
ghost use Rattle.key_record.specs.Layout.{decode};
ghost use Rattle.key_record.specs.Record.{is_empty};
ghost use Rattle.key_record.specs.Inner.Rows.{Row};
ghost use Rattle.answers.specs.Refusals.{number_of};
ghost use Rattle.store.specs.Sframe.{sframe};
ghost use Rattle.begin_check.specs.Check.{check_at, check_begin};

use answers::{Refusal, too_long};
use header::Header;
use pieces::{CHECKING, STATE_SIZE};

// Begins to check a frame, whose header has been read, with the record that holds its KID.
fn begin_with(
    row: &[u8],
    head: Header,
    bytes: &[u8],
    metadata: &[u8],
    announced: usize,
    state: &mut [u8],
) -> Result<(), Refusal>
    requires { (Row row.now) × (is_empty (decode row.now) ≡ false) × (head.length ≤ max_header) × (head.length ≤ length bytes.now) }
    ensures value { number_of result ≡ (check_at sframe true (Some head) (decode row.now) [] metadata.now bytes.now announced state.old).number }
    ensures state_after { state.new ≡ (check_at sframe true (Some head) (decode row.now) [] metadata.now bytes.now announced state.old).state }
{
    if !key_record::row::is_receiving(row) {
        return Err(Refusal::RoleRefused);
    }
    if too_long(announced, metadata.len()) {
        return Err(Refusal::InputTooLong);
    }
    if state.len() < STATE_SIZE {
        return Err(Refusal::RoomShort);
    }
    begin_state::write_first(
        row,
        CHECKING,
        head.ctr,
        &bytes[0..head.length],
        metadata,
        announced,
        state,
    );
    Ok(())
}

// Begins to check a frame with that header and a ciphertext of the announced length: the running state stands at the front of its own
// bytes. Bytes behind the header are passed over. Any number may be given for the place where the record is believed to stand.
pub fn check_begin(
    store: &[u8],
    place: usize,
    bytes: &[u8],
    metadata: &[u8],
    announced: usize,
    state: &mut [u8],
) -> Result<(), Refusal>
    ensures value { number_of result ≡ (check_begin sframe store.now metadata.now bytes.now announced state.old).number }
    ensures state_after { state.new ≡ (check_begin sframe store.now metadata.now bytes.now announced state.old).state }
{
    if !store::is_sound(store) {
        return Err(Refusal::StoreInvalid);
    }
    let head = header::read_header(bytes).ok_or(Refusal::HeaderInvalid)?;
    let i = store::find_near(store, head.kid, place).ok_or(Refusal::KidMissing)?;
    begin_with(
        store::row_at(store, i),
        head,
        bytes,
        metadata,
        announced,
        state,
    )
}
