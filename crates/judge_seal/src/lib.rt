// SPDX-License-Identifier: MIT
// What Seal asks of the record that is found, in the order 7, 8, 9, 12, and the header that it gives next.
#![tactic(auto)]

ghost use Rattle.std.specs.Prelude.{◌≡◌, true, false, ◌++◌, ◌≤◌, length, drop};
ghost use Rattle.header.specs.Header.{max_header, header};
ghost use Rattle.answers.specs.Answers.{first};
ghost use Rattle.answers.specs.Refusals.{number_of};
ghost use Rattle.answers.specs.Limits.{max_plaintext};
ghost use Rattle.key_record.specs.Layout.{decode};
ghost use Rattle.key_record.specs.Record.{is_empty, is_sending, counter_of};
ghost use Rattle.key_record.specs.Inner.Rows.{Row, counter_left};
ghost use Rattle.judge_seal.specs.Seal.{next_length, causes_of_seal};

use answers::{Refusal, too_long};
use header::{Kid, MAX_HEADER};

// Writes the header of a sending record's next frame to the front of head.
pub fn write_next(row: &[u8], kid: Kid, head: &mut [u8]) -> usize
    requires { (Row row.now) × (is_sending (decode row.now) ≡ true) × (max_header ≤ length head.old) × (counter_left (decode row.now) ≡ true) }
    ensures value { (result ≡ length (header kid.0 (counter_of (decode row.now)))) × (result ≤ max_header) }
    ensures head_after { head.new ≡ header kid.0 (counter_of (decode row.now)) ++ drop result head.old }
{
    let ctr = key_record::row::next_of(row);
    let Some(n) = header::write_header(kid, ctr, head) else {
        return 0;
    };
    n
}

// The length of a sending record's next frame.
fn next_length(row: &[u8], kid: Kid, plaintext: usize) -> usize
    requires { (Row row.now) × (is_sending (decode row.now) ≡ true) × (plaintext ≤ max_plaintext) × (counter_left (decode row.now) ≡ true) }
    ensures { result ≡ next_length (decode row.now) kid.0 plaintext }
{
    let mut head = [0u8; MAX_HEADER];
    let n = write_next(row, kid, &mut head);
    let nt = key_record::row::suite_of(row).tag_size();
    n + (plaintext + nt)
}

// The first cause for which a held record refuses to seal.
pub fn judge(
    row: &[u8],
    kid: Kid,
    metadata: usize,
    plaintext: usize,
    room: usize,
) -> Result<(), Refusal>
    requires { (Row row.now) × (is_empty (decode row.now) ≡ false) }
    ensures { number_of result ≡ first (causes_of_seal true (decode row.now) kid.0 metadata plaintext 0 room) }
{
    if !key_record::row::is_sending(row) {
        return Err(Refusal::RoleRefused);
    }
    if !key_record::row::counter_left(row) {
        return Err(Refusal::CounterSpent);
    }
    if too_long(plaintext, metadata) {
        return Err(Refusal::InputTooLong);
    }
    if room < next_length(row, kid, plaintext) {
        return Err(Refusal::RoomShort);
    }
    Ok(())
}
