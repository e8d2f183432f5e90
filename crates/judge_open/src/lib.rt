// SPDX-License-Identifier: MIT
// What Open asks of the room and of the window of the record that is found: 12, 14, 15.
#![tactic(auto)]

ghost use Rattle.std.specs.Prelude.{◌≡◌, true, length};
ghost use Rattle.answers.specs.Refusals.{number_of};
ghost use Rattle.key_record.specs.Layout.{record_size, decode};
ghost use Rattle.key_record.specs.Record.{is_receiving, window_of};
ghost use Rattle.judge_open.specs.Inner.Counters.{counter_answer};
ghost use Rattle.judge_open.specs.Inner.Rooms.{room_for};

use answers::Refusal;
use header::Ctr;

// The n bytes that a room of that length is to take; None where they are more.
pub fn room_for(room: usize, n: usize) -> Option<usize>
    ensures { result ≡ room_for room n }
{
    if room < n {
        return None;
    }
    Some(n)
}

// What the window of a receiving record has against a counter: 14, 15, or nothing.
pub fn judge_counter(row: &[u8], ctr: Ctr) -> Result<(), Refusal>
    requires { (length row.now ≡ record_size) × (is_receiving (decode row.now) ≡ true) }
    ensures { number_of result ≡ counter_answer (window_of (decode row.now)) ctr.0 }
{
    let w = key_record::row::window_of(row);
    if window::is_seen(w, ctr.0) {
        return Err(Refusal::AlreadyOpened);
    }
    if window::is_too_old(w, ctr.0) {
        return Err(Refusal::CounterTooOld);
    }
    Ok(())
}
