// SPDX-License-Identifier: MIT
// One record's bytes, read and written as the record that they are.
ghost use Rattle.std.specs.Prelude.{◌≡◌, true, false, [], ◌≤◌, ◌<◌, length, replicate};
ghost use Rattle.answers.specs.Limits.{base_key_most};
ghost use Rattle.key_record.specs.Layout.{record_size, encode, decode};
ghost use Rattle.key_record.specs.Record.{ceiling, empty, is_empty, is_sending, is_receiving, kid_of, holds, in_order, suite_of, salt_of, key_of, counter_of, window_of, advanced, noted};
ghost use Rattle.key_record.specs.Suites.{salt_size};
ghost use Rattle.key_record.specs.Inner.Judging.{new_row};
ghost use Rattle.key_record.specs.Inner.Rows.{Row, Numbered, kind_of, has_key, counter_left, mark_for, fresh, kept, precedes};
ghost use Rattle.suites.specs.Suites.{Nk};
ghost use Rattle.window.specs.Window.{seen, too_old};

use crate::judging::{is_held, window_in};
use crate::{
    COUNTER, HIGHEST, KEY, KID, Kind, LAST, LAYOUT_VERSION, MARK, MASK, RECEIVING, RETIRED, Role,
    SALT, SENDING, SPENT, SUITE, VERSION,
};
use header::{Ctr, Kid};
use suites::sizes::Suite;
use window::Window;

// What a record is.
pub fn kind_of(row: &[u8]) -> Kind
    requires { length row.now ≡ record_size }
    ensures { result ≡ kind_of (decode row.now) }
{
    match row[MARK] {
        SENDING => Kind::Sender,
        RECEIVING => Kind::Receiver,
        RETIRED => Kind::Retired,
        _ => Kind::Empty,
    }
}

// Whether a record is empty.
pub fn is_empty(row: &[u8]) -> bool
    requires { length row.now ≡ record_size }
    ensures { result ≡ is_empty (decode row.now) }
{
    !is_held(row[MARK])
}

// The KID of a record that is not empty.
pub fn kid_of(row: &[u8]) -> Kid
    requires { (length row.now ≡ record_size) × (is_empty (decode row.now) ≡ false) }
    ensures { result.0 ≡ kid_of (decode row.now) }
{
    Kid(octets::read_be64(&row[KID..]))
}

// Whether a record is a sending one.
pub fn is_sending(row: &[u8]) -> bool
    requires { length row.now ≡ record_size }
    ensures { result ≡ is_sending (decode row.now) }
{
    row[MARK] == SENDING
}

// Whether a record is a receiving one.
pub fn is_receiving(row: &[u8]) -> bool
    requires { length row.now ≡ record_size }
    ensures { result ≡ is_receiving (decode row.now) }
{
    row[MARK] == RECEIVING
}

// Whether a record is a non-empty one with that KID.
pub fn holds_kid(row: &[u8], kid: Kid) -> bool
    requires { length row.now ≡ record_size }
    ensures { result ≡ holds kid.0 (decode row.now) }
{
    if !is_held(row[MARK]) {
        return false;
    }
    octets::read_be64(&row[KID..]) == kid.0
}

// Whether the record of next may stand right behind that of row.
pub fn in_order(row: &[u8], next: &[u8]) -> bool
    requires { (length row.now ≡ record_size) × (length next.now ≡ record_size) }
    ensures { result ≡ in_order (decode row.now) (decode next.now) }
{
    if is_empty(next) {
        return true;
    }
    if is_empty(row) {
        return false;
    }
    kid_of(row).0 < kid_of(next).0
}

// Whether a record is a non-empty one with a lower KID.
pub fn precedes(row: &[u8], kid: Kid) -> bool
    requires { length row.now ≡ record_size }
    ensures { result ≡ precedes kid.0 (decode row.now) }
{
    if is_empty(row) {
        return false;
    }
    kid_of(row).0 < kid.0
}

// The suite of a record.
pub fn suite_of(row: &[u8]) -> Suite
    requires { (Row row.now) × (is_empty (decode row.now) ≡ false) }
    ensures { Numbered result (suite_of (decode row.now)) }
{
    let Some(suite) = suites::sizes::find(row[SUITE] as u64) else {
        return Suite::Ctr80;
    };
    suite
}

// The next counter of a sending record that has one left.
pub fn next_of(row: &[u8]) -> Ctr
    requires { (Row row.now) × (is_sending (decode row.now) ≡ true) × (counter_left (decode row.now) ≡ true) }
    ensures { result.0 ≡ counter_of (decode row.now) }
{
    Ctr(octets::read_be64(&row[COUNTER..]))
}

// Whether a sending record has a counter left.
pub fn counter_left(row: &[u8]) -> bool
    requires { (Row row.now) × (is_sending (decode row.now) ≡ true) }
    ensures { result ≡ counter_left (decode row.now) }
{
    row[SPENT] == 0
}

// The replay window of a receiving record.
pub fn window_of(row: &[u8]) -> Window
    requires { (length row.now ≡ record_size) × (is_receiving (decode row.now) ≡ true) }
    ensures { result ≡ window_of (decode row.now) }
{
    window_in(row)
}

// The salt of a record.
pub fn salt_of(row: &[u8]) -> &[u8]
    requires { (Row row.now) × (has_key (decode row.now) ≡ true) }
    ensures { (result.now ≡ salt_of (decode row.now)) × (length result.now ≡ salt_size) }
{
    &row[SALT..KEY]
}

// The key of a record of that suite.
pub fn key_of(row: &[u8], suite: Suite) -> &[u8]
    requires { (Row row.now) × (has_key (decode row.now) ≡ true) × (Numbered suite (suite_of (decode row.now))) }
    ensures { (result.now ≡ key_of (decode row.now)) × (length result.now ≡ Nk suite) }
{
    let end = KEY + suite.key_size();
    &row[KEY..end]
}

// The mark of a new record.
fn mark_for(role: Role) -> u8
    ensures { result ≡ mark_for role }
{
    match role {
        Role::Sending => SENDING,
        Role::Receiving => RECEIVING,
    }
}

// Writes a new record over an empty one: mark, suite, version and KID, the counter 0, no window, salt and key still zero.
fn start(row: &mut [u8], mark: u8, suite: u8, kid: Kid)
    requires { row.old ≡ replicate record_size 0 }
    ensures { row.new ≡ new_row mark suite kid.0 (replicate salt_size 0) [] }
{
    octets::write_be_at(row, KID, 8, kid.0);
    row[VERSION] = LAYOUT_VERSION;
    row[SUITE] = suite;
    row[MARK] = mark;
}

// Writes the record of a new key over an empty one.
pub fn fill(row: &mut [u8], role: Role, suite: Suite, kid: Kid, base: &[u8])
    requires { (row.old ≡ encode empty) × (length base.now ≤ base_key_most) }
    ensures { row.new ≡ encode (fresh role suite kid.0 base.now) }
{
    start(row, mark_for(role), suite.number() as u8, kid);
    let salt_end = SALT + suite.nonce_size();
    suites::derivation::derive_salt(suite, base, kid, &mut row[SALT..salt_end]);
    let key_end = KEY + suite.key_size();
    suites::derivation::derive_key(suite, base, kid, &mut row[KEY..key_end]);
}

// Takes the next counter of a sending record. Nothing is added to the last one.
pub fn advance(row: &mut [u8])
    requires { (Row row.old) × (is_sending (decode row.old) ≡ true) × (counter_of (decode row.old) < ceiling) }
    ensures { row.new ≡ encode (advanced (decode row.old)) }
{
    let ctr = next_of(row);
    if ctr.0 == LAST {
        row[SPENT] = 1;
    } else {
        octets::write_be_at(row, COUNTER, 8, ctr.0 + 1);
    }
}

// Notes in the window of a receiving record that a frame with that counter was opened, which it does not tell yet.
pub fn note(row: &mut [u8], ctr: Ctr)
    requires { (Row row.old) × (is_receiving (decode row.old) ≡ true) × (seen (window_of (decode row.old)) ctr.0 ≡ false) × (too_old (window_of (decode row.old)) ctr.0 ≡ false) }
    ensures { row.new ≡ encode (noted ctr.0 (decode row.old)) }
{
    let w = window::open(window_of(row), ctr.0);
    octets::write_be_at(row, HIGHEST, 8, w.highest);
    octets::write_be_at(row, MASK, 8, w.mask);
}

// Retires a sending record.
pub fn retire(row: &mut [u8])
    requires { (Row row.old) × (is_sending (decode row.old) ≡ true) }
    ensures { row.new ≡ encode (kept (decode row.old)) }
{
    octets::clear(&mut row[SALT..]);
    row[MARK] = RETIRED;
}

// Empties a record.
pub fn clear(row: &mut [u8])
    requires { length row.old ≡ record_size }
    ensures { row.new ≡ encode empty }
{
    octets::clear(row);
}
