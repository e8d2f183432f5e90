// SPDX-License-Identifier: MIT
// One record's bytes, read and written as the record that they are.
ghost use Rattle.std.specs.Prelude.{◌≡◌, Some, true, false, ◌+◌, ◌≤◌, ◌<◌, ltb, length, replicate};
ghost use Rattle.answers.specs.Limits.{base_key_most};
ghost use Rattle.suites.specs.Suites.{Nk, Nn};
ghost use Rattle.secure_objects.specs.Objects.{name_most, object_ceiling, counter};
ghost use Rattle.track_record.specs.Layout.{record_size, mark_of, kind_of, encode, decode};
ghost use Rattle.track_record.specs.Record.{empty, is_empty, is_sending, track_id, holds, floor_of, salt_of, key_of, kind_for, fresh, advanced, retired};
ghost use Rattle.track_record.specs.Inner.Rows.{Row, held_of, suite_in, start_row, with_pair, id_of};

use crate::{
    FLAG, KEY, KEY_ID, Kind, MARK, NAME, NAME_LENGTH, PAIR_GROUP, PAIR_OBJECT, RECEIVER, RETIRED,
    Role, SALT, SENDER, SUITE,
};
use secure_objects::{KeyId, MAX_NAME, Pair, TrackId, derivation};
use suites::Suite;

// What a mark stands for.
fn kind_of(mark: u8) -> Kind
    ensures { result ≡ kind_of mark }
{
    if mark == SENDER {
        return Kind::Sender;
    }
    if mark == RECEIVER {
        return Kind::Receiver;
    }
    Kind::Retired
}

// The mark of what a record is for.
fn mark_of(kind: Kind) -> u8
    ensures { result ≡ mark_of kind }
{
    match kind {
        Kind::Sender => SENDER,
        Kind::Receiver => RECEIVER,
        Kind::Retired => RETIRED,
    }
}

// What a new record is for.
fn kind_for(role: Role) -> Kind
    ensures { result ≡ kind_for role }
{
    match role {
        Role::Sending => Kind::Sender,
        Role::Receiving => Kind::Receiver,
    }
}

// What the track is for that a record holds, and its suite; none in an empty one.
pub fn held_in(row: &[u8]) -> Option<(Kind, Suite)>
    requires { length row.now ≡ record_size }
    ensures { result ≡ held_of (decode row.now) }
{
    let mark = row[MARK];
    if mark < SENDER {
        return None;
    }
    if RETIRED < mark {
        return None;
    }
    if (MAX_NAME as u64) < octets::read_be(&row[NAME_LENGTH..], 2) {
        return None;
    }
    let suite = suites::sizes::find(row[SUITE] as u64)?;
    Some((kind_of(mark), suite))
}

// Whether a record is empty.
pub fn is_empty(row: &[u8]) -> bool
    requires { length row.now ≡ record_size }
    ensures { result ≡ is_empty (decode row.now) }
{
    held_in(row).is_none()
}

// The Key ID of a record that is not empty.
pub fn key_id_of(row: &[u8]) -> KeyId
    requires { (length row.now ≡ record_size) × (is_empty (decode row.now) ≡ false) }
    ensures { result.0 ≡ (id_of (decode row.now)).key_id }
{
    KeyId(octets::read_be64(&row[KEY_ID..]))
}

// The name of a record that is not empty.
pub fn name_of(row: &[u8]) -> &[u8]
    requires { (length row.now ≡ record_size) × (is_empty (decode row.now) ≡ false) }
    ensures { (result.now ≡ (id_of (decode row.now)).name) × (length result.now ≤ name_most) }
{
    let end = NAME + octets::read_be(&row[NAME_LENGTH..], 2) as usize;
    &row[NAME..end]
}

// Whether a record is a non-empty one with that name and Key ID.
pub fn holds(row: &[u8], track: TrackId) -> bool
    requires { length row.now ≡ record_size }
    ensures { result ≡ holds (track_id track.entry.name.now track.entry.id.0) (decode row.now) }
{
    if is_empty(row) {
        return false;
    }
    if key_id_of(row).0 != track.id.0 {
        return false;
    }
    octets::equal(name_of(row), track.name)
}

// Whether the counter of a pair is below the floor of a record that is not empty: a pair was sealed, and this one is not above
// it.
pub fn is_below(row: &[u8], pair: Pair) -> bool
    requires { (length row.now ≡ record_size) × (is_empty (decode row.now) ≡ false) × (pair.object.0 < object_ceiling) }
    ensures { result ≡ ltb (counter pair.group.0 pair.object.0) (floor_of (decode row.now)) }
{
    if row[FLAG] == 0 {
        return false;
    }
    let last = octets::read_be64(&row[PAIR_GROUP..]);
    if pair.group.0 != last {
        return pair.group.0 < last;
    }
    pair.object.0 <= octets::read_be32(&row[PAIR_OBJECT..]) as u64
}

// The salt of a record that is not empty.
pub fn salt_of(row: &[u8]) -> &[u8]
    requires { (length row.now ≡ record_size) × (is_empty (decode row.now) ≡ false) }
    ensures { (result.now ≡ salt_of (decode row.now)) × (length result.now ≡ Nn) }
{
    &row[SALT..KEY]
}

// The key of a record of that suite.
pub fn key_of(row: &[u8], suite: Suite) -> &[u8]
    requires { (length row.now ≡ record_size) × (suite_in (decode row.now) ≡ Some suite) }
    ensures { (result.now ≡ key_of (decode row.now)) × (length result.now ≡ Nk suite) }
{
    let end = KEY + suite.key_size();
    &row[KEY..end]
}

// Writes a record over an empty one: all but salt and key, which stay zero, and nothing is sealed.
pub fn start(row: &mut [u8], kind: Kind, suite: Suite, track: TrackId)
    requires { (row.old ≡ encode empty) × (length row.old ≡ record_size) × (length track.name.now ≤ name_most) }
    ensures { row.new ≡ start_row kind suite track.entry.id.0 track.entry.name.now }
{
    octets::write_be_at(row, KEY_ID, 8, track.id.0);
    octets::write_be_at(row, NAME_LENGTH, 2, track.name.len() as u64);
    octets::copy_at(row, NAME, track.name);
    row[SUITE] = suite.number() as u8;
    row[MARK] = mark_of(kind);
}

// Writes a pair to a record as the last one sealed.
pub fn write_pair(row: &mut [u8], pair: Pair)
    requires { (length row.old ≡ record_size) × (pair.object.0 < object_ceiling) }
    ensures { row.new ≡ with_pair (counter pair.group.0 pair.object.0) row.old }
{
    octets::write_be_at(row, PAIR_GROUP, 8, pair.group.0);
    octets::write_be_at(row, PAIR_OBJECT, 4, pair.object.0);
    row[FLAG] = 1;
}

// Writes the record of a new track over an empty one.
pub fn fill(row: &mut [u8], role: Role, suite: Suite, track: TrackId, base: &[u8])
    requires { (row.old ≡ encode empty) × (length row.old ≡ record_size) × (length track.name.now ≤ name_most) × (length base.now ≤ base_key_most) }
    ensures { row.new ≡ encode (fresh role suite (track_id track.entry.name.now track.entry.id.0) base.now) }
{
    start(row, kind_for(role), suite, track);
    derivation::derive_salt(suite, base, track, &mut row[SALT..KEY]);
    let end = KEY + suite.key_size();
    derivation::derive_key(suite, base, track, &mut row[KEY..end]);
}

// Takes a pair for sealed in a sending record.
pub fn advance(row: &mut [u8], pair: Pair)
    requires { (Row row.old) × (is_empty (decode row.old) ≡ false) × (pair.object.0 < object_ceiling) }
    ensures { row.new ≡ encode (advanced (counter pair.group.0 pair.object.0) (decode row.old)) }
{
    write_pair(row, pair);
}

// Retires a record that is not empty.
pub fn retire(row: &mut [u8])
    requires { (Row row.old) × (is_empty (decode row.old) ≡ false) }
    ensures { row.new ≡ encode (retired (decode row.old)) }
{
    octets::clear(&mut row[SALT..NAME]);
    row[MARK] = RETIRED;
}
