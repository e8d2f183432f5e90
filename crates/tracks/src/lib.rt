// SPDX-License-Identifier: MIT
// The track store: records, one after the other, in bytes that the caller lends.
#![tactic(auto)]

ghost use Rattle.std.specs.Prelude.{◌≡◌, true, false, ◌+◌, ◌*◌, ◌<◌, ◌≤◌, length, get_or, set};
ghost use Rattle.answers.specs.Refusals.{number_of};
ghost use Rattle.answers.specs.Limits.{base_key_most};
ghost use Rattle.secure_objects.specs.Objects.{name_most, object_ceiling, counter};
ghost use Rattle.track_record.specs.Layout.{record_size, decode};
ghost use Rattle.track_record.specs.Record.{track_id, empty, is_empty, is_retired, fresh, advanced, retired};
ghost use Rattle.tracks.specs.Calls.{make, remove};
ghost use Rattle.tracks.specs.Tracks.{length_right, encode_all, records, sound};
ghost use Rattle.tracks.specs.Table.{alone, apart};
ghost use Rattle.tracks.specs.Inner.Places.{Whole, part_at, rows_obey, Within, RowOf, FoundIn, FreeIn};

use answers::Refusal;
use secure_objects::{Pair, TrackId};
use suites::Suite;
use track_record::{Kind, RECORD_SIZE, Role, judging, row};

pub const MAX_RECORDS: usize = 16;

// Whether a length is that of a track store.
fn length_right(n: usize) -> bool
    ensures { result ≡ length_right n }
{
    if n < RECORD_SIZE {
        return false;
    }
    if MAX_RECORDS * RECORD_SIZE < n {
        return false;
    }
    n % RECORD_SIZE == 0
}

// The bytes where record i stands.
fn part(store: &[u8], i: usize) -> &[u8]
    requires { (i + 1) * record_size ≤ length store.now }
    ensures { (result.now ≡ part_at store.now i) × (length result.now ≡ record_size) }
{
    &store[i * RECORD_SIZE..(i + 1) * RECORD_SIZE]
}

// Whether the bytes of every record obey the layout.
fn rows_obey(store: &[u8]) -> bool
    requires { Whole store.now }
    ensures { result ≡ rows_obey store.now }
{
    for i in 0..store.len() / RECORD_SIZE {
        if !judging::obeys_layout(part(store, i)) {
            return false;
        }
    }
    true
}

// Where the record stands that holds a track.
pub fn find(store: &[u8], track: TrackId) -> Option<usize>
    requires { Whole store.now }
    ensures { FoundIn result (track_id track.entry.name.now track.entry.id.0) (records store.now) }
{
    for i in 0..store.len() / RECORD_SIZE {
        if row::holds(part(store, i), track) {
            return Some(i);
        }
    }
    None
}

// Where the lowest-numbered empty record stands.
pub fn find_free(store: &[u8]) -> Option<usize>
    requires { Whole store.now }
    ensures { FreeIn result (records store.now) }
{
    for i in 0..store.len() / RECORD_SIZE {
        if row::is_empty(part(store, i)) {
            return Some(i);
        }
    }
    None
}

// Whether no record of rest shares name and Key ID of a record.
fn alone_in(row: &[u8], rest: &[u8]) -> bool
    requires { (length row.now ≡ record_size) × (Whole rest.now) }
    ensures { result ≡ alone (decode row.now) (records rest.now) }
{
    if row::is_empty(row) {
        return true;
    }
    let track = TrackId {
        name: row::name_of(row),
        id: row::key_id_of(row),
    };
    find(rest, track).is_none()
}

// Whether no two non-empty records share name and Key ID.
fn tracks_apart(store: &[u8]) -> bool
    requires { Whole store.now }
    ensures { result ≡ apart (records store.now) }
{
    for i in 0..store.len() / RECORD_SIZE {
        if !alone_in(part(store, i), &store[(i + 1) * RECORD_SIZE..]) {
            return false;
        }
    }
    true
}

// Whether a track store is sound.
pub fn is_sound(store: &[u8]) -> bool
    ensures { result ≡ sound store.now }
{
    if !length_right(store.len()) {
        return false;
    }
    if !rows_obey(store) {
        return false;
    }
    tracks_apart(store)
}

// The bytes of record i.
pub fn row_at(store: &[u8], i: usize) -> &[u8]
    requires { Within store.now i }
    ensures { RowOf store.now i result.now }
{
    part(store, i)
}

// Writes a new track to record i, which is empty.
pub fn fill_at(store: &mut [u8], i: usize, role: Role, suite: Suite, track: TrackId, base: &[u8])
    requires { (Within store.old i) × (is_empty (get_or (records store.old) i empty) ≡ true) × (length track.name.now ≤ name_most) × (length base.now ≤ base_key_most) }
    ensures { store.new ≡ encode_all (set (records store.old) i (fresh role suite (track_id track.entry.name.now track.entry.id.0) base.now)) }
{
    let at = i * RECORD_SIZE;
    let end = at + RECORD_SIZE;
    row::fill(&mut store[at..end], role, suite, track, base);
}

// Takes a pair for sealed in record i, which is not empty.
pub fn advance_at(store: &mut [u8], i: usize, pair: Pair)
    requires { (Within store.old i) × (is_empty (get_or (records store.old) i empty) ≡ false) × (pair.object.0 < object_ceiling) }
    ensures { store.new ≡ encode_all (set (records store.old) i (advanced (counter pair.group.0 pair.object.0) (get_or (records store.old) i empty))) }
{
    let at = i * RECORD_SIZE;
    let end = at + RECORD_SIZE;
    row::advance(&mut store[at..end], pair);
}

// Retires record i, which is not empty.
fn retire_at(store: &mut [u8], i: usize)
    requires { (Within store.old i) × (is_empty (get_or (records store.old) i empty) ≡ false) }
    ensures { store.new ≡ encode_all (set (records store.old) i (retired (get_or (records store.old) i empty))) }
{
    let at = i * RECORD_SIZE;
    let end = at + RECORD_SIZE;
    row::retire(&mut store[at..end]);
}

// Whether a record that is not empty is retired.
fn is_retired(row: &[u8]) -> bool
    requires { length row.now ≡ record_size }
    ensures { result ≡ is_retired (decode row.now) }
{
    let Some((kind, _)) = row::held_in(row) else {
        return false;
    };
    matches!(kind, Kind::Retired)
}

// Makes a track store: zeros throughout.
pub fn make(store: &mut [u8]) -> Result<(), Refusal>
    ensures value { number_of result ≡ (make store.old).number }
    ensures store_after { store.new ≡ (make store.old).store }
{
    if !length_right(store.len()) {
        return Err(Refusal::StoreInvalid);
    }
    octets::clear(store);
    Ok(())
}

// Removes a track: its record is retired.
pub fn remove(store: &mut [u8], track: TrackId) -> Result<(), Refusal>
    ensures value { number_of result ≡ (remove store.old (track_id track.entry.name.now track.entry.id.0)).number }
    ensures store_after { store.new ≡ (remove store.old (track_id track.entry.name.now track.entry.id.0)).store }
{
    if !is_sound(store) {
        return Err(Refusal::StoreInvalid);
    }
    let i = find(store, track).ok_or(Refusal::KidMissing)?;
    if is_retired(row_at(store, i)) {
        return Err(Refusal::RoleRefused);
    }
    retire_at(store, i);
    Ok(())
}
