// SPDX-License-Identifier: MIT
// The key store: records, one after the other, in bytes that the caller lends.
#![tactic(auto)]

ghost use Rattle.std.specs.Prelude.{◌≡◌, true, false, [], ◌/◌, ◌<◌, ◌≤◌, length, get_or, set};
ghost use Rattle.answers.specs.Limits.{base_key_most};
ghost use Rattle.key_record.specs.Layout.{record_size};
ghost use Rattle.key_record.specs.Record.{ceiling, empty, is_sending, is_receiving, holds, counter_of, window_of, advanced, noted};
ghost use Rattle.store.specs.Store.{length_right, encode_all, records, sound};
ghost use Rattle.store.specs.Table.{full, insert};
ghost use Rattle.key_record.specs.Inner.Rows.{fresh, kept};
ghost use Rattle.window.specs.Window.{seen, too_old};
ghost use Rattle.store.specs.Inner.Places.{Whole, row_sound, rows_sound, rank, Within, RowOf, Insertable, closed, FoundIn};

use header::{Ctr, Kid};
use key_record::{RECORD_SIZE, Role, judging, row};
use suites::sizes::Suite;

pub const MAX_RECORDS: usize = 1024;

// Whether a length is that of a store.
pub fn length_right(n: usize) -> bool
    ensures { result ≡ length_right n }
{
    if n < RECORD_SIZE {
        return false;
    }
    if MAX_RECORDS * RECORD_SIZE < n {
        return false;
    }
    n % RECORD_SIZE == 0
}

// Whether a row obeys, and its record is in order behind that of the row before it, if there is one.
fn row_sound(before: &[u8], row: &[u8]) -> bool
    requires { (length row.now ≡ record_size) × (0 < length before.now → length before.now ≡ record_size) }
    ensures { result ≡ row_sound before.now row.now }
{
    if !judging::obeys_row(row) {
        return false;
    }
    if before.len() == 0 {
        return true;
    }
    row::in_order(before, row)
}

// Whether every row obeys and the records are in order: one pass.
fn rows_sound(store: &[u8]) -> bool
    requires { Whole store.now }
    ensures { result ≡ rows_sound (length store.now / record_size) [] store.now }
{
    let mut before = &store[..0];
    for row in store.chunks_exact(RECORD_SIZE) {
        if !row_sound(before, row) {
            return false;
        }
        before = row;
    }
    true
}

// Whether a store is sound.
pub fn is_sound(store: &[u8]) -> bool
    ensures { result ≡ sound store.now }
{
    if !length_right(store.len()) {
        return false;
    }
    rows_sound(store)
}

// The bytes of record i.
pub fn row_at(store: &[u8], i: usize) -> &[u8]
    requires { Within store.now i }
    ensures { RowOf store.now i result.now }
{
    let at = i * RECORD_SIZE;
    let end = at + RECORD_SIZE;
    &store[at..end]
}

// Whether a non-empty record with that KID stands at a place, which may be any number.
pub fn stands_at(store: &[u8], place: usize, kid: Kid) -> bool
    requires { sound store.now ≡ true }
    ensures { result ≡ holds kid.0 (get_or (records store.now) place empty) }
{
    if place < store.len() / RECORD_SIZE {
        return row::holds_kid(row_at(store, place), kid);
    }
    false
}

// The place of a KID in order: how many records with lower KIDs there are.
pub fn rank(store: &[u8], kid: Kid) -> usize
    requires { sound store.now ≡ true }
    ensures { result ≡ rank kid.0 (records store.now) }
{
    let (rows, _) = store.as_chunks::<RECORD_SIZE>();
    rows.partition_point(|row| row::precedes(row, kid))
}

// Where the record stands that holds a KID.
pub fn find(store: &[u8], kid: Kid) -> Option<usize>
    requires { sound store.now ≡ true }
    ensures { FoundIn result kid.0 (records store.now) }
{
    let i = rank(store, kid);
    if stands_at(store, i, kid) {
        return Some(i);
    }
    None
}

// The same, with the place where the caller believes the record to stand: it is tried first, and changes no answer.
pub fn find_near(store: &[u8], kid: Kid, place: usize) -> Option<usize>
    requires { sound store.now ≡ true }
    ensures { FoundIn result kid.0 (records store.now) }
{
    if stands_at(store, place, kid) {
        return Some(place);
    }
    find(store, kid)
}

// Whether no record is empty: the last one is not.
pub fn is_full(store: &[u8]) -> bool
    requires { sound store.now ≡ true }
    ensures { result ≡ full (records store.now) }
{
    let last = store.len() / RECORD_SIZE - 1;
    !row::is_empty(row_at(store, last))
}

// Inserts a new key at its place i.
pub fn insert_at(store: &mut [u8], i: usize, role: Role, suite: Suite, kid: Kid, base: &[u8])
    requires { Insertable store.old i kid.0 × (length base.now ≤ base_key_most) }
    ensures { store.new ≡ encode_all (insert (fresh role suite kid.0 base.now) (records store.old)) }
{
    let at = i * RECORD_SIZE;
    octets::move_up(&mut store[at..], RECORD_SIZE);
    let end = at + RECORD_SIZE;
    row::clear(&mut store[at..end]);
    row::fill(&mut store[at..end], role, suite, kid, base);
}

// Takes the next counter of record i, which is a sending one.
pub fn advance_at(store: &mut [u8], i: usize)
    requires { (Within store.old i) × (is_sending (get_or (records store.old) i empty) ≡ true) × (counter_of (get_or (records store.old) i empty) < ceiling) }
    ensures { store.new ≡ encode_all (set (records store.old) i (advanced (get_or (records store.old) i empty))) }
{
    let at = i * RECORD_SIZE;
    let end = at + RECORD_SIZE;
    row::advance(&mut store[at..end]);
}

// Notes in record i, which is a receiving one, that a frame with that counter was opened, which its window does not tell yet.
pub fn note_at(store: &mut [u8], i: usize, ctr: Ctr)
    requires { (Within store.old i) × (is_receiving (get_or (records store.old) i empty) ≡ true) × (seen (window_of (get_or (records store.old) i empty)) ctr.0 ≡ false) × (too_old (window_of (get_or (records store.old) i empty)) ctr.0 ≡ false) }
    ensures { store.new ≡ encode_all (set (records store.old) i (noted ctr.0 (get_or (records store.old) i empty))) }
{
    let at = i * RECORD_SIZE;
    let end = at + RECORD_SIZE;
    row::note(&mut store[at..end], ctr);
}

// Retires record i, which is a sending one.
pub fn retire_at(store: &mut [u8], i: usize)
    requires { (Within store.old i) × (is_sending (get_or (records store.old) i empty) ≡ true) }
    ensures { store.new ≡ encode_all (set (records store.old) i (kept (get_or (records store.old) i empty))) }
{
    let at = i * RECORD_SIZE;
    let end = at + RECORD_SIZE;
    row::retire(&mut store[at..end]);
}

// Takes record i out: those behind it move down by one, and the last is empty.
pub fn close_at(store: &mut [u8], i: usize)
    requires { Within store.old i }
    ensures { store.new ≡ encode_all (closed i (records store.old)) }
{
    let at = i * RECORD_SIZE;
    octets::move_down(&mut store[at..], RECORD_SIZE);
    let last = store.len() - RECORD_SIZE;
    row::clear(&mut store[last..]);
}
