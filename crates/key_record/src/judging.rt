// SPDX-License-Identifier: MIT
// Judging one record's bytes: whether they obey their row.
ghost use Rattle.std.specs.Prelude.{◌≡◌, true, ◌+◌, ◌-◌, ◌≤◌, length, get_or, replicate};
ghost use Rattle.octets.specs.Octets.{same};
ghost use Rattle.key_record.specs.Layout.{record_size, mark_at, salt_at, key_at, highest_at, window_in, obeys};
ghost use Rattle.key_record.specs.Suites.{is_suite, key_size};
ghost use Rattle.key_record.specs.Inner.Judging.{block, zero_in, holding_mark, counter_fits, has_opened, window_fits, fields_fit};

use crate::{
    COUNTER, EMPTY, HIGHEST, KEY, LAST, LAYOUT_VERSION, MARK, MASK, RECEIVING, RETIRED, SALT,
    SENDING, SPENT, SUITE, VERSION,
};
use suites::sizes::Aes128GcmSha256;
use window::Window;

// The room for a key is tested for zeros in blocks of so many bytes: fixed lengths compile to few instructions.
const BLOCK: usize = 16;

// Whether there is a suite of that number.
fn is_suite(n: u8) -> bool
    ensures { result ≡ is_suite n }
{
    suites::sizes::find(n as u64).is_some()
}

// Whether every byte is zero.
fn is_zero(b: &[u8]) -> bool
    ensures { result ≡ same (replicate (length b.now) 0) b.now }
{
    let mut any: u8 = 0;
    for x in b {
        any |= *x;
    }
    any == 0
}

// Whether the bytes of a block from an offset on are zero.
fn zero_block(row: &[u8], from: usize) -> bool
    requires { from + block ≤ length row.now }
    ensures { result ≡ zero_in from block row.now }
{
    is_zero(&row[from..from + BLOCK])
}

// Whether salt and key are wiped, as a retired record's are.
fn is_wiped(row: &[u8]) -> bool
    requires { length row.now ≡ record_size }
    ensures { result ≡ zero_in salt_at (highest_at - salt_at) row.now }
{
    if octets::read_be64(&row[SALT..]) != 0 {
        return false;
    }
    if octets::read_be32(&row[SALT + 8..]) != 0 {
        return false;
    }
    if !zero_block(row, KEY) {
        return false;
    }
    if !zero_block(row, KEY + BLOCK) {
        return false;
    }
    zero_block(row, KEY + 2 * BLOCK)
}

// Whether zeros follow a key of that suite up to the window. A key has three blocks, with Gcm128 one, with Gcm256 two.
fn key_ends(row: &[u8], suite: u8) -> bool
    requires { (length row.now ≡ record_size) × (is_suite suite ≡ true) }
    ensures { result ≡ zero_in (key_at + key_size suite) (highest_at - (key_at + key_size suite)) row.now }
{
    let number = suite as u64;
    if number < Aes128GcmSha256::NUMBER {
        return true;
    }
    if !zero_block(row, KEY + 2 * BLOCK) {
        return false;
    }
    if number != Aes128GcmSha256::NUMBER {
        return true;
    }
    zero_block(row, KEY + BLOCK)
}

// Whether mark is that of a non-empty record.
pub fn is_held(mark: u8) -> bool
    ensures { result ≡ holding_mark mark }
{
    if mark < SENDING {
        return false;
    }
    mark <= RETIRED
}

// Whether the two fields of a next counter fit a record with that mark.
fn counter_fits(mark: u8, spent: u8, counter: u64) -> bool
    ensures { result ≡ counter_fits mark spent counter }
{
    if mark == RECEIVING {
        if spent != 0 {
            return false;
        }
        return counter == 0;
    }
    if spent == 0 {
        return true;
    }
    if spent != 1 {
        return false;
    }
    counter == LAST
}

// The window that a record's bytes give.
pub fn window_in(row: &[u8]) -> Window
    requires { length row.now ≡ record_size }
    ensures { result ≡ window_in row.now }
{
    let highest = octets::read_be64(&row[HIGHEST..]);
    let mask = octets::read_be64(&row[MASK..]);
    Window { highest, mask }
}

// Whether a record is for receiving and its window says that something was opened: the lowest bit of its mask is set.
fn has_opened(row: &[u8]) -> bool
    requires { length row.now ≡ record_size }
    ensures { result ≡ has_opened row.now }
{
    if row[MARK] != RECEIVING {
        return false;
    }
    row[MASK + 7] % 2 == 1
}

// Whether a record's window fits its mark. Where nothing was opened its two fields are zero.
fn window_fits(row: &[u8]) -> bool
    requires { length row.now ≡ record_size }
    ensures { result ≡ window_fits (get_or row.now mark_at 0) (window_in row.now) }
{
    if has_opened(row) {
        return window::is_sound(window_in(row));
    }
    if octets::read_be64(&row[HIGHEST..]) != 0 {
        return false;
    }
    octets::read_be64(&row[MASK..]) == 0
}

// Whether the fields of a non-empty record's bytes are in range.
fn fields_fit(row: &[u8]) -> bool
    requires { length row.now ≡ record_size }
    ensures { result ≡ fields_fit row.now }
{
    if !is_suite(row[SUITE]) {
        return false;
    }
    if row[VERSION] != LAYOUT_VERSION {
        return false;
    }
    if !counter_fits(row[MARK], row[SPENT], octets::read_be64(&row[COUNTER..])) {
        return false;
    }
    window_fits(row)
}

// Whether a record's bytes obey their row.
pub fn obeys_row(row: &[u8]) -> bool
    requires { length row.now ≡ record_size }
    ensures { result ≡ obeys row.now }
{
    if row[MARK] == EMPTY {
        return is_zero(row);
    }
    if !is_held(row[MARK]) {
        return false;
    }
    if !fields_fit(row) {
        return false;
    }
    if row[MARK] == RETIRED {
        return is_wiped(row);
    }
    key_ends(row, row[SUITE])
}
