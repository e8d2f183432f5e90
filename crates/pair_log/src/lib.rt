// SPDX-License-Identifier: MIT
// A log of sealings, records of 16 bytes, and the pairs of KID and counter that stand in it twice or more.
#![tactic(auto)]

mod pair;

ghost use Rattle.std.specs.Prelude.{◌≡◌, [], ◌∷◌, ◌++◌, ◌+◌, ◌*◌, ◌/◌, ◌^◌, ◌≤◌, ◌<◌, length, take};
ghost use Rattle.octets.specs.Octets.{ascii, number, pasted};
ghost use Rattle.answers.specs.Refusals.{number_of, written_of};
ghost use Rattle.pair_log.specs.Pairs.{record_size, pairs, among, inserted, repeated, Rising};
ghost use Rattle.pair_log.specs.Report.{max_log, digit, digits, places, counted, pair_lines, listing, listing_of, report, written};
ghost use Rattle.pair_log.specs.Inner.Listed.{value, listed, pair_size, max_listed};

use crate::pair::Pair;
use answers::Refusal;

// The bytes of a record, a KID and a counter of 8 bytes each, and of the longest log.
pub const RECORD: usize = 16;

pub const MAX_LOG: usize = 65536;

// The bytes of the longest report.
pub const MAX_REPORT: usize = 69659;

// The most pairs that stand twice in a log, and the bytes of a pair's line.
const MAX_LISTED: usize = 2048;

const PAIR: usize = 34;

// The pair of the record at the front of a log.
fn first_pair(log: &[u8]) -> Pair
    requires { record_size ≤ length log.now }
    ensures { value result ≡ number record_size log.now }
{
    Pair {
        kid: octets::read_be64(log),
        ctr: octets::read_be64(&log[8..]),
    }
}

// Whether the pair stands among the first n records of a log.
fn stands(log: &[u8], n: usize, pair: Pair) -> bool
    requires { n * record_size ≤ length log.now }
    ensures { result ≡ among (value pair) (pairs n log.now) }
{
    for i in 0..n {
        if first_pair(&log[RECORD * i..]) == pair {
            return true;
        }
    }
    false
}

// Puts a pair among the first n, which rise, where it does not stand there, and answers how many they are then.
fn insert(found: &mut [Pair], n: usize, pair: Pair) -> usize
    requires len { n < length found.old }
    requires rising { Rising (listed (take n found.old)) }
    ensures { (listed (take result found.new) ≡ inserted (value pair) (listed (take n found.old))) × (result ≤ n + 1) }
{
    let Err(at) = found[..n].binary_search(&pair) else {
        return n;
    };
    found[at..n + 1].rotate_right(1);
    found[at] = pair;
    n + 1
}

// Gathers the pairs that stand twice or more among the first n records of a log, and answers how many they are.
fn gather(log: &[u8], n: usize, found: &mut [Pair]) -> usize
    requires { (n * record_size ≤ length log.now) × (n ≤ length found.old + length found.old) }
    ensures { (listed (take result found.new) ≡ repeated (pairs n log.now)) × (result ≤ length found.old) }
{
    let mut count = 0;
    for i in (0..n).rev() {
        let record = &log[RECORD * i..];
        let pair = first_pair(record);
        if stands(&record[RECORD..], n - i - 1, pair) {
            count = insert(found, count, pair);
        }
    }
    count
}

fn digit(d: u64) -> u8
    requires { d < 16 }
    ensures { result ≡ digit d }
{
    if d < 10 {
        return b'0' + d as u8;
    }
    b'a' + (d - 10) as u8
}

// Fills out with the lowest digits of x to a base.
fn write_digits(out: &mut [u8], base: u64, x: u64)
    requires { (1 < base) × (base ≤ 16) }
    ensures { out.new ≡ digits base (length out.old) x }
{
    let mut rest = x;
    for i in (0..out.len()).rev() {
        out[i] = digit(rest % base);
        rest /= base;
    }
}

// The decimal digits that a number below 10,000 takes.
fn places(x: u64) -> usize
    ensures { (result ≡ places x) × (result ≤ 4) }
{
    if x < 10 {
        return 1;
    }
    if x < 100 {
        return 2;
    }
    if x < 1000 {
        return 3;
    }
    4
}

// Writes the lowest n digits of x to a base, and a byte behind them, over out from index at on.
fn write_number(out: &mut [u8], at: usize, base: u64, n: usize, x: u64, end: u8)
    requires { (1 < base) × (base ≤ 16) × (at + n < length out.old) }
    ensures { out.new ≡ pasted out.old at (digits base n x ++ (end ∷ [])) }
{
    write_digits(&mut out[at..at + n], base, x);
    out[at + n] = end;
}

// Writes a line over out from index at on, a label and a count below 10,000, and answers the index behind it.
fn write_count(out: &mut [u8], at: usize, label: &[u8], x: u64) -> usize
    requires { at + length (counted label.now x) ≤ length out.old }
    ensures { (out.new ≡ pasted out.old at (counted label.now x)) × (result ≡ at + length (counted label.now x)) }
{
    octets::copy_at(out, at, label);
    let start = at + label.len();
    let n = places(x);
    write_number(out, start, 10, n, x, b'\n');
    start + n + 1
}

// Writes the line of a pair over out from index at on.
fn write_pair(out: &mut [u8], at: usize, pair: Pair)
    requires { at + pair_size ≤ length out.old }
    ensures { out.new ≡ pasted out.old at (pair_lines (value pair ∷ [])) }
{
    write_number(out, at, 16, 16, pair.kid, b' ');
    write_number(out, at + 17, 16, 16, pair.ctr, b'\n');
}

// Writes the lines of pairs over out from index at on.
fn write_pairs(out: &mut [u8], at: usize, pairs: &[Pair])
    requires { at + length pairs.now * pair_size ≤ length out.old }
    ensures { out.new ≡ pasted out.old at (pair_lines (listed pairs.now)) }
{
    for (i, pair) in pairs.iter().enumerate() {
        write_pair(out, at + i * PAIR, *pair);
    }
}

// The bytes of the report of n records of which m pairs are listed.
fn listing_size(n: u64, m: u64) -> usize
    requires { m ≤ max_listed }
    ensures { result ≡ length (counted (ascii "records ") n) + (length (counted (ascii "repeated ") m) + m * pair_size) }
{
    9 + places(n) + (10 + places(m) + m as usize * PAIR)
}

// Writes the report of n records, of which those pairs are listed.
fn write_listing(n: usize, found: &[Pair], room: &mut [u8]) -> Result<usize, Refusal>
    requires { length found.now ≤ max_listed }
    ensures number_value { (number_of result ≡ (written (listing n (listed found.now)) room.old).number) × (written_of result ≡ (written (listing n (listed found.now)) room.old).written) }
    ensures room_after { room.new ≡ (written (listing n (listed found.now)) room.old).room }
{
    let size = listing_size(n as u64, found.len() as u64);
    if room.len() < size {
        return Err(Refusal::RoomShort);
    }
    let second = write_count(room, 0, b"records ", n as u64);
    let third = write_count(room, second, b"repeated ", found.len() as u64);
    write_pairs(room, third, found);
    Ok(size)
}

// Writes the report of a log of whole records.
fn list(log: &[u8], room: &mut [u8]) -> Result<usize, Refusal>
    requires { length log.now ≤ max_log }
    ensures number_value { (number_of result ≡ (written (listing_of log.now) room.old).number) × (written_of result ≡ (written (listing_of log.now) room.old).written) }
    ensures room_after { room.new ≡ (written (listing_of log.now) room.old).room }
{
    let mut found = [Pair { kid: 0, ctr: 0 }; MAX_LISTED];
    let n = log.len() / RECORD;
    let m = gather(log, n, &mut found);
    write_listing(n, &found[..m], room)
}

// Writes a text to the front of the room.
fn write_text(text: &[u8], room: &mut [u8]) -> Result<usize, Refusal>
    ensures number_value { (number_of result ≡ (written text.now room.old).number) × (written_of result ≡ (written text.now room.old).written) }
    ensures room_after { room.new ≡ (written text.now room.old).room }
{
    if room.len() < text.len() {
        return Err(Refusal::RoomShort);
    }
    octets::copy(room, text);
    Ok(text.len())
}

// Writes the report of a log to the front of the room: the pairs that stand in it twice or more, or that it is too long
// or not whole records. A room shorter than the report is refused with 12.
pub fn report(log: &[u8], room: &mut [u8]) -> Result<usize, Refusal>
    ensures number_value { (number_of result ≡ (written (report log.now) room.old).number) × (written_of result ≡ (written (report log.now) room.old).written) }
    ensures room_after { room.new ≡ (written (report log.now) room.old).room }
{
    if MAX_LOG < log.len() {
        return write_text(b"too long\n", room);
    }
    if log.len() % RECORD != 0 {
        return write_text(b"bad length\n", room);
    }
    list(log, room)
}
