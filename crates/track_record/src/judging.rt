// SPDX-License-Identifier: MIT
// Judging one record's bytes: they obey the layout where what they read as, written anew, is the same bytes, and fits its kind.
ghost use Rattle.std.specs.Prelude.{Some, ◌≡◌, true, ◌≤◌, length, replicate};
ghost use Rattle.octets.specs.Octets.{same};
ghost use Rattle.track_record.specs.Layout.{record_size, encode, decode, fits, obeys};
ghost use Rattle.track_record.specs.Record.{empty};
ghost use Rattle.track_record.specs.Inner.Rows.{held_of, with_last};

use crate::row::{held_in, key_id_of, key_of, name_of, salt_of, start, write_pair};
use crate::{FLAG, KEY, Kind, PAIR_GROUP, PAIR_OBJECT, RECORD_SIZE, SALT};
use secure_objects::{GroupId, ObjectId, Pair, TrackId};
use suites::Suite;

// Whether every byte is zero.
fn is_zero(b: &[u8]) -> bool
    requires { length b.now ≤ record_size }
    ensures { result ≡ same (replicate (length b.now) 0) b.now }
{
    let zeros = [0u8; RECORD_SIZE];
    let n = b.len();
    octets::equal(&zeros[0..n], b)
}

// Writes the last pair of a record to another, where there is one.
fn write_last(out: &mut [u8], row: &[u8])
    requires { (length out.old ≡ record_size) × (length row.now ≡ record_size) }
    ensures { out.new ≡ with_last row.now out.old }
{
    if row[FLAG] == 0 {
        return;
    }
    let group = octets::read_be64(&row[PAIR_GROUP..]);
    let object = octets::read_be32(&row[PAIR_OBJECT..]) as u64;
    let pair = Pair {
        group: GroupId(group),
        object: ObjectId(object),
    };
    write_pair(out, pair);
}

// Writes what a record's bytes read as, which is a track, to out.
fn write_back(out: &mut [u8], row: &[u8], kind: Kind, suite: Suite)
    requires { (out.old ≡ encode empty) × (length out.old ≡ record_size) × (length row.now ≡ record_size) × (held_of (decode row.now) ≡ Some (kind, suite)) }
    ensures { out.new ≡ encode (decode row.now) }
{
    let track = TrackId {
        name: name_of(row),
        id: key_id_of(row),
    };
    start(out, kind, suite, track);
    write_last(out, row);
    octets::copy_at(out, SALT, salt_of(row));
    octets::copy_at(out, KEY, key_of(row, suite));
}

// Whether a record's bytes, which are a track, fit its kind.
fn fits_kind(row: &[u8], kind: Kind, suite: Suite) -> bool
    requires { (length row.now ≡ record_size) × (held_of (decode row.now) ≡ Some (kind, suite)) }
    ensures { result ≡ fits (decode row.now) }
{
    match kind {
        Kind::Sender => true,
        Kind::Receiver => row[FLAG] == 0,
        Kind::Retired => {
            if !is_zero(salt_of(row)) {
                return false;
            }
            is_zero(key_of(row, suite))
        }
    }
}

// Whether a record's bytes obey the layout.
pub fn obeys_layout(row: &[u8]) -> bool
    requires { length row.now ≡ record_size }
    ensures { result ≡ obeys row.now }
{
    let Some((kind, suite)) = held_in(row) else {
        return is_zero(row);
    };
    let mut written = [0u8; RECORD_SIZE];
    write_back(&mut written, row, kind, suite);
    if !octets::equal(&written, row) {
        return false;
    }
    fits_kind(row, kind, suite)
}
