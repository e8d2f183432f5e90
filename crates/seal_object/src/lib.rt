// SPDX-License-Identifier: MIT
// Sealing an object. The causes are tried in the order 1, 6, 7, 25, 24, 9, 12.
#![tactic(auto)]

ghost use Rattle.std.specs.Prelude.{◌≡◌, true, false, ◌++◌, ◌≤◌, ◌<◌, length, drop};
ghost use Rattle.answers.specs.Refusals.{number_of, written_of};
ghost use Rattle.answers.specs.Answers.{done, first};
ghost use Rattle.secure_objects.specs.Objects.{name_most};
ghost use Rattle.track_record.specs.Layout.{record_size, decode};
ghost use Rattle.track_record.specs.Record.{track_id, is_empty, sends};
ghost use Rattle.track_record.specs.Inner.Rows.{Row};
ghost use Rattle.seal_object.specs.Seal.{seal_causes, object_under, seal};

use answers::{Refusal, too_long};
use secure_objects::{OBJECT_CEILING, Pair, TrackId};
use suites::Suite;
use track_record::{Kind, row};

// Whether a record of that kind seals.
fn seals(kind: Kind) -> bool
    ensures { result ≡ sends kind }
{
    matches!(kind, Kind::Sender)
}

// Why a held record refuses to seal, by the first cause that applies.
fn judge(
    row: &[u8],
    pair: Pair,
    properties: usize,
    plaintext: usize,
    room: usize,
) -> Result<(), Refusal>
    requires { (length row.now ≡ record_size) × (is_empty (decode row.now) ≡ false) }
    ensures { number_of result ≡ first (seal_causes true (decode row.now) pair.group.0 pair.object.0 properties plaintext room) }
{
    let (kind, suite) = row::held_in(row).ok_or(Refusal::KidMissing)?;
    if !seals(kind) {
        return Err(Refusal::RoleRefused);
    }
    if OBJECT_CEILING <= pair.object.0 {
        return Err(Refusal::ObjectTooLarge);
    }
    if row::is_below(row, pair) {
        return Err(Refusal::PairNotAbove);
    }
    if too_long(plaintext, properties) {
        return Err(Refusal::InputTooLong);
    }
    if room < plaintext + suite.tag_size() {
        return Err(Refusal::RoomShort);
    }
    Ok(())
}

// Writes the object of a pair to the front of the room, where nothing is against it.
fn write_object(
    row: &[u8],
    track: TrackId,
    pair: Pair,
    properties: &[u8],
    plaintext: &[u8],
    room: &mut [u8],
) -> usize
    requires row_len { (length row.now ≡ record_size) × (length track.name.now ≤ name_most) }
    requires room_value { first (seal_causes true (decode row.now) pair.group.0 pair.object.0 (length properties.now) (length plaintext.now) (length room.old)) ≡ done }
    ensures value { result ≡ length (object_under (decode row.now) (track_id track.entry.name.now track.entry.id.0) pair.group.0 pair.object.0 properties.now plaintext.now) }
    ensures room_after { room.new ≡ object_under (decode row.now) (track_id track.entry.name.now track.entry.id.0) pair.group.0 pair.object.0 properties.now plaintext.now ++ drop result room.old }
{
    let Some((_, suite)) = row::held_in(row) else {
        return 0;
    };
    let end = plaintext.len() + suite.tag_size();
    secure_objects::object::secure(
        suite,
        row::key_of(row, suite),
        row::salt_of(row),
        track,
        pair,
        properties,
        plaintext,
        &mut room[0..end],
    );
    end
}

// Seals a plaintext as the object of a pair in a track: the object stands at the front of the room. The pair is taken for sealed
// once everything has been checked.
pub fn seal(
    store: &mut [u8],
    track: TrackId,
    pair: Pair,
    properties: &[u8],
    plaintext: &[u8],
    room: &mut [u8],
) -> Result<usize, Refusal>
    ensures number_value { (number_of result ≡ (seal store.old (track_id track.entry.name.now track.entry.id.0) pair.group.0 pair.object.0 properties.now plaintext.now room.old).number) × (written_of result ≡ (seal store.old (track_id track.entry.name.now track.entry.id.0) pair.group.0 pair.object.0 properties.now plaintext.now room.old).written) }
    ensures store_after { store.new ≡ (seal store.old (track_id track.entry.name.now track.entry.id.0) pair.group.0 pair.object.0 properties.now plaintext.now room.old).store }
    ensures room_after { room.new ≡ (seal store.old (track_id track.entry.name.now track.entry.id.0) pair.group.0 pair.object.0 properties.now plaintext.now room.old).room }
{
    if !tracks::is_sound(store) {
        return Err(Refusal::StoreInvalid);
    }
    let i = tracks::find(store, track).ok_or(Refusal::KidMissing)?;
    judge(
        tracks::row_at(store, i),
        pair,
        properties.len(),
        plaintext.len(),
        room.len(),
    )?;
    let length = write_object(
        tracks::row_at(store, i),
        track,
        pair,
        properties,
        plaintext,
        room,
    );
    tracks::advance_at(store, i, pair);
    Ok(length)
}
