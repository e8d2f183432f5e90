// SPDX-License-Identifier: MIT
// Opening an object. Each step goes on with what it finds, or returns its own refusal, in the order 1, 6, 7, 25, 11, 9, 12, 13.
#![tactic(auto)]

ghost use Rattle.std.specs.Prelude.{◌≡◌, true, false, [], ◌≤◌, length};
ghost use Rattle.answers.specs.Refusals.{number_of, written_of};
ghost use Rattle.answers.specs.Answers.{first};
ghost use Rattle.aead.specs.Aead.{plain};
ghost use Rattle.secure_objects.specs.Objects.{name_most};
ghost use Rattle.track_record.specs.Layout.{record_size, decode};
ghost use Rattle.track_record.specs.Record.{track_id, is_empty, receives};
ghost use Rattle.open_object.specs.Open.{open_causes, open_at, opening};

use answers::{Refusal, too_long};
use secure_objects::{OBJECT_CEILING, ObjectId, Pair, TrackId};
use track_record::{Kind, row};

// Whether a record of that kind opens.
fn opens(kind: Kind) -> bool
    ensures { result ≡ receives kind }
{
    matches!(kind, Kind::Receiver)
}

// Why a held record refuses to open, by the first cause that applies before the tag is looked at.
fn judge(
    row: &[u8],
    object: ObjectId,
    properties: usize,
    sealed: usize,
    room: usize,
) -> Result<(), Refusal>
    requires { (length row.now ≡ record_size) × (is_empty (decode row.now) ≡ false) }
    ensures { number_of result ≡ first (open_causes true (decode row.now) object.0 properties sealed room (plain [])) }
{
    let (kind, suite) = row::held_in(row).ok_or(Refusal::KidMissing)?;
    if !opens(kind) {
        return Err(Refusal::RoleRefused);
    }
    if OBJECT_CEILING <= object.0 {
        return Err(Refusal::ObjectTooLarge);
    }
    let nt = suite.tag_size();
    if sealed < nt {
        return Err(Refusal::FrameShort);
    }
    let n = sealed - nt;
    if too_long(n, properties) {
        return Err(Refusal::InputTooLong);
    }
    if room < n {
        return Err(Refusal::RoomShort);
    }
    Ok(())
}

// Opens an object with the record that holds its track.
fn open_with(
    row: &[u8],
    track: TrackId,
    pair: Pair,
    properties: &[u8],
    sealed: &[u8],
    room: &mut [u8],
) -> Result<usize, Refusal>
    requires { (length row.now ≡ record_size) × (is_empty (decode row.now) ≡ false) × (length track.name.now ≤ name_most) }
    ensures number_value { (number_of result ≡ (open_at true (decode row.now) [] (track_id track.entry.name.now track.entry.id.0) pair.group.0 pair.object.0 properties.now sealed.now room.old).number) × (written_of result ≡ (open_at true (decode row.now) [] (track_id track.entry.name.now track.entry.id.0) pair.group.0 pair.object.0 properties.now sealed.now room.old).written) }
    ensures room_after { room.new ≡ (open_at true (decode row.now) [] (track_id track.entry.name.now track.entry.id.0) pair.group.0 pair.object.0 properties.now sealed.now room.old).room }
{
    judge(row, pair.object, properties.len(), sealed.len(), room.len())?;
    let (_, suite) = row::held_in(row).ok_or(Refusal::KidMissing)?;
    if !secure_objects::object::unsecure(
        suite,
        row::key_of(row, suite),
        row::salt_of(row),
        track,
        pair,
        properties,
        sealed,
        room,
    ) {
        return Err(Refusal::TagDiffers);
    }
    Ok(sealed.len() - suite.tag_size())
}

// Opens an object, given the name, the Key ID, the pair and the properties of its sealing: the plaintext stands at the start of
// the room. Nothing changes in the store.
pub fn open(
    store: &[u8],
    track: TrackId,
    pair: Pair,
    properties: &[u8],
    sealed: &[u8],
    room: &mut [u8],
) -> Result<usize, Refusal>
    ensures number_value { (number_of result ≡ (opening store.now (track_id track.entry.name.now track.entry.id.0) pair.group.0 pair.object.0 properties.now sealed.now room.old).number) × (written_of result ≡ (opening store.now (track_id track.entry.name.now track.entry.id.0) pair.group.0 pair.object.0 properties.now sealed.now room.old).written) }
    ensures room_after { room.new ≡ (opening store.now (track_id track.entry.name.now track.entry.id.0) pair.group.0 pair.object.0 properties.now sealed.now room.old).room }
{
    if !tracks::is_sound(store) {
        return Err(Refusal::StoreInvalid);
    }
    let i = tracks::find(store, track).ok_or(Refusal::KidMissing)?;
    open_with(
        tracks::row_at(store, i),
        track,
        pair,
        properties,
        sealed,
        room,
    )
}
