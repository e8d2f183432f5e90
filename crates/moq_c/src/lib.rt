// SPDX-License-Identifier: MIT
// The C interface of the sealing of MoQ objects. Each function does nothing but call the layer and hand its answer over: the
// result is the answer's number, and lengths go through pointers. A slice passes as a pointer and then a length. include/moq.h
// declares what stands here.
#![tactic(auto)]

ghost use Rattle.std.specs.Prelude.{◌≡◌};
ghost use Rattle.answers.specs.Refusals.{number_of, written_of};
ghost use Rattle.track_record.specs.Record.{track_id};
ghost use Rattle.track_record.specs.declared.Role.TheVariants.{Sending, Receiving};
ghost use Rattle.tracks.specs.Calls.{make, remove};
ghost use Rattle.add_track.specs.Add.{add};
ghost use Rattle.seal_object.specs.Seal.{seal};
ghost use Rattle.open_object.specs.Open.{opening};

use answers::Refusal;
use secure_objects::{GroupId, KeyId, ObjectId, Pair, TrackId};
use track_record::Role;

// The track of a name and a Key ID.
fn track_of<'a>(name: &'a [u8], id: u64) -> TrackId<'a>
    ensures { (result.name.now ≡ name.now) × (result.id.0 ≡ id) }
{
    TrackId {
        name,
        id: KeyId(id),
    }
}

// The number of what a call answers: 0 where it is done.
fn number(answer: Result<(), Refusal>) -> u32
    ensures { result ≡ number_of answer }
{
    match answer {
        Ok(()) => 0,
        Err(refusal) => refusal.number(),
    }
}

// The number of what a call answers that fills a room, and the length that it wrote: 0 where it is refused.
fn hand_over(answer: Result<usize, Refusal>, length: &mut usize) -> u32
    ensures value { result ≡ number_of answer }
    ensures length_after { length.new ≡ written_of answer }
{
    match answer {
        Ok(written) => {
            *length = written;
            0
        }
        Err(refusal) => {
            *length = 0;
            refusal.number()
        }
    }
}

#[unsafe(no_mangle)]
pub extern "C" fn moq_make(store: &mut [u8]) -> u32
    ensures value { result ≡ (make store.old).number }
    ensures store_after { store.new ≡ (make store.old).store }
{
    number(tracks::make(store))
}

// Two functions for the two roles, as C knows no role.
#[unsafe(no_mangle)]
pub extern "C" fn moq_add_sending(
    store: &mut [u8],
    name: &[u8],
    id: u64,
    suite: u64,
    base: &[u8],
) -> u32
    ensures value { result ≡ (add store.old Sending (track_id name.now id) suite base.now).number }
    ensures store_after { store.new ≡ (add store.old Sending (track_id name.now id) suite base.now).store }
{
    number(add_track::add(store, Role::Sending, track_of(name, id), suite, base))
}

#[unsafe(no_mangle)]
pub extern "C" fn moq_add_receiving(
    store: &mut [u8],
    name: &[u8],
    id: u64,
    suite: u64,
    base: &[u8],
) -> u32
    ensures value { result ≡ (add store.old Receiving (track_id name.now id) suite base.now).number }
    ensures store_after { store.new ≡ (add store.old Receiving (track_id name.now id) suite base.now).store }
{
    number(add_track::add(store, Role::Receiving, track_of(name, id), suite, base))
}

#[unsafe(no_mangle)]
pub extern "C" fn moq_remove(store: &mut [u8], name: &[u8], id: u64) -> u32
    ensures value { result ≡ (remove store.old (track_id name.now id)).number }
    ensures store_after { store.new ≡ (remove store.old (track_id name.now id)).store }
{
    number(tracks::remove(store, track_of(name, id)))
}

#[unsafe(no_mangle)]
pub extern "C" fn moq_seal(
    store: &mut [u8],
    name: &[u8],
    id: u64,
    group: u64,
    object: u64,
    properties: &[u8],
    plaintext: &[u8],
    out: &mut [u8],
    length: &mut usize,
) -> u32
    ensures value { result ≡ (seal store.old (track_id name.now id) group object properties.now plaintext.now out.old).number }
    ensures length_after { length.new ≡ (seal store.old (track_id name.now id) group object properties.now plaintext.now out.old).written }
    ensures store_after { store.new ≡ (seal store.old (track_id name.now id) group object properties.now plaintext.now out.old).store }
    ensures out_after { out.new ≡ (seal store.old (track_id name.now id) group object properties.now plaintext.now out.old).room }
{
    let answer = seal_object::seal(
        store,
        TrackId {
            name,
            id: KeyId(id),
        },
        Pair {
            group: GroupId(group),
            object: ObjectId(object),
        },
        properties,
        plaintext,
        out,
    );
    hand_over(answer, length)
}

#[unsafe(no_mangle)]
pub extern "C" fn moq_open(
    store: &[u8],
    name: &[u8],
    id: u64,
    group: u64,
    object: u64,
    properties: &[u8],
    sealed: &[u8],
    out: &mut [u8],
    length: &mut usize,
) -> u32
    ensures value { result ≡ (opening store.now (track_id name.now id) group object properties.now sealed.now out.old).number }
    ensures length_after { length.new ≡ (opening store.now (track_id name.now id) group object properties.now sealed.now out.old).written }
    ensures out_after { out.new ≡ (opening store.now (track_id name.now id) group object properties.now sealed.now out.old).room }
{
    let answer = open_object::open(
        store,
        TrackId {
            name,
            id: KeyId(id),
        },
        Pair {
            group: GroupId(group),
            object: ObjectId(object),
        },
        properties,
        sealed,
        out,
    );
    hand_over(answer, length)
}
