// SPDX-License-Identifier: MIT
// Adding a track. The causes are tried in the order 1, 2, 17, 3, 9, 4, 5.
#![tactic(auto)]

ghost use Rattle.std.specs.Prelude.{◌≡◌};
ghost use Rattle.answers.specs.Refusals.{number_of};
ghost use Rattle.track_record.specs.Record.{track_id};
ghost use Rattle.add_track.specs.Add.{barred, add};

use answers::{MAX_BASE_KEY, MIN_BASE_KEY, Refusal};
use secure_objects::{MAX_NAME, TrackId};
use suites::sizes::Aes128CtrHmacSha256Tag32;
use track_record::Role;

// Whether no track of that role and suite is added: the suite with tags of 4 bytes is for receiving alone. As for the keys of SFrame,
// over a role of its own, since neither store stands on the other.
fn is_barred(role: Role, suite: u64) -> bool
    ensures { result ≡ barred role suite }
{
    match role {
        Role::Sending => suite == Aes128CtrHmacSha256Tag32::NUMBER,
        Role::Receiving => false,
    }
}

// Adds a track: the lowest-numbered empty record holds what the suite derives from the base key for a name and a Key ID.
pub fn add(
    store: &mut [u8],
    role: Role,
    track: TrackId,
    suite: u64,
    base: &[u8],
) -> Result<(), Refusal>
    ensures value { number_of result ≡ (add store.old role (track_id track.entry.name.now track.entry.id.0) suite base.now).number }
    ensures store_after { store.new ≡ (add store.old role (track_id track.entry.name.now track.entry.id.0) suite base.now).store }
{
    if !tracks::is_sound(store) {
        return Err(Refusal::StoreInvalid);
    }
    let known = suites::sizes::find(suite).ok_or(Refusal::SuiteUnknown)?;
    if is_barred(role, suite) {
        return Err(Refusal::SendingBarred);
    }
    if base.len() < MIN_BASE_KEY {
        return Err(Refusal::BaseKeySize);
    }
    if MAX_BASE_KEY < base.len() {
        return Err(Refusal::BaseKeySize);
    }
    if MAX_NAME < track.name.len() {
        return Err(Refusal::InputTooLong);
    }
    let None = tracks::find(store, track) else {
        return Err(Refusal::KidHeld);
    };
    let i = tracks::find_free(store).ok_or(Refusal::StoreFull)?;
    tracks::fill_at(store, i, role, known, track, base);
    Ok(())
}
