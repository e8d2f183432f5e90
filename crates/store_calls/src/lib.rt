// SPDX-License-Identifier: MIT
// The calls Make, Remove and Find. Causes are tried in the order 1, 6, 7.
#![tactic(auto)]

ghost use Rattle.std.specs.Prelude.{◌≡◌};
ghost use Rattle.answers.specs.Refusals.{number_of, written_of};
ghost use Rattle.store_calls.specs.Calls.{make, remove, find, found};

use answers::Refusal;
use header::Kid;
use key_record::{Kind, row};

// Makes a store: zeros throughout.
pub fn make(store: &mut [u8]) -> Result<(), Refusal>
    ensures value { number_of result ≡ (make store.old).number }
    ensures store_after { store.new ≡ (make store.old).store }
{
    if !store::length_right(store.len()) {
        return Err(Refusal::StoreInvalid);
    }
    octets::clear(store);
    Ok(())
}

// Removes the key of a KID. Any number may be given for the place where its record is believed to stand.
pub fn remove(store: &mut [u8], kid: Kid, place: usize) -> Result<(), Refusal>
    ensures value { number_of result ≡ (remove store.old kid.0).number }
    ensures store_after { store.new ≡ (remove store.old kid.0).store }
{
    if !store::is_sound(store) {
        return Err(Refusal::StoreInvalid);
    }
    let Some(i) = store::find_near(store, kid, place) else {
        return Err(Refusal::KidMissing);
    };
    let kind = row::kind_of(store::row_at(store, i));
    match kind {
        Kind::Sender => {
            store::retire_at(store, i);
            Ok(())
        }
        Kind::Receiver => {
            store::close_at(store, i);
            Ok(())
        }
        Kind::Retired => Err(Refusal::RoleRefused),
        Kind::Empty => Err(Refusal::KidMissing),
    }
}

// Finds the place of the record that holds a KID, for a caller to hand in later.
pub fn locate(store: &[u8], kid: Kid) -> Result<usize, Refusal>
    ensures { (number_of result ≡ (find store.now kid.0).number) × (written_of result ≡ found store.now kid.0) }
{
    if !store::is_sound(store) {
        return Err(Refusal::StoreInvalid);
    }
    store::find(store, kid).ok_or(Refusal::KidMissing)
}
