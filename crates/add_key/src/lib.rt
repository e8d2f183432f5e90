// SPDX-License-Identifier: MIT
// Adding a key. The causes are tried in the order 1, 2, 17, 3, 4, 5.
#![tactic(auto)]

ghost use Rattle.std.specs.Prelude.{◌≡◌};
ghost use Rattle.answers.specs.Refusals.{number_of};
ghost use Rattle.add_key.specs.Add.{barred, add};
ghost use Rattle.store.specs.Sframe.{sframe};

use answers::{MAX_BASE_KEY, MIN_BASE_KEY, Refusal};
use header::Kid;
use key_record::Role;
use suites::sizes::Aes128CtrHmacSha256Tag32;

// Whether no key of that role and suite is added: the suite with tags of 4 bytes is for receiving alone.
fn is_barred(role: Role, suite: u64) -> bool
    ensures { result ≡ barred role suite }
{
    match role {
        Role::Sending => suite == Aes128CtrHmacSha256Tag32::NUMBER,
        Role::Receiving => false,
    }
}

// Adds a key: a record with what the suite derives from the base key for a KID, inserted at its place.
pub fn add(store: &mut [u8], role: Role, kid: Kid, suite: u64, base: &[u8]) -> Result<(), Refusal>
    ensures value { number_of result ≡ (add sframe store.old role kid.0 suite base.now).number }
    ensures store_after { store.new ≡ (add sframe store.old role kid.0 suite base.now).store }
{
    if !store::is_sound(store) {
        return Err(Refusal::StoreInvalid);
    }
    let Some(known) = suites::sizes::find(suite) else {
        return Err(Refusal::SuiteUnknown);
    };
    if is_barred(role, suite) {
        return Err(Refusal::SendingBarred);
    }
    if base.len() < MIN_BASE_KEY {
        return Err(Refusal::BaseKeySize);
    }
    if MAX_BASE_KEY < base.len() {
        return Err(Refusal::BaseKeySize);
    }
    let i = store::rank(store, kid);
    if store::stands_at(store, i, kid) {
        return Err(Refusal::KidHeld);
    }
    if store::is_full(store) {
        return Err(Refusal::StoreFull);
    }
    store::insert_at(store, i, role, known, kid, base);
    Ok(())
}
