// SPDX-License-Identifier: MIT
// The change of epoch in an MLS group: the receiving keys of an epoch go, in one pass over the store.
#![tactic(auto)]

ghost use Rattle.std.specs.Prelude.{◌≡◌, true, ◌++◌, ◌+◌, ◌≤◌, length, take, drop};
ghost use Rattle.octets.specs.Octets.{pasted};
ghost use Rattle.answers.specs.Refusals.{number_of};
ghost use Rattle.group.specs.Group.{kid_bits};
ghost use Rattle.key_record.specs.Layout.{record_size, decode};
ghost use Rattle.store.specs.Store.{encode_all, records, sound};
ghost use Rattle.change_epoch.specs.Epoch.{of_epoch, others, change_epoch};

use answers::Refusal;
use group::KID_BITS;
use key_record::{RECORD_SIZE, row};

// Whether a record is a receiving key of the epoch.
fn of_epoch(row: &[u8], e: u64, bits: u64) -> bool
    requires { (length row.now ≡ record_size) × (e ≤ kid_bits) }
    ensures { result ≡ of_epoch e bits (decode row.now) }
{
    if !row::is_receiving(row) {
        return false;
    }
    group::below(row::kid_of(row).0, e) == bits
}

// Copies the record at index from down to index to, which may be the same.
fn copy_down(store: &mut [u8], to: usize, from: usize)
    requires { (to ≤ from) × (from + record_size ≤ length store.old) }
    ensures { store.new ≡ pasted store.old to (take record_size (drop from store.old)) }
{
    let end = from + RECORD_SIZE;
    octets::move_down(&mut store[to..end], from - to);
}

// Brings the records that stay to the front, in their order, and answers where they end.
fn gather(store: &mut [u8], e: u64, bits: u64) -> usize
    requires { (sound store.old ≡ true) × (e ≤ kid_bits) }
    ensures value { result ≡ length (encode_all (others e bits (records store.old))) }
    ensures store_after { store.new ≡ encode_all (others e bits (records store.old)) ++ drop result store.old }
{
    let mut to = 0;
    for i in 0..store.len() / RECORD_SIZE {
        let from = i * RECORD_SIZE;
        let end = from + RECORD_SIZE;
        let kept = !of_epoch(&store[from..end], e, bits);
        if kept {
            copy_down(store, to, from);
            to += RECORD_SIZE;
        }
    }
    to
}

// Removes the receiving keys whose KIDs have the bits as their low e bits. The causes are tried in the order 1, 23, 22.
pub fn change_epoch(store: &mut [u8], e: u64, bits: u64) -> Result<(), Refusal>
    ensures value { number_of result ≡ (change_epoch store.old e bits).number }
    ensures store_after { store.new ≡ (change_epoch store.old e bits).store }
{
    if !store::is_sound(store) {
        return Err(Refusal::StoreInvalid);
    }
    if KID_BITS < e {
        return Err(Refusal::GroupKidTooLong);
    }
    if !group::in_bits(bits, e) {
        return Err(Refusal::GroupPartTooLarge);
    }
    let end = gather(store, e, bits);
    octets::clear(&mut store[end..]);
    Ok(())
}
