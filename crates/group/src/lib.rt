// SPDX-License-Identifier: MIT
// KIDs of the members of an MLS group: RFC 9605, section 5.2. S bits are the sender index's, E bits the epoch's.
#![tactic(auto)]

ghost use Rattle.std.specs.Prelude.{◌≡◌, ◌+◌, ◌*◌, ◌/◌, ◌%◌, ◌^◌, ◌≤◌, ◌<◌, leb, ltb};
ghost use Rattle.answers.specs.Refusals.{number_of};
ghost use Rattle.group.specs.Group.{kid_bits, context_in, index_in, epoch_in, given, kid_in, context_of, index_of, epoch_of, pack_number, packed, unpack_number};

use answers::Refusal;
use header::Kid;

// All bits of a KID.
pub const KID_BITS: u64 = 64;

// Whether so many bits of index and epoch fit a KID. The two are not added before that is known.
fn widths_fit(s: u64, e: u64) -> bool
    ensures { result ≡ leb (s + e) kid_bits }
{
    if KID_BITS < s {
        return false;
    }
    e <= KID_BITS - s
}

// x / 2^n.
fn above(x: u64, n: u64) -> u64
    requires { n ≤ kid_bits }
    ensures { result ≡ x / 2 ^ n }
{
    if n == KID_BITS {
        return 0;
    }
    x >> n
}

// x % 2^n.
pub fn below(x: u64, n: u64) -> u64
    requires { n ≤ kid_bits }
    ensures { result ≡ x % 2 ^ n }
{
    if n == KID_BITS {
        return x;
    }
    x % (1 << n)
}

// x * 2^n, where that fits.
fn raised(x: u64, n: u64) -> u64
    requires { (n ≤ kid_bits) × (x * 2 ^ n < 2 ^ kid_bits) }
    ensures { result ≡ x * 2 ^ n }
{
    if n == KID_BITS {
        return 0;
    }
    x << n
}

// Whether x has at most n bits.
pub fn in_bits(x: u64, n: u64) -> bool
    requires { n ≤ kid_bits }
    ensures { result ≡ ltb x (2 ^ n) }
{
    above(x, n) == 0
}

// The KID of a context, a sender index and an epoch. The causes are tried in the order 23, 22, 23.
pub fn pack(context: u64, index: u64, epoch: u64, s: u64, e: u64) -> Result<Kid, Refusal>
    ensures { (number_of result ≡ pack_number s e context index epoch) × (kid_in result ≡ packed s e context index epoch) }
{
    if !widths_fit(s, e) {
        return Err(Refusal::GroupKidTooLong);
    }
    if !in_bits(index, s) {
        return Err(Refusal::GroupPartTooLarge);
    }
    let width = s + e;
    if !in_bits(context, KID_BITS - width) {
        return Err(Refusal::GroupKidTooLong);
    }
    let kid = raised(context, width) + raised(index, e) + below(epoch, e);
    Ok(Kid(kid))
}

// The parts of a KID.
#[derive(Clone, Copy, PartialEq, Eq)]
pub struct Parts {
    pub context: u64,
    pub index: u64,
    pub epoch: u64,
}

// The parts of a KID. The one cause is 23.
pub fn unpack(kid: Kid, s: u64, e: u64) -> Result<Parts, Refusal>
    ensures { (number_of result ≡ unpack_number s e) × (context_of result ≡ given (unpack_number s e) (context_in s e kid.0)) × (index_of result ≡ given (unpack_number s e) (index_in s e kid.0)) × (epoch_of result ≡ given (unpack_number s e) (epoch_in e kid.0)) }
{
    if !widths_fit(s, e) {
        return Err(Refusal::GroupKidTooLong);
    }
    Ok(Parts {
        context: above(kid.0, s + e),
        index: below(above(kid.0, e), s),
        epoch: below(kid.0, e),
    })
}
