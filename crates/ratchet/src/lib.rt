// SPDX-License-Identifier: MIT
// Sender keys that are ratcheted forward: RFC 9605, section 5.1. The walk of a base key, and the KID of a generation and
// a step.
#![tactic(auto)]

ghost use Rattle.std.specs.Prelude.{◌≡◌, true, ◌^◌, ◌≤◌, ◌<◌, length};
ghost use Rattle.answers.specs.Answers.{first};
ghost use Rattle.answers.specs.Refusals.{number_of, written_of};
ghost use Rattle.answers.specs.Limits.{base_key_most};
ghost use Rattle.suites.specs.Suites.{Nh};
ghost use Rattle.ratchet.specs.Ratchet.{next_key, walked};
ghost use Rattle.ratchet.specs.Calls.{walk_causes, walk, kid_number, kid_given, kid_in};
ghost use Rattle.ratchet.specs.Inner.Sizes.{walked_size};

use answers::{MAX_BASE_KEY, MIN_BASE_KEY, Refusal};
use header::Kid;
use suites::Suite;
use suites::sizes::Aes256GcmSha512;

// The most steps of one walk.
const MAX_STEPS: u64 = 64;

// The most bits of the step in a KID, and all bits of a KID.
const MAX_BITS: u64 = 16;

const KID_BITS: u64 = 64;

// The bytes of the longest key after a step.
const MAX_NH: usize = Aes256GcmSha512::NH;

// Fills out with the base key that follows base.
fn next_key(suite: Suite, base: &[u8], out: &mut [u8])
    requires { (length base.now ≤ base_key_most) × (length out.old ≡ Nh suite) }
    ensures { out.new ≡ next_key suite base.now }
{
    suites::derivation::expand_label(suite, base, b"SFrame 1.0 Ratchet", out);
}

// Changes a key into the one that follows it.
fn step(suite: Suite, key: &mut [u8])
    requires { (length key.old ≡ Nh suite) × (length key.old ≤ base_key_most) }
    ensures { key.new ≡ next_key suite key.old }
{
    let n = key.len();
    let mut before = [0u8; MAX_NH];
    octets::copy(&mut before, key);
    next_key(suite, &before[0..n], key);
}

// Fills out with the base key after so many steps.
fn take_steps(suite: Suite, base: &[u8], steps: u64, out: &mut [u8])
    requires { (length base.now ≤ base_key_most) × (length out.old ≡ walked_size suite (length base.now) steps) × (length out.old ≤ base_key_most) }
    ensures { out.new ≡ walked suite base.now steps }
{
    if steps == 0 {
        octets::copy(out, base);
        return;
    }
    next_key(suite, base, out);
    for _ in 1..steps {
        step(suite, out);
    }
}

// The bytes of a base key of that length after so many steps.
fn walked_size(suite: Suite, base: usize, steps: u64) -> usize
    ensures { result ≡ walked_size suite base steps }
{
    if steps == 0 {
        return base;
    }
    suite.hash_size()
}

// Why a walk whose suite is known is refused: of the lengths of base key, result and room.
fn judge(base: usize, steps: u64, key: usize, room: usize) -> Result<(), Refusal>
    ensures { number_of result ≡ first (walk_causes true base steps key room) }
{
    if base < MIN_BASE_KEY {
        return Err(Refusal::BaseKeySize);
    }
    if MAX_BASE_KEY < base {
        return Err(Refusal::BaseKeySize);
    }
    if MAX_STEPS < steps {
        return Err(Refusal::StepsTooMany);
    }
    if room < key {
        return Err(Refusal::RoomShort);
    }
    Ok(())
}

// Walks a base key so many steps forward: the key stands at the start of the room. The causes are tried in the order 2,
// 3, 21, 12.
pub fn walk(suite: u64, base: &[u8], steps: u64, room: &mut [u8]) -> Result<usize, Refusal>
    ensures number_value { (number_of result ≡ (walk suite base.now steps room.old).number) × (written_of result ≡ (walk suite base.now steps room.old).written) }
    ensures room_after { room.new ≡ (walk suite base.now steps room.old).room }
{
    let known = suites::sizes::find(suite).ok_or(Refusal::SuiteUnknown)?;
    let n = walked_size(known, base.len(), steps);
    judge(base.len(), steps, n, room.len())?;
    take_steps(known, base, steps, &mut room[0..n]);
    Ok(n)
}

// 2 to the n.
fn power(n: u64) -> u64
    requires { n < 64 }
    ensures { result ≡ 2 ^ n }
{
    1 << n
}

// The KID of a generation and a step, of which it has the low bits.
pub fn kid_of(generation: u64, step: u64, bits: u64) -> Result<Kid, Refusal>
    ensures { (number_of result ≡ kid_number generation step bits) × (kid_in result ≡ kid_given generation step bits) }
{
    if bits < 1 {
        return Err(Refusal::RatchetKidInvalid);
    }
    if MAX_BITS < bits {
        return Err(Refusal::RatchetKidInvalid);
    }
    if power(KID_BITS - bits) <= generation {
        return Err(Refusal::RatchetKidInvalid);
    }
    let window = power(bits);
    let kid = generation * window + step % window;
    Ok(Kid(kid))
}
