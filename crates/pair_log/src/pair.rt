// SPDX-License-Identifier: MIT
// A sealing: its KID and its counter.
ghost use Rattle.std.specs.Prelude.{◌^◌, ◌<◌};

// Pairs are ordered by the KID, and then by the counter.
#[derive(Clone, Copy, PartialEq, Eq, PartialOrd, Ord)]
pub struct Pair {
    pub kid: u64,
    pub ctr: u64,
    ghost fits: { ctr < 2 ^ 64 },
}
