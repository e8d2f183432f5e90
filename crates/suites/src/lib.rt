// SPDX-License-Identifier: MIT
// The cipher suites of RFC 9605, section 4.5: their sizes, key derivation and the nonce.
#![tactic(auto)]

pub mod derivation;
pub mod sizes;

pub use sizes::Suite;
