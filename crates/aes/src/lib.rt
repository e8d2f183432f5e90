// SPDX-License-Identifier: MIT
// AES (FIPS 197): the definition of the cipher, its laws, and the parts of the key schedule that are the same in whatever form
// the state is held.
#![tactic(auto)]

pub mod schedule;

// The bytes of a block.
pub const BLOCK: usize = 16;
