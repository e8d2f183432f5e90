// SPDX-License-Identifier: MIT
// The parts of sframe_test as C functions, for tests from Rust. Each function does nothing but call one of sframe_test and hand its
// number over, and its contract is that one's. A slice passes as a pointer and then a length. No product links it.
#![tactic(auto)]

mod aes_modes;
mod cipher_suites;
mod hash;
