// SPDX-License-Identifier: MIT
// The layer's parts, each behind a function that judges its input, for tests. sframe_test_c exports them to C. No product links it.
#![tactic(auto)]

pub mod aes_modes;
pub mod cipher_suites;
pub mod hash;
mod judge;

ghost use Rattle.std.specs.Prelude.{◌≡◌};
ghost use Rattle.sframe_test.specs.Judged.{number_of};

// Why a function did nothing: an input is not taken, or a tag differs.
#[derive(Clone, Copy)]
pub enum Refused {
    Input,
    Tag,
}

// The number by which a C caller knows an answer.
pub fn number(answer: Result<(), Refused>) -> u32
    ensures { result ≡ number_of answer }
{
    match answer {
        Ok(()) => 0,
        Err(Refused::Input) => 1,
        Err(Refused::Tag) => 13,
    }
}
