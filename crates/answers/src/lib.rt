// SPDX-License-Identifier: MIT
// What the calls of the layer share: why they refuse, and how long their inputs may be.
#![tactic(auto)]

ghost use Rattle.std.specs.Prelude.{◌≡◌};
ghost use Rattle.answers.specs.Limits.{too_long};
ghost use Rattle.answers.specs.Refusals.{refusal_number};

// Why a call is refused.
#[derive(Clone, Copy, PartialEq, Eq)]
pub enum Refusal {
    StoreInvalid,
    SuiteUnknown,
    BaseKeySize,
    KidHeld,
    StoreFull,
    KidMissing,
    RoleRefused,
    CounterSpent,
    InputTooLong,
    HeaderInvalid,
    FrameShort,
    RoomShort,
    TagDiffers,
    AlreadyOpened,
    CounterTooOld,
    StateMismatch,
    SendingBarred,
    RatchetKidInvalid,
    StepsTooMany,
    GroupPartTooLarge,
    GroupKidTooLong,
    PairNotAbove,
    ObjectTooLarge,
}

impl Refusal {
    // The number by which callers outside the layer know it: none is 0, which says that a call is done.
    pub fn number(self) -> u32
        ensures { result ≡ refusal_number self }
    {
        match self {
            Refusal::StoreInvalid => 1,
            Refusal::SuiteUnknown => 2,
            Refusal::BaseKeySize => 3,
            Refusal::KidHeld => 4,
            Refusal::StoreFull => 5,
            Refusal::KidMissing => 6,
            Refusal::RoleRefused => 7,
            Refusal::CounterSpent => 8,
            Refusal::InputTooLong => 9,
            Refusal::HeaderInvalid => 10,
            Refusal::FrameShort => 11,
            Refusal::RoomShort => 12,
            Refusal::TagDiffers => 13,
            Refusal::AlreadyOpened => 14,
            Refusal::CounterTooOld => 15,
            Refusal::StateMismatch => 16,
            Refusal::SendingBarred => 17,
            Refusal::RatchetKidInvalid => 20,
            Refusal::StepsTooMany => 21,
            Refusal::GroupPartTooLarge => 22,
            Refusal::GroupKidTooLong => 23,
            Refusal::PairNotAbove => 24,
            Refusal::ObjectTooLarge => 25,
        }
    }
}

// The number of a call that is done.
pub const DONE: u32 = 0;

// The shortest base key, and the longest.
pub const MIN_BASE_KEY: usize = 16;

pub const MAX_BASE_KEY: usize = 64;

// The longest plaintext of a frame, and the longest metadata.
pub const MAX_PLAINTEXT: usize = 32768;

pub const MAX_METADATA: usize = 1024;

// Whether a plaintext of that length, or metadata of that length, is too long.
pub fn too_long(plaintext: usize, metadata: usize) -> bool
    ensures { result ≡ too_long plaintext metadata }
{
    if MAX_PLAINTEXT < plaintext {
        return true;
    }
    MAX_METADATA < metadata
}
