// SPDX-License-Identifier: MIT
// The Secure Hash Standard, FIPS 180-4: what SHA-256 and SHA-512 share.
#![tactic(auto)]

mod rounds;
mod running;

ghost use Rattle.std.specs.Prelude.{◌≡◌, ℕ, ◌+◌, ◌*◌, ◌<◌, ◌≤◌, List, [], ◌++◌, length};
ghost use Rattle.sha2_common.specs.Sha2.{Params, hash};
ghost use Rattle.sha2_common.specs.Limits.{maximum};
ghost use Rattle.sha2_common.specs.Running.{State, fresh, fed, finished};
ghost use Rattle.sha2_common.specs.Fed.{Fed};

pub use rounds::{Word, Words};
pub use running::{Running, Value, room};

// The most bytes that are hashed as one message.
pub const MAXIMUM: usize = 0x1_0000_0000;

// A running hash of the family, with blocks of BLOCK bytes and digests of DIGEST.
pub trait Hash<const BLOCK: usize, const DIGEST: usize>: Copy {
    // Its parameters, and the running hash that a value is.
    ghost params: { Params };

    ghost state: { Self → State };

    // Nothing has been fed.
    fn new() -> Self
        ensures { (Fed params (state result) []) × ((state result).len ≡ 0) × (state result ≡ fresh params) };

    // s has been fed after what was fed before.
    fn feed(self, s: &[u8]) -> Self
        requires { (state self).len + length s.now ≤ maximum }
        ensures { ((m : List ℕ) → Fed params (state self) m → Fed params (state result) (m ++ s.now)) × ((state result).len ≡ (state self).len + length s.now) × (state result ≡ fed params (state self) s.now) };

    // The digest of what has been fed.
    fn finish(self) -> [u8; DIGEST]
        requires { (state self).len ≤ maximum }
        ensures { ((m : List ℕ) → Fed params (state self) m → result ≡ hash params m) × (length result ≡ DIGEST) × (result ≡ finished params (state self)) };

    // What the two sizes are.
    ghost sizes: { (params.block ≡ BLOCK) × (8 * params.size ≡ DIGEST) × (0 < DIGEST) × (DIGEST ≤ BLOCK) × (BLOCK ≤ 128) };
}
