// SPDX-License-Identifier: MIT
// Hash states behind `&mut`, and above them the digest of two pieces, for callers without a state of their own.
#![tactic(auto)]

ghost use Rattle.std.specs.Prelude.{◌≡◌, ◌+◌, ◌≤◌, length};
ghost use Rattle.sha2_common.specs.Limits.{maximum};
ghost use Rattle.running_hash.specs.Inner.Lent.{FedWith, Finished, digest_of};

use sha2_common::Hash;

// The state has been fed s after what was fed before.
pub fn feed<H: Hash<BLOCK, DIGEST>, const BLOCK: usize, const DIGEST: usize>(
    state: &mut H,
    s: &[u8],
)
    requires { (H.state state.old).len + length s.now ≤ maximum }
    ensures { FedWith H H.state H.params state.old s.now state.new }
{
    *state = state.feed(s);
}

// The digest of what the state has been fed. The state is a new one afterwards.
pub fn finish<H: Hash<BLOCK, DIGEST>, const BLOCK: usize, const DIGEST: usize>(
    state: &mut H,
) -> [u8; DIGEST]
    requires { (H.state state.old).len ≤ maximum }
    ensures { Finished H H.state H.params DIGEST state.old result state.new }
{
    let digest = state.finish();
    *state = H::new();
    digest
}

// The digest of a message in two pieces.
pub fn digest<H: Hash<BLOCK, DIGEST>, const BLOCK: usize, const DIGEST: usize>(
    first: &[u8],
    second: &[u8],
) -> [u8; DIGEST]
    requires { length first.now + length second.now ≤ maximum }
    ensures { (result ≡ digest_of H.params first.now second.now) × (length result ≡ DIGEST) }
{
    let mut state = H::new();
    feed(&mut state, first);
    feed(&mut state, second);
    finish(&mut state)
}
