// SPDX-License-Identifier: MIT
// SHA-256, FIPS 180-4 section 6.2, of a message that is given in pieces.
#![tactic(auto)]

mod constants;

ghost use Rattle.std.specs.Prelude.{◌≡◌};
ghost use Rattle.std.proofs.Common.{rules};
ghost use Rattle.sha2_common.specs.Sha2.{Ch};
ghost use Rattle.sha2_common.specs.Sizes.{sha256};
ghost use Rattle.sha2_common.proofs.Laws.{words-of-256};

use constants::{INITIAL, K};
use octets::{read_be32, write_be32};
use sha2_common::{Running, Word, Words};

// A word of 32 bits.
#[derive(Clone, Copy)]
pub struct Word256(pub u32);

pub type Words256 = Words<Word256>;

pub type Sha256 = Running<Words256, 64, 32>;

fn ch(x: u32, y: u32, z: u32) -> u32
    ensures { result ≡ Ch sha256 x y z }
{
    z ^ (x & (y ^ z))
}

impl Word<64, 32> for Word256 {
    type Schedule = [u32; 64];

    ghost params = { sha256 };

    ghost value = { λ x. x.0 };

    ghost listed = { λ w. w };

    const TURNS: usize = 64;

    ghost TURNS = { 64 };

    ghost sizes = { Prim.search rules };

    ghost turns = { Prim.search rules };

    ghost initial_length = { words-of-256 };

    fn constant(t: usize) -> Word256 {
        Word256(K[t])
    }

    fn initial(i: usize) -> Word256 {
        Word256(INITIAL[i])
    }

    fn add(self, other: Word256) -> Word256 {
        Word256(self.0.wrapping_add(other.0))
    }

    fn ch(self, y: Word256, z: Word256) -> Word256 {
        Word256(ch(self.0, y.0, z.0))
    }

    fn maj(self, y: Word256, z: Word256) -> Word256 {
        Word256((self.0 & (y.0 ^ z.0)) ^ (y.0 & z.0))
    }

    fn big_sigma0(self) -> Word256 {
        let x = self.0;
        Word256(x.rotate_right(2) ^ x.rotate_right(13) ^ x.rotate_right(22))
    }

    fn big_sigma1(self) -> Word256 {
        let x = self.0;
        Word256(x.rotate_right(6) ^ x.rotate_right(11) ^ x.rotate_right(25))
    }

    fn small_sigma0(self) -> Word256 {
        let x = self.0;
        Word256(x.rotate_right(7) ^ x.rotate_right(18) ^ (x >> 3))
    }

    fn small_sigma1(self) -> Word256 {
        let x = self.0;
        Word256(x.rotate_right(17) ^ x.rotate_right(19) ^ (x >> 10))
    }

    fn read(block: &[u8; 64], i: usize) -> Word256 {
        Word256(read_be32(&block[4 * i..]))
    }

    fn write(self, out: &mut [u8; 32], i: usize) {
        write_be32(&mut out[4 * i..], self.0);
    }

    fn schedule() -> [u32; 64] {
        [0; 64]
    }

    fn get(w: &[u32; 64], t: usize) -> Word256 {
        Word256(w[t])
    }

    fn set(w: &mut [u32; 64], t: usize, x: Word256) {
        w[t] = x.0;
    }
}
