// SPDX-License-Identifier: MIT
// SHA-512, FIPS 180-4 section 6.4, of a message that is given in pieces.
#![tactic(auto)]

mod constants;

ghost use Rattle.std.specs.Prelude.{◌≡◌};
ghost use Rattle.std.proofs.Common.{rules};
ghost use Rattle.sha2_common.specs.Sha2.{Ch};
ghost use Rattle.sha2_common.specs.Sizes.{sha512};
ghost use Rattle.sha2_common.proofs.Laws.{words-of-512};

use constants::{INITIAL, K};
use octets::{read_be64, write_be64};
use sha2_common::{Running, Word, Words};

// A word of 64 bits.
#[derive(Clone, Copy)]
pub struct Word512(pub u64);

pub type Words512 = Words<Word512>;

pub type Sha512 = Running<Words512, 128, 64>;

fn ch(x: u64, y: u64, z: u64) -> u64
    ensures { result ≡ Ch sha512 x y z }
{
    z ^ (x & (y ^ z))
}

impl Word<128, 64> for Word512 {
    type Schedule = [u64; 80];

    ghost params = { sha512 };

    ghost value = { λ x. x.0 };

    ghost listed = { λ w. w };

    const TURNS: usize = 80;

    ghost TURNS = { 80 };

    ghost sizes = { Prim.search rules };

    ghost turns = { Prim.search rules };

    ghost initial_length = { words-of-512 };

    fn constant(t: usize) -> Word512 {
        Word512(K[t])
    }

    fn initial(i: usize) -> Word512 {
        Word512(INITIAL[i])
    }

    fn add(self, other: Word512) -> Word512 {
        Word512(self.0.wrapping_add(other.0))
    }

    fn ch(self, y: Word512, z: Word512) -> Word512 {
        Word512(ch(self.0, y.0, z.0))
    }

    fn maj(self, y: Word512, z: Word512) -> Word512 {
        Word512((self.0 & (y.0 ^ z.0)) ^ (y.0 & z.0))
    }

    fn big_sigma0(self) -> Word512 {
        let x = self.0;
        Word512(x.rotate_right(28) ^ x.rotate_right(34) ^ x.rotate_right(39))
    }

    fn big_sigma1(self) -> Word512 {
        let x = self.0;
        Word512(x.rotate_right(14) ^ x.rotate_right(18) ^ x.rotate_right(41))
    }

    fn small_sigma0(self) -> Word512 {
        let x = self.0;
        Word512(x.rotate_right(1) ^ x.rotate_right(8) ^ (x >> 7))
    }

    fn small_sigma1(self) -> Word512 {
        let x = self.0;
        Word512(x.rotate_right(19) ^ x.rotate_right(61) ^ (x >> 6))
    }

    fn read(block: &[u8; 128], i: usize) -> Word512 {
        Word512(read_be64(&block[8 * i..]))
    }

    fn write(self, out: &mut [u8; 64], i: usize) {
        write_be64(&mut out[8 * i..], self.0);
    }

    fn schedule() -> [u64; 80] {
        [0; 80]
    }

    fn get(w: &[u64; 80], t: usize) -> Word512 {
        Word512(w[t])
    }

    fn set(w: &mut [u64; 80], t: usize, x: Word512) {
        w[t] = x.0;
    }
}
