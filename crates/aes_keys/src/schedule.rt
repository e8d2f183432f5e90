// SPDX-License-Identifier: MIT
// SubWord by the circuit of the S-box (FIPS 197 §5.2), with no look-up.
ghost use Rattle.std.specs.Prelude.{◌≡◌, ◌≤◌};
ghost use Rattle.aes.specs.Aes.{word};
ghost use Rattle.bitslice.specs.Lanes.{lane, lane_byte};

use aes::schedule::SubWord;
use bitslice::Planes;

// The circuit.
#[derive(Clone, Copy)]
pub struct Circuit;

// Every eighth of the lowest 32 bits.
fn eighths(x: u64) -> u32
    ensures { (result ≡ word (lane 24 x) (lane 16 x) (lane 8 x) (lane 0 x)) × (result ≤ 0x1010101) }
{
    (x & 0x0101_0101) as u32
}

// The bytes in the lanes 24, 16, 8 and 0.
fn gathered(s: Planes) -> u32
    ensures { result ≡ word (lane_byte 24 s) (lane_byte 16 s) (lane_byte 8 s) (lane_byte 0 s) }
{
    let p = eighths(s.p0) + eighths(s.p1) * 2 + eighths(s.p2) * 4 + eighths(s.p3) * 8;
    let q = eighths(s.p4) + eighths(s.p5) * 2 + eighths(s.p6) * 4 + eighths(s.p7) * 8;
    p + q * 16
}

impl SubWord for Circuit {
    fn sub_word(&self, w: u32) -> u32 {
        let x = w as u64;
        let q = Planes {
            p0: x,
            p1: x / 2,
            p2: x / 4,
            p3: x / 8,
            p4: x / 16,
            p5: x / 32,
            p6: x / 64,
            p7: x / 128,
        };
        let y = bitslice::top(q);
        let t = bitslice::inverse(bitslice::products(y));
        gathered(bitslice::bottom(bitslice::scaled(t, y)))
    }
}
