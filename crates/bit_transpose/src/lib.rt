// SPDX-License-Identifier: MIT
// Bits and bytes of several words that change places: planes into bytes, and rows of bytes into columns.
#![tactic(auto)]

ghost use Rattle.std.specs.Prelude.{◌≡◌, ◌+◌, ◌*◌, ◌^◌, ◌<◌};
ghost use Rattle.bit_transpose.specs.Transposition.{Mask, Swapped, Transposed, column};

use bitslice::Planes;

#[derive(Clone, Copy)]
pub struct Pair {
    pub a: u64,
    pub b: u64,
}

// The bits of a above those of the mask change places with the bits of b under it.
fn swap(a: u64, b: u64, mask: u64, n: u32) -> Pair
    requires { (n < 64) × Mask n mask }
    ensures { Swapped n a b result.a result.b }
{
    let t = ((a >> n) ^ b) & mask;
    Pair {
        a: a ^ (t << n),
        b: b ^ t,
    }
}

const EVERY_1: u64 = 0x5555_5555_5555_5555;

const EVERY_2: u64 = 0x3333_3333_3333_3333;

const EVERY_4: u64 = 0x0f0f_0f0f_0f0f_0f0f;

const EVERY_8: u64 = 0x00ff_00ff_00ff_00ff;

const EVERY_16: u64 = 0x0000_ffff_0000_ffff;

const EVERY_32: u64 = 0x0000_0000_ffff_ffff;

// The planes of 64 bytes as eight words of eight bytes: byte b of word i is that in lane 8 b + i.
pub fn transpose(q: Planes) -> Planes
    ensures { Transposed q result }
{
    let a = swap(q.p0, q.p1, EVERY_1, 1);
    let b = swap(q.p2, q.p3, EVERY_1, 1);
    let c = swap(q.p4, q.p5, EVERY_1, 1);
    let d = swap(q.p6, q.p7, EVERY_1, 1);
    let e = swap(a.a, b.a, EVERY_2, 2);
    let f = swap(a.b, b.b, EVERY_2, 2);
    let g = swap(c.a, d.a, EVERY_2, 2);
    let h = swap(c.b, d.b, EVERY_2, 2);
    let s = swap(e.a, g.a, EVERY_4, 4);
    let t = swap(f.a, h.a, EVERY_4, 4);
    let u = swap(e.b, g.b, EVERY_4, 4);
    let v = swap(f.b, h.b, EVERY_4, 4);
    Planes {
        p0: s.a,
        p1: t.a,
        p2: u.a,
        p3: v.a,
        p4: s.b,
        p5: t.b,
        p6: u.b,
        p7: v.b,
    }
}

// Two words of each of two blocks.
#[derive(Clone, Copy)]
pub struct Halves {
    pub a: u64,
    pub b: u64,
    pub c: u64,
    pub d: u64,
}

// Four rows, each of eight bytes, as eight columns of four bytes, two in a word: the columns of the even bytes, from the
// highest down, and then those of the odd bytes.
pub fn columns(r0: u64, r1: u64, r2: u64, r3: u64) -> Halves
    ensures a_value { (result.a ≡ column 6 r0 r1 r2 r3 * 2 ^ 32 + column 4 r0 r1 r2 r3) × (result.b ≡ column 2 r0 r1 r2 r3 * 2 ^ 32 + column 0 r0 r1 r2 r3) }
    ensures c_value { (result.c ≡ column 7 r0 r1 r2 r3 * 2 ^ 32 + column 5 r0 r1 r2 r3) × (result.d ≡ column 3 r0 r1 r2 r3 * 2 ^ 32 + column 1 r0 r1 r2 r3) }
{
    let x = swap(r1, r0, EVERY_8, 8);
    let y = swap(r3, r2, EVERY_8, 8);
    let s = swap(y.a, x.a, EVERY_16, 16);
    let t = swap(y.b, x.b, EVERY_16, 16);
    let u = swap(s.a, s.b, EVERY_32, 32);
    let v = swap(t.a, t.b, EVERY_32, 32);
    Halves {
        a: u.b,
        b: u.a,
        c: v.b,
        d: v.a,
    }
}
