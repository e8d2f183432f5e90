// SPDX-License-Identifier: MIT
// The product of polynomials over the field of two elements, by plain multiplications, with no table and no branch.
//
// Of two factors whose set bits stand four apart, at most eight in each, the integer product adds up to eight bits at
// every fourth place. Such a sum stays in that place and the three above it, so that the place itself has its parity: the
// bit of the product without carries.
#![tactic(auto)]

ghost use Rattle.std.specs.Prelude.{◌≡◌, ◌*◌};
ghost use Rattle.std.specs.Int.Bits.{bit_xor};
ghost use Rattle.clmul.specs.Clmul.{clmul};

// The sum of four integer products.
fn column(a: u32, b: u32, c: u32, d: u32, p: u32, q: u32, r: u32, s: u32) -> u64
    ensures { result ≡ bit_xor (bit_xor (a * p) (b * q)) (bit_xor (c * r) (d * s)) }
{
    (a as u64 * p as u64 ^ b as u64 * q as u64) ^ (c as u64 * r as u64 ^ d as u64 * s as u64)
}

// The product of two polynomials.
pub fn multiply(x: u32, y: u32) -> u64
    ensures { result ≡ clmul 32 x y }
{
    let a = x & 0x1111_1111;
    let b = x & 0x2222_2222;
    let c = x & 0x4444_4444;
    let d = x & 0x8888_8888;
    let p = y & 0x1111_1111;
    let q = y & 0x2222_2222;
    let r = y & 0x4444_4444;
    let s = y & 0x8888_8888;
    let z0 = column(a, b, c, d, p, s, r, q) & 0x1111_1111_1111_1111;
    let z1 = column(a, b, c, d, q, p, s, r) & 0x2222_2222_2222_2222;
    let z2 = column(a, b, c, d, r, q, p, s) & 0x4444_4444_4444_4444;
    let z3 = column(a, b, c, d, s, r, q, p) & 0x8888_8888_8888_8888;
    (z0 ^ z1) ^ (z2 ^ z3)
}
