// SPDX-License-Identifier: MIT
// The state of sixteen blocks of AES in bit planes, and the steps of a round on all of them at once.
//
// A state is 32 words: word 8 r + i has bit i of row r. In a word stand the four columns of sixteen blocks, 16 lanes for
// each column, the last column in the lowest lanes. Round keys have the same form.
#![tactic(auto)]

ghost use Rattle.std.specs.Prelude.{◌≡◌, ℕ, ◌+◌, ◌*◌, ◌<◌, ◌≤◌, length};
ghost use Rattle.bitslice.specs.Lanes.{Sum, Mixed, Substituted};
ghost use Rattle.aes_rows.specs.Rows.{row_at, RowSet, Each, Substituting, Adding};
ghost use Rattle.aes_rows.specs.Rounds.{Shifted, RowMixed, RowAdded, AllMixed, AllShifted};

use bitslice::Planes;

// The words of a state, and of a round key.
pub const PLANES: usize = 32;

// A state, or a round key.
pub type Rows = [u64; PLANES];

// Row r. The functions here take slices, so that a state or a round key may be part of a longer array: the round keys that
// `aes_keys` writes are parts of a context, and a part that is lent as an array has no plain proof of what the context then holds.
pub fn load_row(q: &[u64], r: usize) -> Planes
    requires { (length q.now ≡ 32) × (r < 4) }
    ensures { result ≡ row_at q.now r }
{
    let k = 8 * r;
    Planes {
        p0: q[k + 0],
        p1: q[k + 1],
        p2: q[k + 2],
        p3: q[k + 3],
        p4: q[k + 4],
        p5: q[k + 5],
        p6: q[k + 6],
        p7: q[k + 7],
    }
}

// Writes row r.
pub fn store_row(q: &mut [u64], r: usize, p: Planes)
    requires { (length q.old ≡ 32) × (r < 4) }
    ensures { RowSet q.old r p q.new }
{
    let k = 8 * r;
    q[k + 0] = p.p0;
    q[k + 1] = p.p1;
    q[k + 2] = p.p2;
    q[k + 3] = p.p3;
    q[k + 4] = p.p4;
    q[k + 5] = p.p5;
    q[k + 6] = p.p6;
    q[k + 7] = p.p7;
}

// Changes each row by f, which takes its number too.
pub fn each_row<F: Fn(usize, Planes) -> Planes>(q: &mut [u64], f: F)
    requires sized { length q.old ≡ 32 }
    requires callable { (r : ℕ) (a : Planes) → r < 4 → F.pre f r a }
    ensures { Each (λ r a b. F.post f r a b) 4 q.old q.new }
{
    for r in 0..4 {
        let p = f(r, load_row(q, r));
        store_row(q, r, p);
    }
}

// The S-box of every byte of a row.
fn substituted(a: Planes) -> Planes
    ensures { Substituted a result }
{
    let y = bitslice::top(a);
    let t = bitslice::inverse(bitslice::products(y));
    bitslice::bottom(bitslice::scaled(t, y))
}

// SubBytes.
pub fn sub_rows(q: &mut [u64])
    requires { length q.old ≡ 32 }
    ensures { Each Substituting 4 q.old q.new }
{
    each_row(q, |_r: usize, a: Planes| substituted(a));
}

// The four rows.
#[derive(Clone, Copy)]
pub struct State {
    pub r0: Planes,
    pub r1: Planes,
    pub r2: Planes,
    pub r3: Planes,
}

// ShiftRows.
fn shifted(q: &[u64]) -> State
    requires { length q.now ≡ 32 }
    ensures { Shifted q.now result }
{
    let a = load_row(q, 0);
    let b = bitslice::turn(load_row(q, 1), 48);
    let c = bitslice::turn(load_row(q, 2), 32);
    let d = bitslice::turn(load_row(q, 3), 16);
    State {
        r0: a,
        r1: b,
        r2: c,
        r3: d,
    }
}

// Row r of MixColumns and AddRoundKey: s times x, b, t and the key.
fn mix_into(q: &mut [u64], k: &[u64], r: usize, s: Planes, b: Planes, t: Planes)
    requires { (length q.old ≡ 32) × (length k.now ≡ 32) × (r < 4) }
    ensures { RowMixed q.old k.now r s b t q.new }
{
    let p = bitslice::mix(s, b, t, load_row(k, r));
    store_row(q, r, p);
}

// ShiftRows, MixColumns and AddRoundKey. Each sum of two rows is made once and used in two.
pub fn mix(q: &mut [u64], k: &[u64])
    requires { (length q.old ≡ 32) × (length k.now ≡ 32) }
    ensures { AllMixed q.old k.now q.new }
{
    let s = shifted(q);
    let s01 = bitslice::plus(s.r0, s.r1);
    let s12 = bitslice::plus(s.r1, s.r2);
    let s23 = bitslice::plus(s.r2, s.r3);
    let s30 = bitslice::plus(s.r3, s.r0);
    mix_into(q, k, 0, s01, s.r1, s23);
    mix_into(q, k, 1, s12, s.r2, s30);
    mix_into(q, k, 2, s23, s.r3, s01);
    mix_into(q, k, 3, s30, s.r0, s12);
}

// Row r of AddRoundKey, of the row a.
fn add_into(q: &mut [u64], k: &[u64], r: usize, a: Planes)
    requires { (length q.old ≡ 32) × (length k.now ≡ 32) × (r < 4) }
    ensures { RowAdded q.old k.now r a q.new }
{
    let p = bitslice::plus(a, load_row(k, r));
    store_row(q, r, p);
}

// ShiftRows and AddRoundKey, as in the last round.
pub fn last(q: &mut [u64], k: &[u64])
    requires { (length q.old ≡ 32) × (length k.now ≡ 32) }
    ensures { AllShifted q.old k.now q.new }
{
    let s = shifted(q);
    add_into(q, k, 0, s.r0);
    add_into(q, k, 1, s.r1);
    add_into(q, k, 2, s.r2);
    add_into(q, k, 3, s.r3);
}

// AddRoundKey.
pub fn add(q: &mut [u64], k: &[u64])
    requires { (length q.old ≡ 32) × (length k.now ≡ 32) }
    ensures { Each (Adding k.now) 4 q.old q.new }
{
    each_row(q, |r: usize, a: Planes| bitslice::plus(a, load_row(k, r)));
}
