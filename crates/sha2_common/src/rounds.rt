// SPDX-License-Identifier: MIT
// A block: the message schedule and the rounds, FIPS 180-4, section 6.2.2 and 6.4.2.
ghost use Rattle.std.specs.Prelude.{◌≡◌, ℕ, ◌+◌, ◌-◌, ◌*◌, ◌/◌, ◌%◌, ◌<◌, ◌≤◌, List, length, take, drop, get_or, set};
ghost use Rattle.octets.specs.Octets.{number, bytes, pasted};
ghost use Rattle.sha2_common.specs.Sha2.{Params, Ch, Maj, Σ0, Σ1, σ0, σ1, add, words, schedule, round, rounds, adds, compress, joined};
ghost use Rattle.sha2_common.specs.Inner.Rounds.{Halfway};
ghost use Rattle.sha2_common.specs.Inner.Words.{words_of};

use crate::running::Value;

// A word of the hash, and what tells one hash of the family from another.
pub trait Word<const BLOCK: usize, const DIGEST: usize>: Copy {
    // The words of a message schedule.
    type Schedule: Drop;

    // The parameters, and the numbers that a word and a schedule are.
    ghost params: { Params };

    ghost value: { Self → ℕ };

    ghost listed: { Self.Schedule → List ℕ };

    // The rounds for each block.
    const TURNS: usize;

    ghost TURNS: { ℕ };

    // The constant of the round t, and the word i of the initial hash value.
    fn constant(t: usize) -> Self
        requires { t < TURNS }
        ensures { value result ≡ get_or params.constants t 0 };

    fn initial(i: usize) -> Self
        requires { i < 8 }
        ensures { value result ≡ get_or params.initial i 0 };

    fn add(self, other: Self) -> Self
        ensures { value result ≡ add params (value self) (value other) };

    fn ch(self, y: Self, z: Self) -> Self
        ensures { value result ≡ Ch params (value self) (value y) (value z) };

    fn maj(self, y: Self, z: Self) -> Self
        ensures { value result ≡ Maj params (value self) (value y) (value z) };

    fn big_sigma0(self) -> Self
        ensures { value result ≡ Σ0 params (value self) };

    fn big_sigma1(self) -> Self
        ensures { value result ≡ Σ1 params (value self) };

    fn small_sigma0(self) -> Self
        ensures { value result ≡ σ0 params (value self) };

    fn small_sigma1(self) -> Self
        ensures { value result ≡ σ1 params (value self) };

    // The word i of a block.
    fn read(block: &[u8; BLOCK], i: usize) -> Self
        requires { i < 16 }
        ensures { value result ≡ number params.size (drop (params.size * i) block.now) };

    // Writes the word i of a digest.
    fn write(self, out: &mut [u8; DIGEST], i: usize)
        requires { i < 8 }
        ensures { out.new ≡ pasted out.old (params.size * i) (bytes params.size (value self)) };

    fn schedule() -> Self::Schedule
        ensures { length (listed result) ≡ TURNS };

    fn get(w: &Self::Schedule, t: usize) -> Self
        requires { t < length (listed w.now) }
        ensures { value result ≡ get_or (listed w.now) t 0 };

    fn set(w: &mut Self::Schedule, t: usize, x: Self)
        requires { t < length (listed w.old) }
        ensures { listed w.new ≡ set (listed w.old) t (value x) };

    ghost sizes: { (params.block ≡ BLOCK) × (8 * params.size ≡ DIGEST) × (0 < DIGEST) × (DIGEST ≤ BLOCK) × (64 ≤ BLOCK) × (BLOCK ≤ 128) × (params.field ≡ BLOCK / 8) };

    ghost turns: { (params.turns ≡ TURNS) × (TURNS % 4 ≡ 0) × (16 ≤ TURNS) × (TURNS ≤ 80) };

    ghost initial_length: { length params.initial ≡ 8 };
}

// Eight words: a hash value, or the working variables a to h.
#[derive(Clone, Copy)]
pub struct Words<W> {
    pub a: W,
    pub b: W,
    pub c: W,
    pub d: W,
    pub e: W,
    pub f: W,
    pub g: W,
    pub h: W,
}

// One round, with the constant k and the word w.
fn round<W: Word<BLOCK, DIGEST>, const BLOCK: usize, const DIGEST: usize>(
    v: Words<W>,
    k: W,
    w: W,
) -> Words<W>
    ensures { words_of W.value result ≡ round W.params (words_of W.value v) (W.value k) (W.value w) }
{
    let sum = v.h.add(v.e.big_sigma1()).add(v.e.ch(v.f, v.g));
    let t1 = sum.add(k).add(w);
    let t2 = v.a.big_sigma0().add(v.a.maj(v.b, v.c));
    Words {
        a: t1.add(t2),
        b: v.a,
        c: v.b,
        d: v.c,
        e: v.d.add(t1),
        f: v.e,
        g: v.f,
        h: v.g,
    }
}

// The round t.
fn step<W: Word<BLOCK, DIGEST>, const BLOCK: usize, const DIGEST: usize>(
    v: Words<W>,
    w: &W::Schedule,
    t: usize,
) -> Words<W>
    requires { (t < W.TURNS) × (length (W.listed w.now) ≡ W.TURNS) }
    ensures { (h : List ℕ) → words_of W.value v ≡ rounds W.params (W.listed w.now) t h → words_of W.value result ≡ rounds W.params (W.listed w.now) (t + 1) h }
{
    round(v, W::constant(t), W::get(w, t))
}

// The rounds t to t + 3.
fn four<W: Word<BLOCK, DIGEST>, const BLOCK: usize, const DIGEST: usize>(
    v: Words<W>,
    w: &W::Schedule,
    t: usize,
) -> Words<W>
    requires { (t + 4 ≤ W.TURNS) × (length (W.listed w.now) ≡ W.TURNS) }
    ensures { (h : List ℕ) → words_of W.value v ≡ rounds W.params (W.listed w.now) t h → words_of W.value result ≡ rounds W.params (W.listed w.now) (t + 4) h }
{
    let v1 = step(v, w, t);
    let v2 = step(v1, w, t + 1);
    let v3 = step(v2, w, t + 2);
    step(v3, w, t + 3)
}

// Puts the words of a block at the front of w.
fn load<W: Word<BLOCK, DIGEST>, const BLOCK: usize, const DIGEST: usize>(
    w: &mut W::Schedule,
    block: &[u8; BLOCK],
)
    requires { length (W.listed w.old) ≡ W.TURNS }
    ensures { (length (W.listed w.new) ≡ W.TURNS) × (take 16 (W.listed w.new) ≡ words W.params 16 block.now) }
{
    for i in 0..16 {
        W::set(w, i, W::read(block, i));
    }
}

// The next word of the message schedule, from those 2, 7, 15 and 16 before it.
fn next_word<W: Word<BLOCK, DIGEST>, const BLOCK: usize, const DIGEST: usize>(
    w2: W,
    w7: W,
    w15: W,
    w16: W,
) -> W
    ensures { W.value result ≡ add W.params (add W.params (add W.params (σ1 W.params (W.value w2)) (W.value w7)) (σ0 W.params (W.value w15))) (W.value w16) }
{
    w2.small_sigma1().add(w7).add(w15.small_sigma0()).add(w16)
}

// Word t + 16 of the message schedule, after the round t.
fn extend<W: Word<BLOCK, DIGEST>, const BLOCK: usize, const DIGEST: usize>(
    w: &mut W::Schedule,
    t: usize,
)
    requires { (t + 16 < W.TURNS) × (length (W.listed w.old) ≡ W.TURNS) }
    ensures { (length (W.listed w.new) ≡ W.TURNS) × ((b h v : List ℕ) → take (t + 16) (W.listed w.old) ≡ schedule W.params t b → v ≡ rounds W.params (W.listed w.old) (t + 1) h → Halfway W.params b h (t + 1) (W.listed w.new) v) }
{
    let x = next_word(
        W::get(w, t + 14),
        W::get(w, t + 9),
        W::get(w, t + 1),
        W::get(w, t),
    );
    W::set(w, t + 16, x);
}

// The rounds t to t + 3, and with each the word of the schedule that is 16 further on.
fn four_grown<W: Word<BLOCK, DIGEST>, const BLOCK: usize, const DIGEST: usize>(
    v: Words<W>,
    w: &mut W::Schedule,
    t: usize,
) -> Words<W>
    requires { (t + 20 ≤ W.TURNS) × (length (W.listed w.old) ≡ W.TURNS) }
    ensures { (length (W.listed w.new) ≡ W.TURNS) × ((b h : List ℕ) → Halfway W.params b h t (W.listed w.old) (words_of W.value v) → Halfway W.params b h (t + 4) (W.listed w.new) (words_of W.value result)) }
{
    let v1 = step(v, w, t);
    extend::<W, BLOCK, DIGEST>(w, t);
    let v2 = step(v1, w, t + 1);
    extend::<W, BLOCK, DIGEST>(w, t + 1);
    let v3 = step(v2, w, t + 2);
    extend::<W, BLOCK, DIGEST>(w, t + 2);
    let v4 = step(v3, w, t + 3);
    extend::<W, BLOCK, DIGEST>(w, t + 3);
    v4
}

// All rounds but the last sixteen, and the whole message schedule.
fn first_rounds<W: Word<BLOCK, DIGEST>, const BLOCK: usize, const DIGEST: usize>(
    h: Words<W>,
    w: &mut W::Schedule,
) -> Words<W>
    requires { length (W.listed w.old) ≡ W.TURNS }
    ensures { (length (W.listed w.new) ≡ W.TURNS) × ((b : List ℕ) → take 16 (W.listed w.old) ≡ words W.params 16 b → Halfway W.params b (words_of W.value h) (W.TURNS - 16) (W.listed w.new) (words_of W.value result)) }
{
    let mut v = h;
    for i in 0..(W::TURNS - 16) / 4 {
        v = four_grown(v, w, 4 * i);
    }
    v
}

// The last sixteen rounds.
fn last_rounds<W: Word<BLOCK, DIGEST>, const BLOCK: usize, const DIGEST: usize>(
    u: Words<W>,
    w: &W::Schedule,
) -> Words<W>
    requires { length (W.listed w.now) ≡ W.TURNS }
    ensures { (h : List ℕ) → words_of W.value u ≡ rounds W.params (W.listed w.now) (W.TURNS - 16) h → words_of W.value result ≡ rounds W.params (W.listed w.now) W.TURNS h }
{
    let mut v = u;
    for i in 0..4 {
        v = four(v, w, W::TURNS - 16 + 4 * i);
    }
    v
}

// The sums of the words of x and y.
fn sums<W: Word<BLOCK, DIGEST>, const BLOCK: usize, const DIGEST: usize>(
    x: Words<W>,
    y: Words<W>,
) -> Words<W>
    ensures { words_of W.value result ≡ adds W.params (words_of W.value x) (words_of W.value y) }
{
    Words {
        a: x.a.add(y.a),
        b: x.b.add(y.b),
        c: x.c.add(y.c),
        d: x.d.add(y.d),
        e: x.e.add(y.e),
        f: x.f.add(y.f),
        g: x.g.add(y.g),
        h: x.h.add(y.h),
    }
}

impl<W: Word<BLOCK, DIGEST>, const BLOCK: usize, const DIGEST: usize> Value<BLOCK, DIGEST>
    for Words<W> {
    ghost params = { W.params };

    ghost words = { words_of W.value };

    ghost sizes = { W.sizes };

    fn initial() -> Words<W> {
        Words {
            a: W::initial(0),
            b: W::initial(1),
            c: W::initial(2),
            d: W::initial(3),
            e: W::initial(4),
            f: W::initial(5),
            g: W::initial(6),
            h: W::initial(7),
        }
    }

    fn compress(self, block: &[u8; BLOCK]) -> Words<W> {
        let mut w = W::schedule();
        load::<W, BLOCK, DIGEST>(&mut w, block);
        let u = first_rounds(self, &mut w);
        sums(self, last_rounds(u, &w))
    }

    fn digest(self) -> [u8; DIGEST] {
        let mut out = [0u8; DIGEST];
        self.a.write(&mut out, 0);
        self.b.write(&mut out, 1);
        self.c.write(&mut out, 2);
        self.d.write(&mut out, 3);
        self.e.write(&mut out, 4);
        self.f.write(&mut out, 5);
        self.g.write(&mut out, 6);
        self.h.write(&mut out, 7);
        out
    }
}
