// SPDX-License-Identifier: MIT
// The key schedule (FIPS 197 §5.2), one for every way to make SubWord.
ghost use Rattle.std.specs.Prelude.{◌≡◌, ◌+◌, ◌*◌, ◌%◌, ◌≤◌, ◌<◌, length, take};
ghost use Rattle.aes_tables.specs.Inner.Tables.{RconTable};
ghost use Rattle.aes.specs.Aes.{KeySize, Nk, Nr, rcon, sub_word, transformed, expansion, key_expansion};
ghost use Rattle.aes.specs.Inner.Schedule.{max_words};

// The words of the longest key schedule: four for each of 14 rounds, and four before the first.
pub const WORDS: usize = 4 * (14 + 1);

// A key schedule: as many words as the key asks for, then zeros.
pub type Words = [u32; WORDS];

// A way to make SubWord: by the table of the S-box, or by its circuit.
pub trait SubWord {
    fn sub_word(&self, w: u32) -> u32
        ensures { result ≡ sub_word w };
}

// Round constant j, from the table of them.
pub fn round_constant(r: &[u8; 10], j: usize) -> u32
    requires rcon_table { RconTable r.now }
    requires le_j { (1 ≤ j) × (j ≤ 10) }
    ensures { result ≡ rcon j }
{
    r[j - 1] as u32 * 0x100_0000
}

// Writes the key as the first words.
pub fn take_key(x: &mut Words, key: &[u8])
    requires { KeySize (length key.now) }
    ensures { (length x.new ≡ max_words) × (take (Nk key.now) x.new ≡ expansion (Nk key.now) key.now (Nk key.now)) }
{
    let nk = key.len() / 4;
    for i in 0..nk {
        x[i] = octets::read_be32(&key[4 * i..]);
    }
}

// Where a word stands, as word j * nk + m.
#[derive(Clone, Copy)]
pub struct Place {
    pub j: usize,
    pub m: usize,
}

// Two words on.
pub fn two_on(nk: usize, p: Place) -> Place
    requires { (p.m + 2 ≤ nk) × (p.m % 2 ≡ 0) × (nk ≤ 8) × (p.j ≤ 10) }
    ensures { (result.j * nk + result.m ≡ p.j * nk + p.m + 2) × (result.m < nk) × (result.m % 2 ≡ 0) × (p.j ≤ result.j) }
{
    if p.m + 2 == nk {
        return Place { j: p.j + 1, m: 0 };
    }
    Place { j: p.j, m: p.m + 2 }
}

// What the word before word j * nk + m, which is w, becomes before it is added to the one nk words back.
fn transform<S: SubWord>(s: &S, rc: &[u8; 10], nk: usize, j: usize, m: usize, w: u32) -> u32
    requires rcon_table { RconTable rc.now }
    requires m_lt_nk { (m < nk) × (1 ≤ j) × (j ≤ 10) }
    ensures { result ≡ transformed nk (j * nk + m) w }
{
    if m == 0 {
        let turned = w % 0x100_0000 * 0x100 + w / 0x100_0000;
        return s.sub_word(turned) ^ round_constant(rc, j);
    }
    if 6 < nk {
        if m == 4 {
            return s.sub_word(w);
        }
    }
    w
}

// Writes the words behind the key, two at a time: as nk is even, the second of two is a plain sum.
fn extend<S: SubWord>(s: &S, x: &mut Words, key: &[u8])
    requires key_size { KeySize (length key.now) }
    requires x_value { take (Nk key.now) x.old ≡ expansion (Nk key.now) key.now (Nk key.now) }
    ensures { (length x.new ≡ max_words) × (take (4 * (Nr key.now + 1)) x.new ≡ key_expansion key.now) }
{
    let rc = aes_tables::round_constants();
    let nk = key.len() / 4;
    let n = 4 * (nk + 7);
    let mut w = x[nk - 1];
    let mut p = Place { j: 1, m: 0 };
    for k in 0..(n - nk) / 2 {
        let i = nk + 2 * k;
        let v = x[i - nk] ^ transform(s, &rc, nk, p.j, p.m, w);
        x[i] = v;
        w = x[i + 1 - nk] ^ v;
        x[i + 1] = w;
        p = two_on(nk, p);
    }
}

// The key schedule of a key.
pub fn words<S: SubWord>(s: &S, key: &[u8]) -> Words
    requires { KeySize (length key.now) }
    ensures { (length result ≡ max_words) × (take (4 * (Nr key.now + 1)) result ≡ key_expansion key.now) }
{
    let mut x = [0u32; WORDS];
    take_key(&mut x, key);
    extend(s, &mut x, key);
    x
}
