// SPDX-License-Identifier: MIT
// Big-endian numbers in bytes, and copying, clearing, comparing and combining slices of bytes.
#![tactic(auto)]

ghost use Rattle.std.specs.Prelude.{◌≡◌, ◌++◌, ◌+◌, ◌*◌, ◌-◌, ◌^◌, ◌≤◌, ◌<◌, min, length, take, drop, replicate};
ghost use Rattle.octets.specs.Octets.{number, bytes, pasted, same, xors};

// The number in the first n bytes of b, which may be 0 to 8.
pub fn read_be(b: &[u8], n: usize) -> u64
    requires { (n ≤ 8) × (n ≤ length b.now) }
    ensures { (result ≡ number n b.now) × (result < 256 ^ n) }
{
    let mut x = 0;
    for d in &b[..n] {
        x = x * 256 + u64::from(*d);
    }
    x
}

// Writes the lowest n bytes of x to the front of out.
pub fn write_be(out: &mut [u8], n: usize, x: u64)
    requires { n ≤ length out.old }
    ensures { out.new ≡ bytes n x ++ drop n out.old }
{
    let mut rest = x;
    for i in (0..n).rev() {
        out[i] = (rest % 256) as u8;
        rest /= 256;
    }
}

// The smaller of two numbers. An offset into a slice comes to the slice's end where it lies past it.
pub fn min(a: usize, b: usize) -> usize
    ensures { result ≡ min a b }
{
    if b < a { b } else { a }
}

// Writes the lowest n bytes of x over out from index i on.
pub fn write_be_at(out: &mut [u8], i: usize, n: usize, x: u64)
    requires { i + n ≤ length out.old }
    ensures { out.new ≡ pasted out.old i (bytes n x) }
{
    write_be(&mut out[i..], n, x);
}

// Writes src over out from index i on.
pub fn copy_at(out: &mut [u8], i: usize, src: &[u8])
    requires { i + length src.now ≤ length out.old }
    ensures { out.new ≡ pasted out.old i src.now }
{
    copy(&mut out[i..], src);
}

// The number in the first 4 bytes of b.
pub fn read_be32(b: &[u8]) -> u32
    requires { 4 ≤ length b.now }
    ensures { result ≡ number 4 b.now }
{
    u32::from_be_bytes([b[0], b[1], b[2], b[3]])
}

// The number in the first 8 bytes of b.
pub fn read_be64(b: &[u8]) -> u64
    requires { 8 ≤ length b.now }
    ensures { result ≡ number 8 b.now }
{
    u64::from_be_bytes([b[0], b[1], b[2], b[3], b[4], b[5], b[6], b[7]])
}

// Writes x as 4 bytes to the front of out. Beside `write_be64`, as no trait of the library has `to_be_bytes`.
pub fn write_be32(out: &mut [u8], x: u32)
    requires { 4 ≤ length out.old }
    ensures { out.new ≡ bytes 4 x ++ drop 4 out.old }
{
    copy(out, &x.to_be_bytes());
}

// Writes x as 8 bytes to the front of out.
pub fn write_be64(out: &mut [u8], x: u64)
    requires { 8 ≤ length out.old }
    ensures { out.new ≡ bytes 8 x ++ drop 8 out.old }
{
    copy(out, &x.to_be_bytes());
}

// Copies src to the front of out. A loop, since the library's `copy_from_slice` asks as it runs whether the two overlap, and
// takes `memmove` from outside where this takes `memcpy`.
pub fn copy(out: &mut [u8], src: &[u8])
    requires { length src.now ≤ length out.old }
    ensures { out.new ≡ src.now ++ drop (length src.now) out.old }
{
    for i in 0..src.len() {
        out[i] = src[i];
    }
}

// Sets every byte of out to zero.
pub fn clear(out: &mut [u8])
    ensures { out.new ≡ replicate (length out.old) 0 }
{
    out.fill(0);
}

// Moves the bytes of s up by n places; the last n fall off, the first n stay as they were.
pub fn move_up(s: &mut [u8], n: usize)
    requires { n ≤ length s.old }
    ensures { s.new ≡ take n s.old ++ take (length s.old - n) s.old }
{
    let rest = s.len() - n;
    s.copy_within(..rest, n);
}

// Moves the bytes of s down by n places; the first n fall off, the last n stay as they were.
pub fn move_down(s: &mut [u8], n: usize)
    requires { n ≤ length s.old }
    ensures { s.new ≡ drop n s.old ++ drop (length s.old - n) s.old }
{
    s.copy_within(n.., 0);
}

// Whether a and b hold the same bytes. Where the lengths agree, every byte is looked at, whatever
// the bytes before it were.
pub fn equal(a: &[u8], b: &[u8]) -> bool
    ensures { result ≡ same a.now b.now }
{
    if a.len() != b.len() {
        return false;
    }
    let mut differ = 0;
    for i in 0..a.len() {
        differ |= a[i] ^ b[i];
    }
    differ == 0
}

// Changes each byte of out to its XOR with the byte of mask at the same index.
pub fn xor(out: &mut [u8], mask: &[u8])
    requires { length out.old ≤ length mask.now }
    ensures { out.new ≡ xors out.old mask.now }
{
    for i in 0..out.len() {
        out[i] ^= mask[i];
    }
}
