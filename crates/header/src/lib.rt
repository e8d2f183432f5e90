// SPDX-License-Identifier: MIT
// The SFrame header of RFC 9605, section 4.3: its writer and its reader.
#![tactic(auto)]

ghost use Rattle.std.specs.Prelude.{◌≡◌, ◌+◌, ◌*◌, ◌≤◌, ◌<◌, length};
ghost use Rattle.header.specs.Header.{size, flag, code, width, max_header, header, read_field, read_header, write_header};

// A value below this stands in the three bits of its field in the config byte.
const SMALL: u64 = 8;

// The longest header, in bytes.
pub const MAX_HEADER: usize = 17;

// A Key ID.
#[derive(Clone, Copy)]
pub struct Kid(pub u64);

// A counter.
#[derive(Clone, Copy)]
pub struct Ctr(pub u64);

// A field of the header as it was read: its value, and how many bytes of it follow the config byte.
#[derive(Clone, Copy)]
struct Field {
    value: u64,
    width: usize,
}

// A header as it was read, and its length in bytes.
#[derive(Clone, Copy)]
pub struct Header {
    pub kid: Kid,
    pub ctr: Ctr,
    pub length: usize,
}

// The least number of bytes that a number above 0 takes.
fn size_of(v: u64) -> usize
    ensures { (result ≡ size v) × (result ≤ 8) }
{
    8 - u64::leading_zeros(v) as usize / 8
}

// How many bytes of a field's value follow the config byte.
fn width_of(v: u64) -> usize
    ensures { (result ≡ width v) × (result ≤ 8) }
{
    if v < SMALL { 0 } else { size_of(v) }
}

// The flag and the three bits of a field whose value v has n bytes after the config byte.
fn bits_of(v: u64, n: usize) -> u8
    requires { (n ≡ width v) × (n ≤ 8) }
    ensures { (result ≡ flag v * 8 + code v) × (result < 16) }
{
    if v < SMALL { v as u8 } else { (7 + n) as u8 }
}

// Writes the header of kid and ctr to the front of out, and gives its length; None where the room is too short for it.
pub fn write_header(kid: Kid, ctr: Ctr, out: &mut [u8]) -> Option<usize>
    ensures value { result ≡ (write_header kid.0 ctr.0 0 out.old).answer }
    ensures out_after { out.new ≡ (write_header kid.0 ctr.0 0 out.old).room }
    ensures ctr_len_bound { length (header kid.0 ctr.0) ≤ max_header }
{
    let k = width_of(kid.0);
    let c = width_of(ctr.0);
    let n = 1 + k + c;
    if out.len() < n {
        return None;
    }
    out[0] = bits_of(kid.0, k) * 16 + bits_of(ctr.0, c);
    octets::write_be_at(out, 1, k, kid.0);
    octets::write_be_at(out, 1 + k, c, ctr.0);
    Some(n)
}

// Writes the header of kid and ctr at an offset in out: the part from there on is lent to write_header, and none of it where
// the offset lies past the end.
pub fn write_header_at(kid: Kid, ctr: Ctr, out: &mut [u8], offset: usize) -> Option<usize>
    ensures value { result ≡ (write_header kid.0 ctr.0 offset out.old).answer }
    ensures out_after { out.new ≡ (write_header kid.0 ctr.0 offset out.old).room }
{
    let from = octets::min(offset, out.len());
    write_header(kid, ctr, &mut out[from..])
}

// Reads a field with the flag x and the three bits k, whose bytes would stand at the front of rest; None where it is cut short.
fn read_field(x: u8, k: u8, rest: &[u8]) -> Option<Field>
    requires { k < 8 }
    ensures { result ≡ read_field x k rest.now }
{
    if x == 0 {
        return Some(Field {
            value: k as u64,
            width: 0,
        });
    }
    let n = k as usize + 1;
    if rest.len() < n {
        return None;
    }
    Some(Field {
        value: octets::read_be(rest, n),
        width: n,
    })
}

// Reads the header at the front of bytes, whatever follows it; None where it is cut short.
pub fn read_header(bytes: &[u8]) -> Option<Header>
    ensures { result ≡ read_header bytes.now }
{
    if bytes.len() == 0 {
        return None;
    }
    let b = bytes[0];
    let kid = read_field(b / 128, b / 16 % 8, &bytes[1..])?;
    let at = 1 + kid.width;
    let ctr = read_field(b / 8 % 2, b % 8, &bytes[at..])?;
    Some(Header {
        kid: Kid(kid.value),
        ctr: Ctr(ctr.value),
        length: at + ctr.width,
    })
}
