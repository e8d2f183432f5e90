// SPDX-License-Identifier: MIT
// Variable-length integers: RFC 9000, section 16, and ff with 8 bytes from 2^62 on.
ghost use Rattle.std.specs.Prelude.{◌≡◌, ◌+◌, ◌≤◌, length};
ghost use Rattle.octets.specs.Octets.{pasted};
ghost use Rattle.secure_objects.specs.Varint.{varint, varint_most};

// The most bytes of one.
pub const MAX_VARINT: usize = 9;

// The first byte of a number from 2^62 on.
const WIDE: u8 = 0xff;

// Writes x over out from index i on; where it ends is the result.
pub fn write_varint(out: &mut [u8], i: usize, x: u64) -> usize
    requires { i + varint_most ≤ length out.old }
    ensures value { (result ≡ i + length (varint x)) × (result ≤ i + varint_most) }
    ensures out_after { out.new ≡ pasted out.old i (varint x) }
{
    if x < 0x40 {
        octets::write_be_at(out, i, 1, x);
        return i + 1;
    }
    if x < 0x4000 {
        octets::write_be_at(out, i, 2, 0x4000 + x);
        return i + 2;
    }
    if x < 0x4000_0000 {
        octets::write_be_at(out, i, 4, 0x8000_0000 + x);
        return i + 4;
    }
    if x < 0x4000_0000_0000_0000 {
        octets::write_be_at(out, i, 8, 0xc000_0000_0000_0000 + x);
        return i + 8;
    }
    out[i] = WIDE;
    octets::write_be_at(out, i + 1, 8, x);
    i + MAX_VARINT
}
