// SPDX-License-Identifier: MIT
// The frame reader: what a frame's header says, with a reference to the caller's frame, whose parts it hands out as slices.
// Its functions are thin: each takes it apart and calls one on the slice and the number. `kid_of` and those below it have
// plain parameters, for every other caller.
#![tactic(auto)]

ghost use Rattle.std.specs.Prelude.{◌≡◌, take, drop};
ghost use Rattle.header.specs.Header.{read_header};
ghost use Rattle.header.specs.Answers.{read_kid, read_ctr, read_length};
ghost use Rattle.frame.specs.Frame.{header_bytes, after_header};

use header::{Ctr, Header, Kid};

// What a header says, with its length: all three 0 where it is refused.
#[derive(Clone, Copy)]
pub struct Fields {
    pub kid: Kid,
    pub ctr: Ctr,
    pub length: usize,
}

// A frame, with what its header says. A length of 0 means that the header is refused: no Option, as each function below answers for
// any frame.
#[derive(Clone, Copy)]
pub struct FrameReader<'a> {
    pub kid: Kid,
    pub ctr: Ctr,
    pub length: usize,
    pub frame: &'a [u8],
}

// What the header at the front of some bytes says.
pub fn fields_of(bytes: &[u8]) -> Fields
    ensures { (result.kid.0 ≡ read_kid (read_header bytes.now)) × (result.ctr.0 ≡ read_ctr (read_header bytes.now)) × (result.length ≡ read_length (read_header bytes.now)) }
{
    match header::read_header(bytes) {
        Some(Header { kid, ctr, length }) => Fields { kid, ctr, length },
        None => Fields {
            kid: Kid(0),
            ctr: Ctr(0),
            length: 0,
        },
    }
}

// The first n bytes, or all of fewer.
fn front(s: &[u8], n: usize) -> &[u8]
    ensures { result.now ≡ take n s.now }
{
    if s.len() < n {
        return s;
    }
    &s[..n]
}

// The bytes after the first n.
fn after(s: &[u8], n: usize) -> &[u8]
    ensures { result.now ≡ drop n s.now }
{
    if s.len() < n {
        return &s[..0];
    }
    &s[n..]
}

impl<'a> FrameReader<'a> {
    // Reads the header of a frame, and keeps the frame.
    pub fn new(frame: &'a [u8]) -> FrameReader<'a>
        ensures { (result.kid.0 ≡ read_kid (read_header frame.now)) × (result.ctr.0 ≡ read_ctr (read_header frame.now)) × (result.length ≡ read_length (read_header frame.now)) × (result.frame ≡ frame.entry) }
    {
        let f = fields_of(frame);
        FrameReader {
            kid: f.kid,
            ctr: f.ctr,
            length: f.length,
            frame,
        }
    }

    pub fn kid(self) -> Kid
        ensures { result ≡ self.entry.kid }
    {
        self.kid
    }

    pub fn ctr(self) -> Ctr
        ensures { result ≡ self.entry.ctr }
    {
        self.ctr
    }

    // The header's bytes.
    pub fn header(self) -> &'a [u8]
        ensures { result.now ≡ take self.entry.length self.entry.frame.now }
    {
        front(self.frame, self.length)
    }

    // The bytes after the header.
    pub fn rest(self) -> &'a [u8]
        ensures { result.now ≡ drop self.entry.length self.entry.frame.now }
    {
        after(self.frame, self.length)
    }
}

// The KID of a frame, or 0 where its header is refused.
pub fn kid_of(frame: &[u8]) -> Kid
    ensures { result.0 ≡ read_kid (read_header frame.now) }
{
    FrameReader::new(frame).kid()
}

// The counter of a frame, or 0 where its header is refused.
pub fn ctr_of(frame: &[u8]) -> Ctr
    ensures { result.0 ≡ read_ctr (read_header frame.now) }
{
    FrameReader::new(frame).ctr()
}

// The header of a frame: no bytes where it is refused.
pub fn header_of(frame: &[u8]) -> &[u8]
    ensures { result.now ≡ header_bytes frame.now }
{
    FrameReader::new(frame).header()
}

// What follows the header of a frame: the whole frame where the header is refused.
pub fn rest_of(frame: &[u8]) -> &[u8]
    ensures { result.now ≡ after_header frame.now }
{
    FrameReader::new(frame).rest()
}
