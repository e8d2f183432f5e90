// SPDX-License-Identifier: MIT
// Runs the header vectors of standard input: each is written and read, or read alone, or refused, and the program
// prints for each group how many came out right and how many wrong. Each is also the front of a frame,
// whose reader must show the KID, the counter, the header and the bytes after it.
#![tactic(auto)]

use header::{Ctr, Kid};
use std::io::{self, Read};
use vector_text::Tally;

// The most bytes of standard input that are judged.
const MOST: u64 = 65536;

// The most bytes of a header that are kept, as it has 17 at most, and those of a frame.
const ROOM: usize = 32;

// What the room holds before a header is written to it.
const PATTERN: u8 = 0xa5;

// A KID, a CTR and a header as they are spelt, and the frame of that header and zeros.
#[derive(Clone, Copy)]
struct Case<'a> {
    kid: Kid,
    ctr: Ctr,
    header: &'a [u8],
    frame: &'a [u8],
}

// The groups that are counted.
#[derive(Clone, Copy)]
enum Group {
    Vectors,
    Edges,
    Longer,
    Refused,
}

#[derive(Clone, Copy)]
struct Counts {
    vectors: Tally,
    edges: Tally,
    longer: Tally,
    refused: Tally,
    frames: Tally,
}

// What follows the letter of a line and the space behind it.
fn columns(line: &[u8]) -> &[u8] {
    line.get(2..).unwrap_or(b"")
}

// The case that a line spells, with its header in a room of zeros, or None where it ends before the header's column.
fn case_of<'a>(line: &[u8], room: &'a mut [u8]) -> Option<Case<'a>> {
    let (kid, rest) = vector_text::number(columns(line));
    let (_, rest) = rest.split_first()?;
    let (ctr, rest) = vector_text::number(rest);
    let (_, rest) = rest.split_first()?;
    let length = vector_text::bytes(rest, room).len();
    Some(Case {
        kid: Kid(kid),
        ctr: Ctr(ctr),
        header: &room[..length],
        frame: room,
    })
}

// Whether every byte is the pattern.
fn untouched(s: &[u8]) -> bool {
    s.iter().all(|b| *b == PATTERN)
}

// Whether the case's header is what is written to a room of patterns, with nothing changed past it.
fn writes(case: &Case) -> bool {
    let mut room = [PATTERN; ROOM];
    let Some(n) = header::write_header(case.kid, case.ctr, &mut room) else {
        return false;
    };
    if n != case.header.len() {
        return false;
    }
    room.strip_prefix(case.header).is_some_and(untouched)
}

// Whether a room of patterns one byte shorter than the case's header is refused and left alone.
fn needs(case: &Case) -> bool {
    let mut room = [PATTERN; ROOM];
    let Some((_, most)) = case.header.split_last() else {
        return false;
    };
    let Some(short) = room.get_mut(..most.len()) else {
        return false;
    };
    header::write_header(case.kid, case.ctr, short).is_none() && untouched(&room)
}

// Whether the case's KID, CTR and length are read from the front of the bytes.
fn reads(bytes: &[u8], case: &Case) -> bool {
    let Some(read) = header::read_header(bytes) else {
        return false;
    };
    read.kid.0 == case.kid.0 && read.ctr.0 == case.ctr.0 && read.length == case.header.len()
}

// Whether the case is read from its header alone, and from its frame.
fn reads_back(case: &Case) -> bool {
    reads(case.header, case) && reads(case.frame, case)
}

// Whether the case's header is read, and written in fewer bytes.
fn longer(case: &Case) -> bool {
    let mut room = [PATTERN; ROOM];
    let Some(n) = header::write_header(case.kid, case.ctr, &mut room) else {
        return false;
    };
    n < case.header.len() && reads_back(case)
}

// Whether a frame is shown as this KID and CTR, this header and the bytes after it.
fn shows(frame: &[u8], kid: Kid, ctr: Ctr, header: &[u8]) -> bool {
    let Some(rest) = frame.strip_prefix(header) else {
        return false;
    };
    frame::kid_of(frame).0 == kid.0
        && frame::ctr_of(frame).0 == ctr.0
        && frame::header_of(frame) == header
        && frame::rest_of(frame) == rest
}

// Whether a case of a group comes out right.
fn is_right(group: Group, case: &Case) -> bool {
    match group {
        Group::Longer => longer(case),
        _ => writes(case) && needs(case) && reads_back(case),
    }
}

// Whether the bytes that a line spells are refused, and shown as a frame without a header.
fn refused(line: &[u8]) -> (bool, bool) {
    let mut room = [0u8; ROOM];
    let bytes = vector_text::bytes(columns(line), &mut room);
    (
        header::read_header(bytes).is_none(),
        shows(bytes, Kid(0), Ctr(0), b""),
    )
}

// Whether the case of a line comes out right, and whether its frame does.
fn tried(group: Group, line: &[u8]) -> (bool, bool) {
    let mut room = [0u8; ROOM];
    let Some(case) = case_of(line, &mut room) else {
        return (false, false);
    };
    (
        is_right(group, &case),
        shows(case.frame, case.kid, case.ctr, case.header),
    )
}

// The group of a line, whether its case comes out right, and whether its frame does; None for a comment.
fn judge(line: &[u8]) -> Option<(Group, bool, bool)> {
    let group = match line.first()? {
        b'v' => Group::Vectors,
        b'e' => Group::Edges,
        b'l' => Group::Longer,
        b'r' => Group::Refused,
        _ => return None,
    };
    let (right, shown) = match group {
        Group::Refused => refused(line),
        _ => tried(group, line),
    };
    Some((group, right, shown))
}

impl Counts {
    fn new() -> Counts {
        let none = Tally::new();
        Counts {
            vectors: none,
            edges: none,
            longer: none,
            refused: none,
            frames: none,
        }
    }

    // A line of a group more.
    fn count(&mut self, group: Group, right: bool, shown: bool) {
        let tally = match group {
            Group::Vectors => &mut self.vectors,
            Group::Edges => &mut self.edges,
            Group::Longer => &mut self.longer,
            Group::Refused => &mut self.refused,
        };
        *tally = tally.plus(right);
        self.frames = self.frames.plus(shown);
    }
}

fn print(rt: &impl Print, name: &str, t: Tally) -> io::Result<()> {
    println!(rt; "{name}: {} right, {} wrong", t.right, t.wrong)
}

fn main(rt: HostRuntime) -> io::Result<()> {
    let mut input = Vec::new(rt.alloc());
    rt.reader().take(MOST).read_to_end(&mut input)?;
    let mut counts = Counts::new();
    for line in input.split(|b| *b == b'\n') {
        if let Some((group, right, shown)) = judge(line) {
            counts.count(group, right, shown);
        }
    }
    print(&rt, "vectors", counts.vectors)?;
    print(&rt, "edges", counts.edges)?;
    print(&rt, "longer", counts.longer)?;
    print(&rt, "refused", counts.refused)?;
    print(&rt, "frames", counts.frames)
}
