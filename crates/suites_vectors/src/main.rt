// SPDX-License-Identifier: MIT
// Runs the published cases of the suites from standard input, and prints for each group how many came out right and
// how many wrong.
#![tactic(auto)]

ghost use Rattle.std.specs.Prelude.{◌≡◌, length};

use header::{Ctr, Kid};
use sframe_test::cipher_suites::{
    sframe_test_derive, sframe_test_suite_decrypt, sframe_test_suite_encrypt,
};
use std::io::{self, Read};
use suites::sizes::Aes128CtrHmacSha256Tag80;
use vector_text::Tally;

// The most bytes of standard input that are judged.
const MOST: u64 = 65536;

// The bytes of a salt and of a nonce.
const NN: usize = Aes128CtrHmacSha256Tag80::NN;

// The bytes of the longest input or result.
const ROOM: usize = 80;

// What an encryption takes beside its metadata and plaintext.
#[derive(Clone, Copy)]
struct Sealing<'a> {
    suite: u64,
    key: &'a [u8],
    nonce: &'a [u8],
}

#[derive(Clone, Copy)]
struct Counts {
    aeads: Tally,
    gcms: Tally,
    keys: Tally,
    nonces: Tally,
    frames: Tally,
}

// A column of a line. Columns stand apart by one space.
fn column(line: &[u8], n: usize) -> &[u8] {
    line.split(|b| *b == b' ').nth(n).unwrap_or(b"")
}

// The number in a column of a line.
fn number(line: &[u8], n: usize) -> u64 {
    let (value, _) = vector_text::number(column(line, n));
    value
}

// The bytes in a column of a line, as far as there is room for them.
fn bytes<'a>(line: &[u8], n: usize, room: &'a mut [u8]) -> &'a [u8] {
    vector_text::bytes(column(line, n), room)
}

// Room for the longest input or result.
fn empty() -> [u8; ROOM] {
    [0u8; ROOM]
}

impl Sealing<'_> {
    // Whether encryption gives the bytes wanted.
    fn encrypts(&self, header: &[u8], metadata: &[u8], plaintext: &[u8], want: &[u8]) -> bool {
        let mut room = [0u8; ROOM];
        let Some(out) = room.get_mut(..want.len()) else {
            return false;
        };
        sframe_test_suite_encrypt(
            self.suite, self.key, self.nonce, header, metadata, plaintext, out,
        )
        .is_ok()
            && room.starts_with(want)
    }

    // Whether decryption gives the plaintext wanted.
    fn decrypts(&self, header: &[u8], metadata: &[u8], sealed: &[u8], want: &[u8]) -> bool {
        let mut room = [0u8; ROOM];
        let Some(out) = room.get_mut(..want.len()) else {
            return false;
        };
        sframe_test_suite_decrypt(
            self.suite, self.key, self.nonce, header, metadata, sealed, out,
        )
        .is_ok()
            && room.starts_with(want)
    }

    // Whether encryption and decryption give the one from the other.
    fn agrees(&self, header: &[u8], metadata: &[u8], plaintext: &[u8], sealed: &[u8]) -> bool {
        self.encrypts(header, metadata, plaintext, sealed)
            && self.decrypts(header, metadata, sealed, plaintext)
    }
}

// Whether the AEAD case of a line comes out right, both ways.
fn aead(line: &[u8]) -> bool {
    let (mut key, mut nonce) = (empty(), empty());
    let (mut aad, mut plaintext, mut sealed) = (empty(), empty(), empty());
    let sealing = Sealing {
        suite: number(line, 1),
        key: bytes(line, 2, &mut key),
        nonce: bytes(line, 3, &mut nonce),
    };
    sealing.agrees(
        b"",
        bytes(line, 4, &mut aad),
        bytes(line, 5, &mut plaintext),
        bytes(line, 6, &mut sealed),
    )
}

// Whether key and salt are derived as wanted.
fn derives(suite: u64, base: &[u8], kid: u64, key: &[u8], salt: &[u8]) -> bool {
    let mut k = [0u8; ROOM];
    let mut s = [0u8; ROOM];
    let (Some(key_out), Some(salt_out)) = (k.get_mut(..key.len()), s.get_mut(..salt.len())) else {
        return false;
    };
    sframe_test_derive(suite, base, kid, key_out, salt_out).is_ok()
        && k.starts_with(key)
        && s.starts_with(salt)
}

// Whether key and salt of a line come out right.
fn derivation(line: &[u8]) -> bool {
    let (mut base, mut key, mut salt) = (empty(), empty(), empty());
    derives(
        number(line, 1),
        bytes(line, 4, &mut base),
        number(line, 2),
        bytes(line, 5, &mut key),
        bytes(line, 6, &mut salt),
    )
}

// Whether the nonce of a line comes out right.
fn nonce(line: &[u8]) -> bool {
    let (mut salt, mut want) = (empty(), empty());
    gives(
        bytes(line, 6, &mut salt),
        Ctr(number(line, 3)),
        bytes(line, 7, &mut want),
    )
}

// Whether the nonce of a counter under a salt is the one wanted.
fn gives(salt: &[u8], ctr: Ctr, want: &[u8]) -> bool {
    if salt.len() != NN {
        return false;
    }
    suites::derivation::nonce_of(salt, ctr).as_slice() == want
}

// Whether a frame is the header of its KID and CTR, and then the encryption of the plaintext.
fn seals(
    sealing: &Sealing,
    kid: Kid,
    ctr: Ctr,
    metadata: &[u8],
    plaintext: &[u8],
    frame: &[u8],
) -> bool {
    let mut room = [0u8; ROOM];
    let Some(n) = header::write_header(kid, ctr, &mut room) else {
        return false;
    };
    let (Some(header), Some((head, sealed))) = (room.get(..n), frame.split_at_checked(n)) else {
        return false;
    };
    head == header && sealing.agrees(head, metadata, plaintext, sealed)
}

// Whether the frame of a line comes out right.
fn frame(line: &[u8]) -> bool {
    let (mut key, mut nonce) = (empty(), empty());
    let (mut metadata, mut plaintext, mut frame) = (empty(), empty(), empty());
    let sealing = Sealing {
        suite: number(line, 1),
        key: bytes(line, 5, &mut key),
        nonce: bytes(line, 7, &mut nonce),
    };
    seals(
        &sealing,
        Kid(number(line, 2)),
        Ctr(number(line, 3)),
        bytes(line, 8, &mut metadata),
        bytes(line, 9, &mut plaintext),
        bytes(line, 10, &mut frame),
    )
}

impl Counts {
    fn new() -> Counts {
        let none = Tally::new();
        Counts {
            aeads: none,
            gcms: none,
            keys: none,
            nonces: none,
            frames: none,
        }
    }

    // Judges a line: an AEAD case, a case of GCM's own, an SFrame case with its three steps, or a comment.
    fn judge(&mut self, line: &[u8]) {
        match line.first() {
            Some(b'a') => self.aeads = self.aeads.plus(aead(line)),
            Some(b'g') => self.gcms = self.gcms.plus(aead(line)),
            Some(b's') => {
                self.keys = self.keys.plus(derivation(line));
                self.nonces = self.nonces.plus(nonce(line));
                self.frames = self.frames.plus(frame(line));
            }
            _ => {}
        }
    }
}

fn print(rt: &impl Print, name: &str, t: Tally) -> io::Result<()> {
    println!(rt; "{name}: {} right, {} wrong", t.right, t.wrong)
}

fn main(rt: HostRuntime) -> io::Result<()> {
    let mut input = Vec::new(rt.alloc());
    rt.reader().take(MOST).read_to_end(&mut input)?;
    let mut counts = Counts::new();
    for line in input.split(|b| *b == b'\n') {
        counts.judge(line);
    }
    print(&rt, "D.2, encryption and decryption", counts.aeads)?;
    print(&rt, "GCM test cases, suites 4 and 5", counts.gcms)?;
    print(&rt, "D.3, key and salt", counts.keys)?;
    print(&rt, "D.3, nonce", counts.nonces)?;
    print(&rt, "D.3, frame", counts.frames)
}
