// SPDX-License-Identifier: MIT
// What the programs of vectors share: a count of cases, and text in hexadecimal.
#![tactic(auto)]

ghost use Rattle.std.specs.Prelude.{◌≡◌, ◌≤◌, Some, None, MatchOption, length, drop};
ghost use Rattle.vector_text.specs.Text.{one_more, digit, number, after_number, byte, spelt};

use std::num::wrapping_add_u64;

// How many cases came out right, and how many wrong.
#[derive(Clone, Copy)]
pub struct Tally {
    pub right: u64,
    pub wrong: u64,
}

impl Tally {
    pub fn new() -> Tally
        ensures right { result.right ≡ 0 }
        ensures wrong { result.wrong ≡ 0 }
    {
        Tally { right: 0, wrong: 0 }
    }

    // One case more.
    pub fn plus(self, ok: bool) -> Tally
        ensures { result ≡ one_more ok self }
    {
        if ok {
            Tally {
                right: wrapping_add_u64(self.right, 1),
                ..self
            }
        } else {
            Tally {
                wrong: wrapping_add_u64(self.wrong, 1),
                ..self
            }
        }
    }
}

// The value of a hexadecimal digit, in lower case.
pub fn digit(b: u8) -> Option<u8>
    ensures { result ≡ digit b }
{
    match b {
        b'0'..=b'9' => Some(b - b'0'),
        b'a'..=b'f' => Some(b - b'a' + 10),
        _ => None,
    }
}

// The number that a text begins with, of which the lowest 64 bits are kept, and what follows its digits.
pub fn number(text: &[u8]) -> (u64, &[u8])
    ensures value { result.0 ≡ number 0 text.now }
    ensures rest { result.1.now ≡ after_number text.now }
{
    let mut value = 0;
    let mut rest = text;
    while let Some((b, after)) = rest.split_first() {
        let Some(d) = digit(*b) else {
            break;
        };
        value = value % 0x1000_0000_0000_0000 * 16 + u64::from(d);
        rest = after;
    }
    (value, rest)
}

// The byte that two digits at the front of a text are, and what follows them.
fn byte(text: &[u8]) -> Option<(u8, &[u8])>
    ensures { MatchOption result (byte text.now ≡ None) (λ r. (byte text.now ≡ Some r.0) × (r.1.now ≡ drop 2 text.now)) }
{
    let [a, b, rest @ ..] = text else {
        return None;
    };
    Some((digit(*a)? * 16 + digit(*b)?, rest))
}

// The bytes that a text begins with, two digits each, as far as they go and the room for them: they are at the room's front.
pub fn bytes<'a>(text: &[u8], room: &'a mut [u8]) -> &'a [u8]
    ensures spelt { result.now ≡ spelt (length room.old) text.now }
    ensures fits { length result.now ≤ length room.old }
{
    let mut filled = 0;
    let mut rest = text;
    for place in room.iter_mut() {
        let Some((b, after)) = byte(rest) else {
            break;
        };
        *place = b;
        rest = after;
        filled += 1;
    }
    &room[..filled]
}
