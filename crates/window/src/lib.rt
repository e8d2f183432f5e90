// SPDX-License-Identifier: MIT
// The replay window of a receiving key.
#![tactic(auto)]

ghost use Rattle.std.specs.Prelude.{◌≡◌, true, false, ◌*◌, ◌%◌, ◌^◌, ◌<◌};
ghost use Rattle.window.specs.Window.{span, bit, fits, seen, too_old, moved, opened};

// How many counters a window reaches back over.
const SPAN: u64 = 64;

// The highest counter that was opened, and bit i for the one i below it. With no bit set none was opened yet.
#[derive(Clone, Copy)]
pub struct Window {
    pub highest: u64,
    pub mask: u64,
}

// Bit i of a mask.
fn bit_of(mask: u64, i: u64) -> u64
    requires { i < span }
    ensures { result ≡ bit mask i }
{
    (mask >> i) % 2
}

// A mask moved up by d places; what passes the top is gone.
fn shifted(mask: u64, d: u64) -> u64
    ensures { result ≡ mask * 2 ^ d % 2 ^ span }
{
    if SPAN <= d {
        return 0;
    }
    mask << d
}

// Whether a window is in order.
pub fn is_sound(w: Window) -> bool
    ensures { result ≡ fits w }
{
    if w.mask == 0 {
        return w.highest == 0;
    }
    if w.mask % 2 == 0 {
        return false;
    }
    if SPAN - 1 <= w.highest {
        return true;
    }
    (w.mask >> (w.highest + 1)) == 0
}

// Whether a counter was opened.
pub fn is_seen(w: Window, ctr: u64) -> bool
    ensures { result ≡ seen w ctr }
{
    if w.highest < ctr {
        return false;
    }
    let below = w.highest - ctr;
    if SPAN <= below {
        return false;
    }
    bit_of(w.mask, below) == 1
}

// Whether a counter lies too far below the highest.
pub fn is_too_old(w: Window, ctr: u64) -> bool
    ensures { result ≡ too_old w ctr }
{
    if w.highest < ctr {
        return false;
    }
    SPAN <= w.highest - ctr
}

// The window once a counter is opened that was neither.
pub fn open(w: Window, ctr: u64) -> Window
    requires { (fits w ≡ true) × (seen w ctr ≡ false) × (too_old w ctr ≡ false) }
    ensures { result ≡ moved w ctr }
{
    if w.highest < ctr {
        let mask = shifted(w.mask, ctr - w.highest);
        return Window {
            highest: ctr,
            mask: mask + 1,
        };
    }
    let below = w.highest - ctr;
    let mask = w.mask + shifted(1, below);
    Window {
        highest: w.highest,
        mask,
    }
}

// How many of the last 64 counters were opened.
pub fn count(w: Window) -> u32
    ensures { result ≡ opened w }
{
    u64::count_ones(w.mask)
}
