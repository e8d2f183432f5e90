// SPDX-License-Identifier: MIT
// Key and salt of a track.
ghost use Rattle.std.specs.Prelude.{◌≡◌, ◌+◌, ◌≤◌, length};
ghost use Rattle.octets.specs.Octets.{pasted};
ghost use Rattle.sha2_common.specs.Sizes.{sha256};
ghost use Rattle.hmac.specs.Hkdf.{limit};
ghost use Rattle.hmac.specs.Limits.{largest};
ghost use Rattle.suites.specs.Suites.{Nk, Nn};
ghost use Rattle.secure_objects.specs.Derivation.{label, derived, moq_key, moq_salt};
ghost use Rattle.secure_objects.specs.Objects.{name_most};
ghost use Rattle.secure_objects.specs.Inner.Sizes.{label_size, text_most};

use crate::{MAX_NAME, TrackId};
use suites::Suite;

// The bytes of a label behind the name: the suite's number and the Key ID.
const NUMBER_SIZE: usize = 2;

const KEY_ID_SIZE: usize = 8;

// No text of a label is longer, and no label.
const MAX_TEXT: usize = 34;

const MAX_LABEL: usize = MAX_TEXT + MAX_NAME + NUMBER_SIZE + KEY_ID_SIZE;

// Writes the label of a derivation to the front of out; its length is the result.
fn write_label(out: &mut [u8], text: &[u8], suite: Suite, track: TrackId) -> usize
    requires { (label_size text.now track.name.now ≤ length out.old) × (length text.now ≤ text_most) × (length track.name.now ≤ name_most) }
    ensures value { result ≡ label_size text.now track.entry.name.now }
    ensures out_after { out.new ≡ pasted out.old 0 (label text.now suite track.entry.name.now track.entry.id.0) }
{
    let a = text.len();
    let b = a + track.name.len();
    let c = b + NUMBER_SIZE;
    octets::copy_at(out, 0, text);
    octets::copy_at(out, a, track.name);
    octets::write_be_at(out, b, NUMBER_SIZE, suite.number());
    octets::write_be_at(out, c, KEY_ID_SIZE, track.id.0);
    c + KEY_ID_SIZE
}

// Fills out with what the suite derives from the base key for a track, under the label of a text.
fn derive(suite: Suite, base: &[u8], text: &[u8], track: TrackId, out: &mut [u8])
    requires { (length base.now ≤ largest) × (length text.now ≤ text_most) × (length track.name.now ≤ name_most) × (length out.old ≤ limit sha256) }
    ensures { out.new ≡ derived text.now suite base.now track.entry.name.now track.entry.id.0 (length out.old) }
{
    let mut info = [0u8; MAX_LABEL];
    let n = write_label(&mut info, text, suite, track);
    suites::derivation::expand_label(suite, base, &info[0..n], out);
}

// Fills key with what the suite derives from the base key for a track.
pub fn derive_key(suite: Suite, base: &[u8], track: TrackId, key: &mut [u8])
    requires { (length base.now ≤ largest) × (length track.name.now ≤ name_most) × (length key.old ≡ Nk suite) }
    ensures { key.new ≡ moq_key suite base.now track.entry.name.now track.entry.id.0 }
{
    derive(
        suite,
        base,
        b"MOQ 1.0 Secure Objects Secret key ",
        track,
        key,
    );
}

// Fills salt likewise.
pub fn derive_salt(suite: Suite, base: &[u8], track: TrackId, salt: &mut [u8])
    requires { (length base.now ≤ largest) × (length track.name.now ≤ name_most) × (length salt.old ≡ Nn) }
    ensures { salt.new ≡ moq_salt suite base.now track.entry.name.now track.entry.id.0 }
{
    derive(suite, base, b"MOQ 1.0 Secret salt ", track, salt);
}
