// SPDX-License-Identifier: MIT
// Opening a frame. Each step goes on with what it finds, or returns its own refusal, in the order 1, 10, 6, 7, 11, 9,
// 12, 14, 15, 13.
#![tactic(auto)]

ghost use Rattle.std.specs.Prelude.{Some, ◌≡◌, true, false, [], ◌++◌, ◌+◌, ◌-◌, ◌≤◌, length, take, drop};
ghost use Rattle.header.specs.Header.{max_header};
ghost use Rattle.answers.specs.Refusals.{number_of, written_of};
ghost use Rattle.answers.specs.Limits.{max_plaintext, max_metadata};
ghost use Rattle.suites.specs.Suites.{Nt};
ghost use Rattle.suites.specs.Derivation.{nonce};
ghost use Rattle.aead.specs.Aead.{decrypt, is_plain, room_after};
ghost use Rattle.key_record.specs.Layout.{decode};
ghost use Rattle.key_record.specs.Record.{is_empty, is_receiving, suite_of, salt_of, key_of};
ghost use Rattle.store.specs.Sframe.{sframe};
ghost use Rattle.key_record.specs.Inner.Rows.{Row, Numbered};
ghost use Rattle.judge_open.specs.Open.{open_at, opening};

use answers::{Refusal, too_long};
use header::Header;
use suites::Suite;

// Decrypts what follows a frame's header with the key and salt of a receiving record.
fn decrypt_with(
    row: &[u8],
    suite: Suite,
    head: Header,
    metadata: &[u8],
    frame: &[u8],
    room: &mut [u8],
) -> bool
    requires row { (Row row.now) × (is_receiving (decode row.now) ≡ true) × (Numbered suite (suite_of (decode row.now))) }
    requires n_le_max_header { (head.length ≤ max_header) × (head.length + Nt suite ≤ length frame.now) }
    requires metadata_len_bound { (length metadata.now ≤ max_metadata) × (length frame.now - head.length - Nt suite ≤ max_plaintext) × (length frame.now - head.length - Nt suite ≤ length room.old) }
    ensures value { result ≡ is_plain (decrypt suite (key_of (decode row.now)) (nonce (salt_of (decode row.now)) head.ctr.0) (take head.length frame.now ++ metadata.now) (drop head.length frame.now)) }
    ensures room_after { room.new ≡ room_after (decrypt suite (key_of (decode row.now)) (nonce (salt_of (decode row.now)) head.ctr.0) (take head.length frame.now ++ metadata.now) (drop head.length frame.now)) room.old }
{
    let nonce = suites::derivation::nonce_of(key_record::row::salt_of(row), head.ctr);
    let key = key_record::row::key_of(row, suite);
    ciphers::decrypt(
        suite,
        key,
        &nonce,
        &frame[0..head.length],
        metadata,
        &frame[head.length..],
        room,
    )
}

// Opens a frame, whose header has been read, with the record that holds its KID.
fn open_with(
    row: &[u8],
    head: Header,
    metadata: &[u8],
    frame: &[u8],
    room: &mut [u8],
) -> Result<usize, Refusal>
    requires { (Row row.now) × (is_empty (decode row.now) ≡ false) × (head.length ≤ max_header) × (head.length ≤ length frame.now) }
    ensures number_value { (number_of result ≡ (open_at sframe true (Some head) (decode row.now) [] [] metadata.now frame.now room.old).number) × (written_of result ≡ (open_at sframe true (Some head) (decode row.now) [] [] metadata.now frame.now room.old).written) }
    ensures room_after { room.new ≡ (open_at sframe true (Some head) (decode row.now) [] [] metadata.now frame.now room.old).room }
{
    if !key_record::row::is_receiving(row) {
        return Err(Refusal::RoleRefused);
    }
    let suite = key_record::row::suite_of(row);
    let nt = suite.tag_size();
    let rest = frame.len() - head.length;
    if rest < nt {
        return Err(Refusal::FrameShort);
    }
    let m = rest - nt;
    if too_long(m, metadata.len()) {
        return Err(Refusal::InputTooLong);
    }
    let Some(length) = judge_open::room_for(room.len(), m) else {
        return Err(Refusal::RoomShort);
    };
    judge_open::judge_counter(row, head.ctr)?;
    if !decrypt_with(row, suite, head, metadata, frame, room) {
        return Err(Refusal::TagDiffers);
    }
    Ok(length)
}

// Opens a frame: the plaintext stands at the start of the room. Once it does, and not before, the frame's counter is noted.
pub fn open(
    store: &mut [u8],
    place: usize,
    frame: &[u8],
    metadata: &[u8],
    room: &mut [u8],
) -> Result<usize, Refusal>
    ensures number_value { (number_of result ≡ (opening sframe store.old metadata.now frame.now room.old).number) × (written_of result ≡ (opening sframe store.old metadata.now frame.now room.old).written) }
    ensures store_after { store.new ≡ (opening sframe store.old metadata.now frame.now room.old).store }
    ensures room_after { room.new ≡ (opening sframe store.old metadata.now frame.now room.old).room }
{
    if !store::is_sound(store) {
        return Err(Refusal::StoreInvalid);
    }
    let Some(head) = header::read_header(frame) else {
        return Err(Refusal::HeaderInvalid);
    };
    let Some(i) = store::find_near(store, head.kid, place) else {
        return Err(Refusal::KidMissing);
    };
    let opened = open_with(store::row_at(store, i), head, metadata, frame, room);
    let Ok(m) = opened else {
        return opened;
    };
    store::note_at(store, i, head.ctr);
    Ok(m)
}
