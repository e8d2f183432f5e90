// SPDX-License-Identifier: MIT
// Sealing a frame. The causes are tried in the order 1, 6, 7, 8, 9, 12.
#![tactic(auto)]

ghost use Rattle.std.specs.Prelude.{◌≡◌, true, ◌++◌, ◌+◌, ◌≤◌, length, drop};
ghost use Rattle.header.specs.Header.{max_header};
ghost use Rattle.answers.specs.Answers.{done, first};
ghost use Rattle.answers.specs.Refusals.{number_of, written_of};
ghost use Rattle.answers.specs.Limits.{max_plaintext, max_metadata};
ghost use Rattle.suites.specs.Suites.{Nt};
ghost use Rattle.suites.specs.Derivation.{nonce};
ghost use Rattle.aead.specs.Aead.{encrypt};
ghost use Rattle.key_record.specs.Layout.{decode};
ghost use Rattle.key_record.specs.Record.{is_sending, suite_of, salt_of, key_of, counter_of};
ghost use Rattle.store.specs.Sframe.{sframe};
ghost use Rattle.key_record.specs.Inner.Rows.{Row, Numbered, counter_left};
ghost use Rattle.judge_seal.specs.Seal.{causes_of_seal, next_frame, seal};

use answers::Refusal;
use header::{Kid, MAX_HEADER};
use suites::sizes::Suite;

// Fills out with ciphertext and tag under the key and the next counter of a sending record.
fn encrypt_next(
    row: &[u8],
    suite: Suite,
    head: &[u8],
    metadata: &[u8],
    plaintext: &[u8],
    out: &mut [u8],
)
    requires row { (Row row.now) × (is_sending (decode row.now) ≡ true) × (Numbered suite (suite_of (decode row.now))) × (counter_left (decode row.now) ≡ true) }
    requires head_len_bound { (length head.now ≤ max_header) × (length metadata.now ≤ max_metadata) × (length plaintext.now ≤ max_plaintext) }
    requires out_len { length out.old ≡ length plaintext.now + Nt suite }
    ensures { out.new ≡ encrypt suite (key_of (decode row.now)) (nonce (salt_of (decode row.now)) (counter_of (decode row.now))) (head.now ++ metadata.now) plaintext.now }
{
    let ctr = key_record::row::next_of(row);
    let nonce = suites::derivation::nonce_of(key_record::row::salt_of(row), ctr);
    let key = key_record::row::key_of(row, suite);
    ciphers::encrypt(suite, key, &nonce, head, metadata, plaintext, out);
}

// Writes a record's next frame to the front of the room, where nothing is against it.
fn write_frame(row: &[u8], kid: Kid, metadata: &[u8], plaintext: &[u8], room: &mut [u8]) -> usize
    requires row { Row row.now }
    requires room_value { first (causes_of_seal true (decode row.now) kid.0 (length metadata.now) (length plaintext.now) 0 (length room.old)) ≡ done }
    ensures value { result ≡ length (next_frame sframe (decode row.now) kid.0 metadata.now plaintext.now) }
    ensures room_after { room.new ≡ next_frame sframe (decode row.now) kid.0 metadata.now plaintext.now ++ drop result room.old }
{
    let suite = key_record::row::suite_of(row);
    let mut head = [0u8; MAX_HEADER];
    let n = judge_seal::write_next(row, kid, &mut head);
    let end = n + (plaintext.len() + suite.tag_size());
    octets::copy(room, &head[0..n]);
    encrypt_next(
        row,
        suite,
        &head[0..n],
        metadata,
        plaintext,
        &mut room[n..end],
    );
    end
}

// Seals a plaintext with the key of a KID: the frame stands at the front of the room. The counter is counted up once
// everything has been checked. Any number may be given for the place where the record is believed to stand.
pub fn seal(
    store: &mut [u8],
    kid: Kid,
    place: usize,
    metadata: &[u8],
    plaintext: &[u8],
    room: &mut [u8],
) -> Result<usize, Refusal>
    ensures number_value { (number_of result ≡ (seal sframe store.old kid.0 metadata.now plaintext.now 0 room.old).number) × (written_of result ≡ (seal sframe store.old kid.0 metadata.now plaintext.now 0 room.old).written) }
    ensures store_after { store.new ≡ (seal sframe store.old kid.0 metadata.now plaintext.now 0 room.old).store }
    ensures room_after { room.new ≡ (seal sframe store.old kid.0 metadata.now plaintext.now 0 room.old).room }
{
    if !store::is_sound(store) {
        return Err(Refusal::StoreInvalid);
    }
    let i = store::find_near(store, kid, place).ok_or(Refusal::KidMissing)?;
    judge_seal::judge(
        store::row_at(store, i),
        kid,
        metadata.len(),
        plaintext.len(),
        room.len(),
    )?;
    let length = write_frame(store::row_at(store, i), kid, metadata, plaintext, room);
    store::advance_at(store, i);
    Ok(length)
}

// Seals with the frame at an offset in the room: the part from there on is lent to seal, and none of it where the offset lies
// past the end.
pub fn seal_at(
    store: &mut [u8],
    kid: Kid,
    place: usize,
    metadata: &[u8],
    plaintext: &[u8],
    room: &mut [u8],
    offset: usize,
) -> Result<usize, Refusal>
    ensures number_value { (number_of result ≡ (seal sframe store.old kid.0 metadata.now plaintext.now offset room.old).number) × (written_of result ≡ (seal sframe store.old kid.0 metadata.now plaintext.now offset room.old).written) }
    ensures store_after { store.new ≡ (seal sframe store.old kid.0 metadata.now plaintext.now offset room.old).store }
    ensures room_after { room.new ≡ (seal sframe store.old kid.0 metadata.now plaintext.now offset room.old).room }
{
    let from = octets::min(offset, room.len());
    seal(store, kid, place, metadata, plaintext, &mut room[from..])
}
