// SPDX-License-Identifier: MIT
// The C interface. Each function does nothing but call the layer and hand its answer over: the
// result is the answer's number, and lengths and values go through pointers. A slice passes as a
// pointer and then a length. include/sframe.h declares what stands here.
#![tactic(auto)]

ghost use Rattle.std.specs.Prelude.{◌≡◌};
ghost use Rattle.header.specs.Header.{write_header, read_header};
ghost use Rattle.header.specs.Answers.{written_number, written_length, read_number, read_kid, read_ctr, read_length};
ghost use Rattle.std.specs.Result.{result_unwrap_or};
ghost use Rattle.answers.specs.Refusals.{number_of};
ghost use Rattle.store_calls.specs.Calls.{make, remove, find, found};
ghost use Rattle.store.specs.Sframe.{sframe};
ghost use Rattle.key_record.specs.declared.Role.TheVariants.{Sending, Receiving};
ghost use Rattle.add_key.specs.Add.{add};
ghost use Rattle.judge_seal.specs.Seal.{seal};
ghost use Rattle.judge_open.specs.Open.{opening};
ghost use Rattle.begin_seal.specs.Begin.{seal_begin};
ghost use Rattle.begin_check.specs.Check.{check_begin};
ghost use Rattle.pieces.specs.Calls.{seal_piece, seal_end, check_piece, check_end};
ghost use Rattle.report_window.specs.Report.{report, reported};
ghost use Rattle.ratchet.specs.Calls.{walk, kid_number, kid_given};
ghost use Rattle.group.specs.Group.{context_in, index_in, epoch_in, given, pack_number, packed, unpack_number};
ghost use Rattle.change_epoch.specs.Epoch.{change_epoch};

use answers::{DONE, Refusal};
use header::{Ctr, Kid};
use key_record::Role;

// Where a caller that names no place is taken to believe the record: at the front of the store.
const FRONT: usize = 0;

// The number of an answer.
fn number<T: Copy>(answer: Result<T, Refusal>) -> u32
    ensures { result ≡ number_of answer }
{
    match answer {
        Ok(_) => DONE,
        Err(refusal) => refusal.number(),
    }
}

// Hands over what a call gives, or what stands for nothing where it is refused.
fn hand_over<T: Copy>(answer: Result<T, Refusal>, nothing: T, to: &mut T) -> u32
    ensures value { result ≡ number_of answer }
    ensures after { to.new ≡ result_unwrap_or answer nothing }
{
    *to = answer.unwrap_or(nothing);
    number(answer)
}

// Hands over the length of a header that was written.
fn hand_over_length(written: Option<usize>, length: &mut usize) -> u32
    ensures value { result ≡ written_number written }
    ensures length_after { length.new ≡ written_length written }
{
    hand_over(written.ok_or(Refusal::RoomShort), 0, length)
}

#[unsafe(no_mangle)]
pub extern "C" fn sframe_write_header(kid: u64, ctr: u64, out: &mut [u8], length: &mut usize) -> u32
    ensures value { result ≡ written_number (write_header kid ctr 0 out.old).answer }
    ensures length_after { length.new ≡ written_length (write_header kid ctr 0 out.old).answer }
    ensures out_after { out.new ≡ (write_header kid ctr 0 out.old).room }
{
    let written = header::write_header(Kid(kid), Ctr(ctr), out);
    hand_over_length(written, length)
}

#[unsafe(no_mangle)]
pub extern "C" fn sframe_write_header_at(
    kid: u64,
    ctr: u64,
    out: &mut [u8],
    offset: usize,
    length: &mut usize,
) -> u32
    ensures value { result ≡ written_number (write_header kid ctr offset out.old).answer }
    ensures length_after { length.new ≡ written_length (write_header kid ctr offset out.old).answer }
    ensures out_after { out.new ≡ (write_header kid ctr offset out.old).room }
{
    let written = header::write_header_at(Kid(kid), Ctr(ctr), out, offset);
    hand_over_length(written, length)
}

#[unsafe(no_mangle)]
pub extern "C" fn sframe_read_header(
    bytes: &[u8],
    kid: &mut u64,
    ctr: &mut u64,
    length: &mut usize,
) -> u32
    ensures value { result ≡ read_number (read_header bytes.now) }
    ensures kid_after { kid.new ≡ read_kid (read_header bytes.now) }
    ensures ctr_after { ctr.new ≡ read_ctr (read_header bytes.now) }
    ensures length_after { length.new ≡ read_length (read_header bytes.now) }
{
    match header::read_header(bytes) {
        Some(head) => {
            *kid = head.kid.0;
            *ctr = head.ctr.0;
            *length = head.length;
            DONE
        }
        None => {
            *kid = 0;
            *ctr = 0;
            *length = 0;
            Refusal::HeaderInvalid.number()
        }
    }
}

#[unsafe(no_mangle)]
pub extern "C" fn sframe_make(store: &mut [u8]) -> u32
    ensures value { result ≡ (make store.old).number }
    ensures store_after { store.new ≡ (make store.old).store }
{
    number(store_calls::make(store))
}

#[unsafe(no_mangle)]
pub extern "C" fn sframe_add_sending(store: &mut [u8], kid: u64, suite: u64, base: &[u8]) -> u32
    ensures value { result ≡ (add sframe store.old Sending kid suite base.now).number }
    ensures store_after { store.new ≡ (add sframe store.old Sending kid suite base.now).store }
{
    number(add_key::add(store, Role::Sending, Kid(kid), suite, base))
}

#[unsafe(no_mangle)]
pub extern "C" fn sframe_add_receiving(store: &mut [u8], kid: u64, suite: u64, base: &[u8]) -> u32
    ensures value { result ≡ (add sframe store.old Receiving kid suite base.now).number }
    ensures store_after { store.new ≡ (add sframe store.old Receiving kid suite base.now).store }
{
    number(add_key::add(store, Role::Receiving, Kid(kid), suite, base))
}

#[unsafe(no_mangle)]
pub extern "C" fn sframe_remove(store: &mut [u8], kid: u64) -> u32
    ensures value { result ≡ (remove store.old kid).number }
    ensures store_after { store.new ≡ (remove store.old kid).store }
{
    number(store_calls::remove(store, Kid(kid), FRONT))
}

// The same, with the place where the record is believed to stand.
#[unsafe(no_mangle)]
pub extern "C" fn sframe_remove_near(store: &mut [u8], kid: u64, place: usize) -> u32
    ensures value { result ≡ (remove store.old kid).number }
    ensures store_after { store.new ≡ (remove store.old kid).store }
{
    number(store_calls::remove(store, Kid(kid), place))
}

#[unsafe(no_mangle)]
pub extern "C" fn sframe_seal(
    store: &mut [u8],
    kid: u64,
    metadata: &[u8],
    plaintext: &[u8],
    out: &mut [u8],
    length: &mut usize,
) -> u32
    ensures value { result ≡ (seal sframe store.old kid metadata.now plaintext.now 0 out.old).number }
    ensures length_after { length.new ≡ (seal sframe store.old kid metadata.now plaintext.now 0 out.old).written }
    ensures store_after { store.new ≡ (seal sframe store.old kid metadata.now plaintext.now 0 out.old).store }
    ensures out_after { out.new ≡ (seal sframe store.old kid metadata.now plaintext.now 0 out.old).room }
{
    let answer = seal_frame::seal(store, Kid(kid), FRONT, metadata, plaintext, out);
    hand_over(answer, 0, length)
}

#[unsafe(no_mangle)]
pub extern "C" fn sframe_seal_at(
    store: &mut [u8],
    kid: u64,
    metadata: &[u8],
    plaintext: &[u8],
    out: &mut [u8],
    offset: usize,
    length: &mut usize,
) -> u32
    ensures value { result ≡ (seal sframe store.old kid metadata.now plaintext.now offset out.old).number }
    ensures length_after { length.new ≡ (seal sframe store.old kid metadata.now plaintext.now offset out.old).written }
    ensures store_after { store.new ≡ (seal sframe store.old kid metadata.now plaintext.now offset out.old).store }
    ensures out_after { out.new ≡ (seal sframe store.old kid metadata.now plaintext.now offset out.old).room }
{
    let answer = seal_frame::seal_at(store, Kid(kid), FRONT, metadata, plaintext, out, offset);
    hand_over(answer, 0, length)
}

// The same, with the place where the record is believed to stand.
#[unsafe(no_mangle)]
pub extern "C" fn sframe_seal_near(
    store: &mut [u8],
    kid: u64,
    place: usize,
    metadata: &[u8],
    plaintext: &[u8],
    out: &mut [u8],
    offset: usize,
    length: &mut usize,
) -> u32
    ensures value { result ≡ (seal sframe store.old kid metadata.now plaintext.now offset out.old).number }
    ensures length_after { length.new ≡ (seal sframe store.old kid metadata.now plaintext.now offset out.old).written }
    ensures store_after { store.new ≡ (seal sframe store.old kid metadata.now plaintext.now offset out.old).store }
    ensures out_after { out.new ≡ (seal sframe store.old kid metadata.now plaintext.now offset out.old).room }
{
    let answer = seal_frame::seal_at(store, Kid(kid), place, metadata, plaintext, out, offset);
    hand_over(answer, 0, length)
}

#[unsafe(no_mangle)]
pub extern "C" fn sframe_open(
    store: &mut [u8],
    frame: &[u8],
    metadata: &[u8],
    out: &mut [u8],
    length: &mut usize,
) -> u32
    ensures value { result ≡ (opening sframe store.old metadata.now frame.now out.old).number }
    ensures length_after { length.new ≡ (opening sframe store.old metadata.now frame.now out.old).written }
    ensures store_after { store.new ≡ (opening sframe store.old metadata.now frame.now out.old).store }
    ensures out_after { out.new ≡ (opening sframe store.old metadata.now frame.now out.old).room }
{
    let answer = open_frame::open(store, FRONT, frame, metadata, out);
    hand_over(answer, 0, length)
}

// The same, with the place where the record is believed to stand.
#[unsafe(no_mangle)]
pub extern "C" fn sframe_open_near(
    store: &mut [u8],
    place: usize,
    frame: &[u8],
    metadata: &[u8],
    out: &mut [u8],
    length: &mut usize,
) -> u32
    ensures value { result ≡ (opening sframe store.old metadata.now frame.now out.old).number }
    ensures length_after { length.new ≡ (opening sframe store.old metadata.now frame.now out.old).written }
    ensures store_after { store.new ≡ (opening sframe store.old metadata.now frame.now out.old).store }
    ensures out_after { out.new ≡ (opening sframe store.old metadata.now frame.now out.old).room }
{
    let answer = open_frame::open(store, place, frame, metadata, out);
    hand_over(answer, 0, length)
}

// Begins to seal in pieces.
#[unsafe(no_mangle)]
pub extern "C" fn sframe_seal_begin(
    store: &mut [u8],
    kid: u64,
    metadata: &[u8],
    announced: u64,
    state: &mut [u8],
    out: &mut [u8],
    length: &mut usize,
) -> u32
    ensures value { result ≡ (seal_begin sframe store.old kid metadata.now announced state.old out.old).number }
    ensures length_after { length.new ≡ (seal_begin sframe store.old kid metadata.now announced state.old out.old).written }
    ensures store_after { store.new ≡ (seal_begin sframe store.old kid metadata.now announced state.old out.old).store }
    ensures out_after { out.new ≡ (seal_begin sframe store.old kid metadata.now announced state.old out.old).room }
    ensures state_after { state.new ≡ (seal_begin sframe store.old kid metadata.now announced state.old out.old).state }
{
    let n = announced as usize;
    let answer = begin_seal::seal_begin(store, Kid(kid), FRONT, metadata, n, state, out);
    hand_over(answer, 0, length)
}

#[unsafe(no_mangle)]
pub extern "C" fn sframe_seal_piece(
    state: &mut [u8],
    piece: &[u8],
    out: &mut [u8],
    length: &mut usize,
) -> u32
    ensures value { result ≡ (seal_piece state.old piece.now out.old).number }
    ensures length_after { length.new ≡ (seal_piece state.old piece.now out.old).written }
    ensures state_after { state.new ≡ (seal_piece state.old piece.now out.old).state }
    ensures out_after { out.new ≡ (seal_piece state.old piece.now out.old).room }
{
    let answer = pieces::seal_piece(state, piece, out);
    hand_over(answer, 0, length)
}

#[unsafe(no_mangle)]
pub extern "C" fn sframe_seal_end(state: &[u8], out: &mut [u8], length: &mut usize) -> u32
    ensures value { result ≡ (seal_end state.now out.old).number }
    ensures length_after { length.new ≡ (seal_end state.now out.old).written }
    ensures out_after { out.new ≡ (seal_end state.now out.old).room }
{
    let answer = pieces::seal_end(state, out);
    hand_over(answer, 0, length)
}

// Begins to check a received frame in pieces.
#[unsafe(no_mangle)]
pub extern "C" fn sframe_check_begin(
    store: &[u8],
    header: &[u8],
    metadata: &[u8],
    announced: u64,
    state: &mut [u8],
) -> u32
    ensures value { result ≡ (check_begin sframe store.now metadata.now header.now announced state.old).number }
    ensures state_after { state.new ≡ (check_begin sframe store.now metadata.now header.now announced state.old).state }
{
    let n = announced as usize;
    number(begin_check::check_begin(store, FRONT, header, metadata, n, state))
}

#[unsafe(no_mangle)]
pub extern "C" fn sframe_check_piece(state: &mut [u8], piece: &[u8]) -> u32
    ensures value { result ≡ (check_piece state.old piece.now).number }
    ensures state_after { state.new ≡ (check_piece state.old piece.now).state }
{
    number(pieces::check_piece(state, piece))
}

#[unsafe(no_mangle)]
pub extern "C" fn sframe_check_end(state: &[u8], tag: &[u8]) -> u32
    ensures { result ≡ check_end state.now tag.now }
{
    number(pieces::check_end(state, tag))
}

// The place of a key's record, for the calls that take one.
#[unsafe(no_mangle)]
pub extern "C" fn sframe_find(store: &[u8], kid: u64, place: &mut usize) -> u32
    ensures value { result ≡ (find store.now kid).number }
    ensures place_after { place.new ≡ found store.now kid }
{
    let answer = store_calls::locate(store, Kid(kid));
    hand_over(answer, 0, place)
}

#[unsafe(no_mangle)]
pub extern "C" fn sframe_report(store: &[u8], kid: u64, count: &mut u64) -> u32
    ensures value { result ≡ (report store.now kid).number }
    ensures count_after { count.new ≡ reported store.now kid }
{
    let answer = report_window::report(store, Kid(kid));
    hand_over(answer, 0, count)
}

#[unsafe(no_mangle)]
pub extern "C" fn sframe_ratchet(
    suite: u64,
    base: &[u8],
    steps: u64,
    out: &mut [u8],
    length: &mut usize,
) -> u32
    ensures value { result ≡ (walk suite base.now steps out.old).number }
    ensures length_after { length.new ≡ (walk suite base.now steps out.old).written }
    ensures out_after { out.new ≡ (walk suite base.now steps out.old).room }
{
    let answer = ratchet::walk(suite, base, steps, out);
    hand_over(answer, 0, length)
}

#[unsafe(no_mangle)]
pub extern "C" fn sframe_ratchet_kid(generation: u64, step: u64, bits: u64, kid: &mut u64) -> u32
    ensures value { result ≡ kid_number generation step bits }
    ensures kid_after { kid.new ≡ kid_given generation step bits }
{
    let answer = ratchet::kid_of(generation, step, bits);
    *kid = answer.unwrap_or(Kid(0)).0;
    number(answer)
}

// The KID of a member of a group: s bits are the index's, e bits the epoch's.
#[unsafe(no_mangle)]
pub extern "C" fn sframe_group_kid(
    context: u64,
    index: u64,
    epoch: u64,
    s: u64,
    e: u64,
    kid: &mut u64,
) -> u32
    ensures value { result ≡ pack_number s e context index epoch }
    ensures kid_after { kid.new ≡ packed s e context index epoch }
{
    let answer = group::pack(context, index, epoch, s, e);
    *kid = answer.unwrap_or(Kid(0)).0;
    number(answer)
}

#[unsafe(no_mangle)]
pub extern "C" fn sframe_group_parts(
    kid: u64,
    s: u64,
    e: u64,
    context: &mut u64,
    index: &mut u64,
    epoch: &mut u64,
) -> u32
    ensures value { result ≡ unpack_number s e }
    ensures context_after { context.new ≡ given (unpack_number s e) (context_in s e kid) }
    ensures index_after { index.new ≡ given (unpack_number s e) (index_in s e kid) }
    ensures epoch_after { epoch.new ≡ given (unpack_number s e) (epoch_in e kid) }
{
    match group::unpack(Kid(kid), s, e) {
        Ok(parts) => {
            *context = parts.context;
            *index = parts.index;
            *epoch = parts.epoch;
            DONE
        }
        Err(refusal) => {
            *context = 0;
            *index = 0;
            *epoch = 0;
            refusal.number()
        }
    }
}

#[unsafe(no_mangle)]
pub extern "C" fn sframe_change_epoch(store: &mut [u8], e: u64, bits: u64) -> u32
    ensures value { result ≡ (change_epoch store.old e bits).number }
    ensures store_after { store.new ≡ (change_epoch store.old e bits).store }
{
    number(change_epoch::change_epoch(store, e, bits))
}

// The version of this library, by SFRAME_VERSION_NUMBER of the header that belongs to it.
#[unsafe(no_mangle)]
pub extern "C" fn sframe_version() -> u32
    ensures { result ≡ 200 }
{
    200
}
