// SPDX-License-Identifier: MIT
// The running state that a line of calls begins with under a record of the store.
#![tactic(auto)]

ghost use Rattle.std.specs.Prelude.{◌≡◌, true, ◌++◌, ◌≤◌, length};
ghost use Rattle.octets.specs.Octets.{pasted};
ghost use Rattle.header.specs.Header.{max_header};
ghost use Rattle.answers.specs.Limits.{max_plaintext, max_metadata};
ghost use Rattle.piece_line.specs.State.{state_size};
ghost use Rattle.key_record.specs.Layout.{decode};
ghost use Rattle.key_record.specs.Record.{suite_of};
ghost use Rattle.key_record.specs.Inner.Rows.{Row, Numbered, has_key};
ghost use Rattle.store.specs.Sframe.{sframe};
ghost use Rattle.begin_state.specs.Begin.{first_state};

use header::Ctr;
use suites::Suite;

// Writes it to the front of state, for a line of that kind and that counter. The associated data is the header, then the metadata.
pub fn write_first(
    row: &[u8],
    kind: u8,
    ctr: Ctr,
    header: &[u8],
    metadata: &[u8],
    announced: usize,
    state: &mut [u8],
)
    requires row { (Row row.now) × (has_key (decode row.now) ≡ true) × (state_size ≤ length state.old) }
    requires header_len_bound { (length header.now ≤ max_header) × (length metadata.now ≤ max_metadata) × (announced ≤ max_plaintext) }
    ensures { state.new ≡ pasted state.old 0 (first_state sframe kind (decode row.now) ctr.0 announced (header.now ++ metadata.now)) }
{
    let suite = key_record::row::suite_of(row);
    let nonce = suites::derivation::nonce_of(key_record::row::salt_of(row), ctr);
    let key = key_record::row::key_of(row, suite);
    pieces::begin(kind, suite, key, &nonce, header, metadata, announced, state);
}
