// SPDX-License-Identifier: MIT
// How many of the last 64 counters were opened with a receiving key. The causes are tried in the order 1, 6, 7.
#![tactic(auto)]

ghost use Rattle.std.specs.Prelude.{◌≡◌};
ghost use Rattle.answers.specs.Refusals.{number_of, written_of};
ghost use Rattle.report_window.specs.Report.{report, reported};

use answers::Refusal;
use header::Kid;

// Reports on the key of a KID.
pub fn report(store: &[u8], kid: Kid) -> Result<u64, Refusal>
    ensures { (number_of result ≡ (report store.now kid.0).number) × (written_of result ≡ reported store.now kid.0) }
{
    if !store::is_sound(store) {
        return Err(Refusal::StoreInvalid);
    }
    let i = store::find(store, kid).ok_or(Refusal::KidMissing)?;
    let row = store::row_at(store, i);
    if !key_record::row::is_receiving(row) {
        return Err(Refusal::RoleRefused);
    }
    let count = window::count(key_record::row::window_of(row));
    Ok(count as u64)
}
