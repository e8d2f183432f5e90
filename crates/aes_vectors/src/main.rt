// SPDX-License-Identifier: MIT
// Runs the published vectors of AES, counter mode and GCM, and prints for each group how many matched.
#![tactic(auto)]

mod run;
mod vectors;

use std::io;
use vector_text::Tally;

// Prints a name and a tally as one line.
fn report(rt: &impl Print, name: &str, t: Tally) -> io::Result<()> {
    println!(rt; "{name}: {} match, {} differ", t.right, t.wrong)
}

fn main(rt: HostRuntime) -> io::Result<()> {
    report(&rt, "FIPS 197 appendices B and C", vectors::fips_197())?;
    report(&rt, "SP 800-38A F.5.1 and F.5.5", vectors::counter_mode())?;
    report(&rt, "GCM test cases 1 to 4, AES-128", vectors::gcm_128())?;
    report(&rt, "GCM test cases 13 to 16, AES-256", vectors::gcm_256())
}
