// SPDX-License-Identifier: MIT
// Runs the published vectors of SHA-2, HMAC and HKDF, and prints a line for each group.
#![tactic(auto)]

mod cases;
mod vectors;

use std::io;
use vector_text::Tally;

fn report(rt: &impl Print, name: &str, t: Tally) -> io::Result<()> {
    println!(rt; "{name}: {} match, {} do not", t.right, t.wrong)
}

fn main(rt: HostRuntime) -> io::Result<()> {
    report(&rt, "FIPS 180-4, SHA-256 and SHA-512", vectors::sha_cases())?;
    report(
        &rt,
        "the same messages, lent states fed in two pieces",
        vectors::lent_cases(),
    )?;
    report(
        &rt,
        "RFC 4231, HMAC-SHA-256 and HMAC-SHA-512",
        vectors::hmac_cases(),
    )?;
    report(&rt, "RFC 5869, HKDF-SHA-256", vectors::hkdf_cases())
}
