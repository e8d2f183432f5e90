// SPDX-License-Identifier: MIT
// Lists the pairs of KID and counter that stand twice or more in the log of sealings on standard input. Where the input
// cannot be read to its end it writes nothing, and says so on standard error.
#![tactic(auto)]

ghost use Rattle.std.specs.Prelude.{◌≡◌, ◌+◌, IfOk, IfSome, take};
ghost use Rattle.std.specs.Counts.{IsPrefixLen};
ghost use Rattle.pair_log.specs.Report.{max_log};

use pair_log::{MAX_LOG, MAX_REPORT};
use std::alloc::Global;
use std::io::{self, Read};

// One byte more than the longest log has, so that a longer one is seen to be.
const ROOM: usize = MAX_LOG + 1;

// The log on the input, or its front where it is too long.
fn read_log<R: Read + Drop>(alloc: Global, input: R) -> io::Result<Vec<u8>>
    ensures { IfOk result (λ log. IfSome (R.remaining input) (λ xs. log.items ≡ take (max_log + 1) xs)) }
{
    let mut log = Vec::new(alloc);
    input.take(ROOM as u64).read_to_end(&mut log)?;
    Ok(log)
}

// Puts the report of a log at the start of text, and answers how many bytes it has.
fn report(log: &[u8], text: &mut [u8]) -> usize
    ensures { IsPrefixLen result text.new }
{
    match pair_log::report(log, text) {
        Ok(length) => length,
        Err(_) => 0,
    }
}

// Why the system refused, without its number for that.
fn reason(said: &str) -> &str {
    match said.split_once(" (os error ") {
        Some((words, _)) => words,
        None => said,
    }
}

// Writes a line to standard error: what failed, and why.
fn fail(rt: &(impl Eprint + AllocGlobal), what: &str, error: io::Error) {
    let _ = match format!(in rt.alloc(); "{error}") {
        Ok(said) => eprintln!(rt; "log_check: {what}: {}", reason(&said)),
        Err(_) => eprintln!(rt; "log_check: {what}: {error}"),
    };
}

// Writes the report of a log to standard output.
fn write_report(rt: &(impl Print + Eprint + AllocGlobal), log: &[u8]) {
    let mut text = [0u8; MAX_REPORT];
    let length = report(log, &mut text);
    if let Err(error) = rt.write_all(&text[..length]) {
        fail(rt, "standard output", error);
    }
}

fn main(rt: HostRuntime) {
    match read_log(rt.alloc(), rt.reader()) {
        Ok(log) => write_report(&rt, &log),
        Err(error) => fail(&rt, "standard input", error),
    }
}
