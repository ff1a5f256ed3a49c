// Reads charts on standard input, each with its length in 16 bits before it, and writes the listing of each under its name: C1, C2 and so on.
#![tactic(auto)]

ghost use Rattle.std.specs.Prelude.{◌+◌, ◌≤◌, length, IfOk};

use streams::{StreamError, WriteError};

// The name of chart k, and its listing.
fn print_named(rt: &HostRuntime, k: usize, chart: &[u8]) -> Result<(), WriteError> {
    let mut text = [0u8; 36864];
    print!(rt; "C{k}\n")?;
    streams::write_listing(rt, chart, &mut text)
}

// Prints chart k, which stands at `at`, and answers where it ends.
fn print_at(rt: &HostRuntime, input: &[u8], at: usize, k: usize) -> Result<usize, StreamError>
    ensures { IfOk result (λ end. (at + 2 ≤ end) × (end ≤ length input.now)) }
{
    let end = streams::chart_end(input, at).ok_or(StreamError::CutShort)?;
    print_named(rt, k, &input[at + 2..end])?;
    Ok(end)
}

fn print_all(rt: &HostRuntime, input: &[u8]) -> Result<(), StreamError> {
    let mut at = 0;
    let mut k = 1;
    // a chart's length tells where the next one stands
    while at < input.len() {
        at = print_at(rt, input, at, k)?;
        k += 1;
    }
    Ok(())
}

fn print_input(rt: &HostRuntime) -> Result<(), StreamError> {
    let mut input = [0u8; 65536];
    let n = streams::read_all(rt, &mut input).map_err(StreamError::NotRead)?;
    print_all(rt, &input[..n])
}

fn main(rt: HostRuntime) {
    if let Err(e) = print_input(&rt) {
        streams::complain(&rt, "printouts", e);
    }
}
