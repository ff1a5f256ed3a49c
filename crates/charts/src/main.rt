// Reads charts on standard input, each with a flag and its length in 16 bits before it, and writes a line for each: the number that the test
// gives, the judge's verdict on the report that the test wrote, and under the flag 1 that report's length and entries.
#![tactic(auto)]

ghost use Rattle.std.specs.Prelude.{◌≤◌, ◌<◌, length, IfOk};

use std::io;
use streams::{StreamError, WriteError};

// ---- parts of a line. Each of these fails where the system takes no more.

// A label is one byte.
fn say_labels(rt: &HostRuntime, body: &[u8]) -> io::Result<()> {
    for label in body {
        print!(rt; " {label}")?;
    }
    Ok(())
}

// Entries of 16 bits.
fn say_numbers(rt: &HostRuntime, body: &[u8]) -> io::Result<()> {
    for pair in body.chunks_exact(2) {
        let x = words::word(pair, 0);
        print!(rt; " {x}")?;
    }
    Ok(())
}

// The entries of a report; none where there is no report.
fn say_entries(rt: &HostRuntime, report: &[u8]) -> io::Result<()> {
    let Some(header) = report::form_of(report) else {
        return Ok(());
    };
    let body = report::body_of(report);
    if header.result == 0 {
        say_labels(rt, body)
    } else {
        say_numbers(rt, body)
    }
}

fn say_report(rt: &HostRuntime, report: &[u8]) -> io::Result<()> {
    let written = report.len();
    print!(rt; " written ")?;
    print!(rt; "{written}")?;
    print!(rt; " entries")?;
    say_entries(rt, report)
}

// ---- lines

// Each word and each number is a write of its own: where the system takes no more, what stands is whole words.
fn say_tested(
    rt: &HostRuntime,
    k: usize,
    number: usize,
    verdict: judge::Verdict,
) -> io::Result<()> {
    print!(rt; "chart ")?;
    print!(rt; "{k}")?;
    print!(rt; " result ")?;
    print!(rt; "{number}")?;
    print!(rt; " judge ")?;
    print!(rt; "{verdict}")
}

// The line of chart k, which got the number and the report.
fn say_line(
    rt: &HostRuntime,
    k: usize,
    is_shown: bool,
    chart: &[u8],
    number: usize,
    report: &[u8],
) -> io::Result<()> {
    let verdict = judge::judge(chart, report);
    say_tested(rt, k, number, verdict)?;
    if is_shown {
        say_report(rt, report)?;
    }
    println!(rt;)
}

fn say_chart(rt: &HostRuntime, k: usize, is_shown: bool, chart: &[u8]) -> io::Result<()> {
    let mut report = [0u8; 6152];
    let desk::Answer { number, written } = desk::test_chart(chart, &mut report);
    say_line(rt, k, is_shown, chart, number, &report[..written])
}

// The line of chart k, whose flag stands at `at`: where the chart ends.
fn say_at(rt: &HostRuntime, input: &[u8], at: usize, k: usize) -> Result<usize, StreamError>
    requires { at < length input.now }
    ensures { IfOk result (λ end. (at < end) × (end ≤ length input.now)) }
{
    let is_shown = input[at] == 1;
    let end = streams::chart_end(input, at + 1).ok_or(StreamError::CutShort)?;
    say_chart(rt, k, is_shown, &input[at + 3..end]).map_err(WriteError::Io)?;
    Ok(end)
}

fn say_all(rt: &HostRuntime, input: &[u8]) -> Result<(), StreamError> {
    let mut at = 0;
    let mut k = 0;
    // a chart's length tells where the next one stands
    while at < input.len() {
        at = say_at(rt, input, at, k)?;
        k += 1;
    }
    Ok(())
}

fn say_input(rt: &HostRuntime) -> Result<(), StreamError> {
    let mut input = [0u8; 131072];
    let n = streams::read_all(rt, &mut input).map_err(StreamError::NotRead)?;
    say_all(rt, &input[..n])
}

fn main(rt: HostRuntime) {
    if let Err(e) = say_input(&rt) {
        streams::complain(&rt, "charts", e);
    }
}
