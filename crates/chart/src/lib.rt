// The tests 2 to 8, and the chart in the bytes that pass them.
#![tactic(auto)]

mod tables;

ghost use Rattle.std.specs.Prelude.{◌≡◌, ◌<◌, ◌≤◌, length, IfOk};
ghost use Rattle.finite.specs.Says.{Says};
ghost use Rattle.drawing.specs.Conditions.{EventsKnown};
ghost use Rattle.rules.specs.Tests.{Passes, Given, mark, counts, size as size_test};
ghost use Rattle.chart.specs.Charts.{drawn};
ghost use Rattle.chart.specs.Form.{header_tests, end_tests, form_tests};
ghost use Rattle.chart.specs.Faults.{fault_number, given};

pub use tables::Chart;

// What is wrong with a chart's file: the tests 2 to 8, by their numbers.
#[derive(Clone, Copy, Debug, PartialEq, Eq)]
pub enum Fault {
    Mark = 2,
    Version = 3,
    Counts = 4,
    Length = 5,
    UnknownEvent = 6,
    OwnArrow = 7,
    OuterDart = 8,
}

impl Fault {
    pub fn number(self) -> usize
        ensures { result ≡ fault_number self }
    {
        self as usize
    }
}

// ---- the tests 2 to 5

// Whether the chart has room for a header, and the mark.
fn marked(bytes: &[u8]) -> bool
    ensures { Says result (Passes mark bytes.now 0) }
{
    11 <= bytes.len() && bytes.starts_with(b"EVC")
}

// Whether V and A are within their ranges.
fn counted(bytes: &[u8]) -> bool
    requires { 11 ≤ length bytes.now }
    ensures { Says result (Passes counts bytes.now 0) }
{
    (2..=1024).contains(&words::word(bytes, 5)) && (1..=3072).contains(&words::word(bytes, 7))
}

// Whether the length is exactly the header's and the two tables'.
fn sized(bytes: &[u8]) -> bool
    requires { (11 ≤ length bytes.now) × Passes counts bytes.now 0 }
    ensures { Says result (Passes size_test bytes.now 0) }
{
    bytes.len() == 11 + 8 * words::word(bytes, 7)
}

// The chart, if the tests 2 to 5 pass.
fn read_header(bytes: &[u8]) -> Result<Chart<'_>, Fault>
    ensures number { Given header_tests bytes.now 0 (given result) }
    ensures bytes { IfOk result (λ chart. chart.bytes.now ≡ bytes.now) }
{
    if !marked(bytes) {
        return Err(Fault::Mark);
    }
    if words::word(bytes, 3) != 1 {
        return Err(Fault::Version);
    }
    if !counted(bytes) {
        return Err(Fault::Counts);
    }
    if !sized(bytes) {
        return Err(Fault::Length);
    }
    Ok(Chart {
        bytes,
        darts: 2 * words::word(bytes, 7),
    })
}

// ---- the tests 6 to 8

// Whether each dart has an event below v, the number of events.
fn events_known(chart: &Chart<'_>, v: usize) -> bool
    requires { v ≡ (drawn chart.now).events }
    ensures { Says result (EventsKnown (drawn chart.now)) }
{
    for d in 0..chart.darts {
        if v <= chart.event_of(d) {
            return false;
        }
    }
    true
}

// The tests 6 and 7. Both darts of an arrow in one turn. Test 6 comes first: where an arrow of one event is met, the events behind it are looked at too.
fn check_ends(chart: &Chart<'_>, v: usize) -> Result<(), Fault>
    requires { v ≡ (drawn chart.now).events }
    ensures { Given end_tests chart.now.bytes.now 0 (given result) }
{
    for a in 0..chart.darts / 2 {
        let t = chart.event_of(2 * a);
        if v <= t {
            return Err(Fault::UnknownEvent);
        }
        let h = chart.event_of(2 * a + 1);
        if v <= h {
            return Err(Fault::UnknownEvent);
        }
        if t == h {
            if !events_known(chart, v) {
                return Err(Fault::UnknownEvent);
            }
            return Err(Fault::OwnArrow);
        }
    }
    Ok(())
}

// The chart that stands in the bytes, or the first of the tests 2 to 8 that it fails.
pub fn read(bytes: &[u8]) -> Result<Chart<'_>, Fault>
    ensures number { Given form_tests bytes.now 0 (given result) }
    ensures bytes { IfOk result (λ chart. chart.bytes.now ≡ bytes.now) }
{
    let chart = read_header(bytes)?;
    check_ends(&chart, chart.event_count())?;
    if chart.darts <= chart.outer_dart() {
        return Err(Fault::OuterDart);
    }
    Ok(chart)
}
