// Tests 11 to 14 on tables lent, and the report: the part of the test that is the same for tables of every size.
#![tactic(auto)]

ghost use Rattle.std.specs.Prelude.{◌≡◌, ◌*◌, ◌≤◌, length, replicate};
ghost use Rattle.rules.specs.Tests.{report_room, Given};
ghost use Rattle.rules.specs.Report.{Run};
ghost use Rattle.chart.specs.Charts.{drawn};
ghost use Rattle.chart.specs.Held.{Keyed, Switched, Firsts};
ghost use Rattle.places.specs.Found.{Ready};
ghost use Rattle.survey.specs.Past.{order_tests, Formed, Clear};
ghost use Rattle.findings.specs.Stretch.{last_tests, past_tests};

use chart::Chart;
use survey::Fault;

// The number given, and how many bytes of the report are written: the test's answer, which the C interface packs.
#[derive(Clone, Copy)]
pub struct Answer {
    pub number: usize,
    pub written: usize,
}

// Looks for places, and writes the labelling or the cut as the report. The table large is scratch.
fn write_places(
    chart: &Chart<'_>,
    here: &[u16],
    first: &[u16],
    spare: &mut [u16],
    list: &mut [u16],
    large: &mut [u16],
    report: &mut [u8],
) -> Answer
    requires ready { Ready (drawn chart.now) here.now list.old first.now spare.old }
    requires large_len { length large.old ≡ (drawn chart.now).events }
    requires room { report_room ≤ length report.old }
    ensures { Run last_tests chart.now.bytes.now report.old result.number result.written report.new }
{
    let n = chart.darts;
    let labels = &mut report[8..8 + n];
    if let Some(k) = places::find_places(chart, here, first, spare, large, labels, list) {
        let written = report::put_list(report, 14, &list[..k]);
        return Answer {
            number: 14,
            written,
        };
    }
    report::put_header(report, 0, n);
    Answer {
        number: 0,
        written: 8 + n,
    }
}

// Test 14 for a chart past test 13: the rooms of the faces and the sources and sinks, then a labelling or a cut, written as the report. The list and large
// are scratch.
fn settle(
    chart: &Chart<'_>,
    here: &[u16],
    first: &[u16],
    list: &mut [u16],
    large: &mut [u16],
    spare: &mut [u16],
    report: &mut [u8],
) -> Answer
    requires clear { Clear (drawn chart.now) }
    requires tables { Keyed (drawn chart.now) here.now × Firsts (drawn chart.now) first.now × Switched (drawn chart.now) here.now spare.old }
    requires sizes { (length list.old ≡ (drawn chart.now).events) × (length large.old ≡ (drawn chart.now).events) × (chart.now.darts ≤ 2 * length spare.old) }
    requires room { report_room ≤ length report.old }
    ensures { Run last_tests chart.now.bytes.now report.old result.number result.written report.new }
{
    let f = survey::face_count(chart);
    let spare = &mut spare[..f];
    rooms::room_table(chart, here, spare);
    rooms::pole_table(chart, list);
    write_places(chart, here, first, spare, list, large, report)
}

// Tests 11 to 14 for a chart past test 10, on the tables lent: first has a dart of each event, here and large come as the survey wants them, the rest is
// scratch.
pub fn test_later(
    chart: &Chart<'_>,
    here: &mut [u16],
    spare: &mut [u16],
    first: &[u16],
    list: &mut [u16],
    large: &mut [u16],
    report: &mut [u8],
) -> Answer
    requires formed { Formed (drawn chart.now) × Given order_tests chart.now.bytes.now 0 0 × Firsts (drawn chart.now) first.now }
    requires unused { (here.old ≡ replicate chart.now.darts 65535) × (length list.old ≡ (drawn chart.now).events) × (large.old ≡ replicate (drawn chart.now).events 0) }
    requires sizes { (chart.now.darts ≤ 2 * length spare.old) × (report_room ≤ length report.old) }
    ensures { Run past_tests chart.now.bytes.now report.old result.number result.written report.new }
{
    if let Err(fault) = survey::check_later(chart, here, spare, first, list, large) {
        let number = fault.number();
        let evidence = &list[..fault.entries()];
        let written = match fault {
            Fault::Mixed | Fault::Circle(_) => report::put_list(report, number, evidence),
            _ => 0,
        };
        return Answer { number, written };
    }
    settle(chart, here, first, list, large, spare, report)
}
