// The judge: the chart's fault 2 to 13, or what a report deserves. It writes nothing, and knows nothing of the search for places.
#![tactic(auto)]

ghost use Rattle.std.specs.Prelude.{◌≡◌, ◌*◌, ◌/◌, ◌≤◌, length, replicate, Some};
ghost use Rattle.finite.specs.Says.{Says};
ghost use Rattle.drawing.specs.Drawing.{faces};
ghost use Rattle.drawing.specs.Conditions.{Labelling, Cut};
ghost use Rattle.rules.specs.Words.{words as words_at};
ghost use Rattle.rules.specs.Tests.{Given};
ghost use Rattle.chart.specs.Charts.{drawn};
ghost use Rattle.chart.specs.Form.{form_tests};
ghost use Rattle.chart.specs.Held.{Keyed, Switched};
ghost use Rattle.survey.specs.Past.{Formed, Unused, Clear};
ghost use Rattle.judge.specs.Verdicts.{refusal_of, fault_of, verdict_of, said, Answered, Reported};

use chart::Chart;
use std::fmt;

// Each case holds its number, as docs/DECISIONS.md 36 wants it.
// The chart's refusal, with its number: a fault of the file, 2 to 8, or of the drawing in it, 9 to 13.
#[derive(Clone, Copy, Debug, PartialEq, Eq)]
pub enum Refusal {
    File(usize),
    Drawn(usize),
}

// The report's own fault, with its number: J2 of its form, or J3 or J4 of its evidence.
#[derive(Clone, Copy, Debug, PartialEq, Eq)]
pub enum Fault {
    Form(usize),
    Evidence(usize),
}

// The labels hold (J0), the cut holds (J1), or what is wrong.
#[derive(Clone, Copy, Debug, PartialEq, Eq)]
pub enum Verdict {
    LabelsHold,
    CutHolds,
    Chart(Refusal),
    Report(Fault),
}

// The number of a refusal.
impl From<Refusal> for usize {
    ghost from_gives = { λ refusal n. n ≡ refusal_of refusal };

    fn from(refusal: Refusal) -> usize {
        match refusal {
            Refusal::File(n) | Refusal::Drawn(n) => n,
        }
    }
}

// The number of a fault.
impl From<Fault> for usize {
    ghost from_gives = { λ fault j. j ≡ fault_of fault };

    fn from(fault: Fault) -> usize {
        match fault {
            Fault::Form(j) | Fault::Evidence(j) => j,
        }
    }
}

// J0 to J4, or the number of the chart's refusal alone.
impl fmt::Display for Verdict {
    ghost output = { λ verdict. Some (said (verdict_of verdict)) };

    #[tactic(auto, using(std::proofs::lemmas::Fmt::decimal_digit))]
    fn fmt<W: fmt::Write>(&self, f: &mut fmt::Formatter<W>) -> fmt::Result {
        match *self {
            Verdict::LabelsHold => f.write_str("J0"),
            Verdict::CutHolds => f.write_str("J1"),
            Verdict::Chart(refusal) => write!(f, "{}", usize::from(refusal)),
            Verdict::Report(fault) => write!(f, "J{}", usize::from(fault)),
        }
    }
}

// The same on tables lent.
fn weigh_labels(
    chart: &Chart<'_>,
    here: &[u16],
    poles: &mut [u16],
    spare: &mut [u16],
    tally: &mut [u16],
    load: &mut [u16],
    body: &[u8],
) -> bool
    requires clear { Clear (drawn chart.now) × (Keyed (drawn chart.now) here.now × (length body.now ≡ chart.now.darts)) }
    requires poles_len { ((length poles.old ≡ (drawn chart.now).events) × ((length spare.old ≡ faces (drawn chart.now)) × Switched (drawn chart.now) here.now spare.old)) × ((length tally.old ≡ (drawn chart.now).events) × (length load.old ≡ faces (drawn chart.now))) }
    ensures { Says result (Labelling (drawn chart.now) body.now) }
{
    rooms::room_table(chart, here, spare);
    rooms::pole_table(chart, poles);
    labels::labels_hold(chart, here, poles, spare, body, tally, load)
}

// Whether the labels in the body of a report are a labelling.
fn labels_right(chart: &Chart<'_>, here: &[u16], spare: &mut [u16], body: &[u8]) -> bool
    requires clear { Clear (drawn chart.now) × (Keyed (drawn chart.now) here.now × (length body.now ≡ chart.now.darts)) }
    requires spare_long { (chart.now.darts ≤ 2 * length spare.old) × Switched (drawn chart.now) here.now spare.old }
    ensures { Says result (Labelling (drawn chart.now) body.now) }
{
    let mut poles = [0u16; 1024];
    let mut tally = [0u16; 1024];
    let mut load = [0u16; 3072];
    let v = chart.event_count();
    let f = survey::face_count(chart);
    weigh_labels(
        chart,
        here,
        &mut poles[..v],
        &mut spare[..f],
        &mut tally[..v],
        &mut load[..f],
        body,
    )
}

// The same on tables lent.
fn weigh_cut(
    chart: &Chart<'_>,
    here: &[u16],
    poles: &mut [u16],
    spare: &mut [u16],
    body: &[u8],
) -> bool
    requires clear { Clear (drawn chart.now) × Keyed (drawn chart.now) here.now }
    requires poles_len { (length poles.old ≡ (drawn chart.now).events) × ((length spare.old ≡ faces (drawn chart.now)) × Switched (drawn chart.now) here.now spare.old) }
    ensures { Says result (Cut (drawn chart.now) (words_at body.now 0 (length body.now / 2))) }
{
    rooms::room_table(chart, here, spare);
    rooms::pole_table(chart, poles);
    cuts::cut_holds(chart, here, poles, spare, body)
}

// Whether the list in the body of a report is a cut.
fn cut_right(chart: &Chart<'_>, here: &[u16], spare: &mut [u16], body: &[u8]) -> bool
    requires clear { Clear (drawn chart.now) × Keyed (drawn chart.now) here.now }
    requires spare_long { (chart.now.darts ≤ 2 * length spare.old) × Switched (drawn chart.now) here.now spare.old }
    ensures { Says result (Cut (drawn chart.now) (words_at body.now 0 (length body.now / 2))) }
{
    let mut poles = [0u16; 1024];
    let v = chart.event_count();
    let f = survey::face_count(chart);
    weigh_cut(chart, here, &mut poles[..v], &mut spare[..f], body)
}

// What the report of a chart past test 13 deserves.
fn weigh(chart: &Chart<'_>, here: &[u16], spare: &mut [u16], report: &[u8]) -> Verdict
    requires { Clear (drawn chart.now) × Keyed (drawn chart.now) here.now × (chart.now.darts ≤ 2 * length spare.old) × Switched (drawn chart.now) here.now spare.old }
    ensures { Reported (drawn chart.now) report.now result }
{
    let Some(header) = report::form_of(report) else {
        return Verdict::Report(Fault::Form(2));
    };
    let body = report::body_of(report);
    match header.result {
        0 if header.count == chart.darts => {
            if labels_right(chart, here, spare, body) {
                Verdict::LabelsHold
            } else {
                Verdict::Report(Fault::Evidence(3))
            }
        }
        14 => {
            if cut_right(chart, here, spare, body) {
                Verdict::CutHolds
            } else {
                Verdict::Report(Fault::Evidence(4))
            }
        }
        _ => Verdict::Report(Fault::Form(2)),
    }
}

// The same for a chart past test 8, on the tables lent: here, first and left come as the survey wants them, the rest is scratch.
fn judge_drawn(
    chart: &Chart<'_>,
    here: &mut [u16],
    spare: &mut [u16],
    first: &mut [u16],
    list: &mut [u16],
    left: &mut [u16],
    report: &[u8],
) -> Verdict
    requires formed { Formed (drawn chart.now) × Given form_tests chart.now.bytes.now 0 0 }
    requires unused { Unused (drawn chart.now) chart.now.darts here.old first.old list.old × ((left.old ≡ replicate (drawn chart.now).events 0) × (chart.now.darts ≤ 2 * length spare.old)) }
    ensures { Answered chart.now.bytes.now report.now result }
{
    if let Err(fault) = survey::check(chart, here, spare, first, list, left) {
        return Verdict::Chart(Refusal::Drawn(fault.number()));
    }
    weigh(chart, here, spare, report)
}

// The tables of any chart.
fn judge_any(chart: &Chart<'_>, report: &[u8]) -> Verdict
    requires { Formed (drawn chart.now) × Given form_tests chart.now.bytes.now 0 0 }
    ensures { Answered chart.now.bytes.now report.now result }
{
    let mut here = [65535u16; 6144];
    let mut spare = [0u16; 3072];
    let mut first = [65535u16; 1024];
    let mut list = [0u16; 1024];
    let mut left = [0u16; 1024];
    let v = chart.event_count();
    judge_drawn(
        chart,
        &mut here[..chart.darts],
        &mut spare,
        &mut first[..v],
        &mut list[..v],
        &mut left[..v],
        report,
    )
}

// The judge: the chart's fault first, then what the report deserves.
pub fn judge(chart: &[u8], report: &[u8]) -> Verdict
    ensures { Answered chart.now report.now result }
{
    match chart::read(chart) {
        Ok(chart) => judge_any(&chart, report),
        Err(fault) => Verdict::Chart(Refusal::File(fault.number())),
    }
}
