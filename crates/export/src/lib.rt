// The calls for programs in C and Rust: numbers and byte slices only. `export_c` has them under their names in C.
#![tactic(auto)]

ghost use Rattle.std.specs.Prelude.{◌≡◌, ◌<◌};
ghost use Rattle.rules.specs.Report.{form};
ghost use Rattle.judge.specs.Verdicts.{verdict_of};
ghost use Rattle.export.specs.Packed.{Tested, pack_form, pack_body, pack_verdict, Weighed};

// Tests a chart: number * 65536 + bytes written.
#[tactic(auto, using(desk::proofs::Fits::outcome_small, desk::proofs::Fits::outcome_fits))]
pub fn rinsholupe_test(chart: &[u8], report: &mut [u8]) -> u32
    ensures { Tested chart.now report.old result report.new }
{
    let answer = desk::test_chart(chart, report);
    (answer.number * 65536 + answer.written) as u32
}

// Reads a report's header: result * 65536 + count, or 4294967295 for bad form.
pub fn rinsholupe_form(report: &[u8]) -> u32
    ensures { result ≡ pack_form (form report.now) }
{
    let Some(header) = report::form_of(report) else {
        return 4294967295;
    };
    (header.result * 65536 + header.count) as u32
}

// Where a report's body lies: start * 4294967296 + length.
pub fn rinsholupe_body(report: &[u8]) -> u64
    ensures { result ≡ pack_body report.now }
{
    let Some(_) = report::form_of(report) else {
        return 0;
    };
    let body = report::body_of(report);
    (8 * 4294967296 + body.len()) as u64
}

// A verdict as a number.
fn verdict_number(v: judge::Verdict) -> u32
    requires { pack_verdict (verdict_of v) < 100000 }
    ensures { result ≡ pack_verdict (verdict_of v) }
{
    match v {
        judge::Verdict::LabelsHold => 0,
        judge::Verdict::CutHolds => 1,
        judge::Verdict::Chart(r) => (65536 + usize::from(r)) as u32,
        judge::Verdict::Report(f) => usize::from(f) as u32,
    }
}

// Judges a report of a chart: 0 to 4 for J0 to J4, 65536 + n for the chart's refusal n.
pub fn rinsholupe_judge(chart: &[u8], report: &[u8]) -> u32
    ensures { Weighed chart.now report.now result }
{
    let verdict = judge::judge(chart, report);
    verdict_number(verdict)
}
