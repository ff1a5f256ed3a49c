// The test, and then the judge on the stretch of report that the test wrote.
#![tactic(auto)]

ghost use Rattle.confirm.specs.Confirmed.{Confirmed};

// Tests the chart, and lets the judge read the report: a chart past test 13 with full report room gets a yes or a no that the judge confirms.
pub fn confirm(chart: &[u8], report: &mut [u8]) -> judge::Verdict
    ensures { Confirmed chart.now report.old report.new result }
{
    let answer = desk::test_chart(chart, report);
    let w = answer.written;
    judge::judge(chart, &report[..w])
}
