// The listing of a chart, from its bytes to its text.
#![tactic(auto)]

ghost use Rattle.printed.specs.Listed.{Listed};

use desk::Answer;

// Tests the chart and writes its listing at the start of out; answers how many bytes the text has.
// An out with less than the listing's room keeps its bytes, and there is no answer.
pub fn list_chart(chart: &[u8], out: &mut [u8]) -> Option<usize>
    ensures { Listed chart.now out.old out.new result }
{
    if out.len() < 36864 {
        return None;
    }
    let mut report = [0u8; 6152];
    let Answer { number, written } = desk::test_chart(chart, &mut report);
    let size = lines::write_listing(chart, number, &report[..written], out);
    Some(size)
}
