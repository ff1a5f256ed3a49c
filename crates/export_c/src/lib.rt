// The calls of `export` under their names in C. A slice passes as a pointer and a length.
#![tactic(auto)]

ghost use Rattle.std.specs.Prelude.{◌≡◌};
ghost use Rattle.rules.specs.Report.{form};
ghost use Rattle.export.specs.Packed.{Tested, pack_form, pack_body, Weighed};

// Tests a chart: number * 65536 + bytes written.
#[unsafe(no_mangle)]
pub extern "C" fn rinsholupe_test(chart: &[u8], report: &mut [u8]) -> u32
    ensures { Tested chart.now report.old result report.new }
{
    export::rinsholupe_test(chart, report)
}

// Reads a report's header: result * 65536 + count, or 4294967295 for bad form.
#[unsafe(no_mangle)]
pub extern "C" fn rinsholupe_form(report: &[u8]) -> u32
    ensures { result ≡ pack_form (form report.now) }
{
    export::rinsholupe_form(report)
}

// Where a report's body lies: start * 4294967296 + length.
#[unsafe(no_mangle)]
pub extern "C" fn rinsholupe_body(report: &[u8]) -> u64
    ensures { result ≡ pack_body report.now }
{
    export::rinsholupe_body(report)
}

// Judges a report of a chart: 0 to 4 for J0 to J4, 65536 + n for the chart's refusal n.
#[unsafe(no_mangle)]
pub extern "C" fn rinsholupe_judge(chart: &[u8], report: &[u8]) -> u32
    ensures { Weighed chart.now report.now result }
{
    export::rinsholupe_judge(chart, report)
}
