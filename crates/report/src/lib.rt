// The report: its public reader, and its writer. Bytes 0-2 are its mark, 3-4 its version, 5 the result, 6-7 the count; then the body.
#![tactic(auto)]

ghost use Rattle.std.specs.Prelude.{◌≡◌, ◌++◌, ◌+◌, ◌*◌, ◌<◌, ◌≤◌, length, take, drop};
ghost use Rattle.rules.specs.Words.{bytes};
ghost use Rattle.rules.specs.Report.{writes as written, entry as entry_bytes, is_well_formed, form, body, report as bytes_of};
ghost use Rattle.report.specs.Headers.{formed, body_place, header, Listed};

// What stands in the header.
#[derive(Clone, Copy)]
pub struct Header {
    pub result: usize,
    pub count: usize,
}

// Whether a result writes a report.
fn writes(res: usize) -> bool
    ensures { result ≡ written res }
{
    matches!(res, 0 | 12..=14)
}

// How many bytes the report with a result and a count has.
fn size(res: usize, count: usize) -> usize
    requires { count < 65536 }
    ensures { result ≡ 8 + entry_bytes res * count }
{
    if res == 0 { 8 + count } else { 8 + 2 * count }
}

// At least 8 bytes, the mark, the version, a result that writes a report, and the exact length.
#[tactic(auto, unfolding(rules::specs::Report::is_well_formed))]
fn well_formed(report: &[u8]) -> bool
    ensures { result ≡ is_well_formed report.now }
{
    report.len() >= 8
        && report.starts_with(b"EVR")
        && words::word(report, 3) == 1
        && writes(usize::from(report[5]))
        && report.len() == size(usize::from(report[5]), words::word(report, 6))
}

// The result and the count that a report holds; none if its form is bad.
#[tactic(auto, using(crate::proofs::Good::form_long), unfolding(rules::specs::Report::form))]
pub fn form_of(report: &[u8]) -> Option<Header>
    ensures { formed result ≡ form report.now }
{
    if !well_formed(report) {
        return None;
    }
    Some(Header {
        result: usize::from(report[5]),
        count: words::word(report, 6),
    })
}

// The body of a report, as that part of the caller's bytes: after the eight bytes of the header, or on bad form the empty part at its start.
#[tactic(auto, using(crate::proofs::Good::form_long), unfolding(rules::specs::Report::body))]
pub fn body_of(report: &[u8]) -> &[u8]
    ensures result_value { result.now ≡ body report.now }
    ensures ref_ptr_value { result.ref_ptr ≡ body_place report.entry.ref_ptr report.now }
{
    if well_formed(report) {
        &report[8..]
    } else {
        &report[0..0]
    }
}

// Writes the header with a result and a count.
pub fn put_header(report: &mut [u8], res: usize, count: usize)
    requires { (8 ≤ length report.old) × ((res < 256) × (count < 65536)) }
    ensures { report.new ≡ header res count ++ drop 8 report.old }
{
    report[..3].copy_from_slice(b"EVR");
    words::put_word(report, 3, 1);
    report[5] = res as u8;
    words::put_word(report, 6, count);
}

// Writes a list of numbers behind the place of the header, low byte first.
fn put_entries(report: &mut [u8], list: &[u16])
    requires { (length list.now < 65536) × (8 + 2 * length list.now ≤ length report.old) }
    ensures { report.new ≡ take 8 report.old ++ (bytes list.now ++ drop (8 + 2 * length list.now) report.old) }
{
    for (i, x) in list.iter().enumerate() {
        words::put_word(report, 8 + 2 * i, usize::from(*x));
    }
}

// Writes the report with the result 12, 13 or 14 and the numbers of a list; hands back how many bytes it has.
pub fn put_list(report: &mut [u8], res: usize, list: &[u16]) -> usize
    requires { Listed report.old res list.now }
    ensures { (report.new ≡ bytes_of res list.now ++ drop result report.old) × (result ≡ length (bytes_of res list.now)) }
{
    put_entries(report, list);
    put_header(report, res, list.len());
    size(res, list.len())
}
