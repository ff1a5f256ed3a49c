// The listing's text: the first line, and the lines that follow it.
#![tactic(auto)]

ghost use Rattle.std.specs.Prelude.{◌≡◌, ◌++◌, ◌+◌, ◌*◌, ◌≤◌, ◌<◌, length};
ghost use Rattle.drawing.specs.Conditions.{EventsKnown};
ghost use Rattle.rules.specs.Chart.{drawing};
ghost use Rattle.rules.specs.Listing.{decimal, saying, each};
ghost use Rattle.chart.specs.Charts.{drawn};
ghost use Rattle.lines.specs.Text.{line, pair, heading};
ghost use Rattle.lines.specs.Pages.{Put};
ghost use Rattle.lines.specs.Follow.{numbers, Lined, entry, pairs, Table, corners, Noted, Labelled};
ghost use Rattle.lines.specs.Kinds.{Follows};
ghost use Rattle.lines.specs.Printed.{listing_room, Reported, Printed};

use chart::Chart;

// The kind of lines that follow the first.
#[derive(Clone, Copy)]
enum Kind {
    Corners,
    Events,
    Arrows,
    Nothing,
}

// A text in the making: the bytes that it is written into, and how many are written.
#[derive(Drop)]
struct Page<'a> {
    out: &'a mut [u8],
    end: usize,
}

// The words of a fault of the file.
fn fault_words(number: usize) -> &'static [u8]
    requires { (2 ≤ number) × (number ≤ 8) }
    ensures { result.now ≡ saying number }
{
    match number {
        2 => b"mark",
        3 => b"version",
        4 => b"counts",
        5 => b"length",
        6 => b"unknown event",
        7 => b"own arrow",
        _ => b"outer dart",
    }
}

// Notes corner c for its event, if it is the first large one there.
fn note(chart: &Chart<'_>, labels: &[u8], large: &mut [u16], c: usize)
    requires known { EventsKnown (drawn chart.now) }
    requires labels_len { (length labels.now ≡ chart.now.darts) × (c < length labels.now) }
    requires noted { Noted (drawn chart.now) labels.now c large.old }
    ensures { Noted (drawn chart.now) labels.now (c + 1) large.new }
{
    if labels[c] != 2 {
        return;
    }
    let v = chart.event_of(c);
    if words::get(large, v) < 65535 {
        return;
    }
    words::put(large, v, c);
}

// Fills the table large with the first large corner of each event, or 65535: a table of Option would take twice the room.
fn find_larges(chart: &Chart<'_>, labels: &[u8], large: &mut [u16])
    requires known { EventsKnown (drawn chart.now) }
    requires labels_len { length labels.now ≡ chart.now.darts }
    requires large_len { length large.old ≡ (drawn chart.now).events }
    ensures { Noted (drawn chart.now) labels.now (length labels.now) large.new }
{
    large.fill(65535);
    for c in 0..labels.len() {
        note(chart, labels, large, c);
    }
}

// Whatever is called put_.. puts its text behind what is written.
impl Page<'_> {
    // ---- text and numbers

    fn put_text(&mut self, text: &[u8])
        requires { self.old.end + length text.now ≤ length self.old.out.now }
        ensures { Put self.old text.now self.new }
    {
        let end = self.end + text.len();
        self.out[self.end..end].copy_from_slice(text);
        self.end = end;
    }

    // In decimal.
    fn put_number(&mut self, n: usize)
        requires { (self.old.end + length (decimal n) ≤ length self.old.out.now) × (n < 65536) }
        ensures { Put self.old (decimal n) self.new }
    {
        let mut buffer = itoa::Buffer::new();
        let text = buffer.format(n).as_bytes();
        self.put_text(text);
    }

    // ---- lines

    // A word and a number.
    fn put_named(&mut self, word: &[u8], x: usize)
        requires { (self.old.end + (length word.now + 4) ≤ length self.old.out.now) × (x < 10000) }
        ensures { Put self.old (word.now ++ decimal x) self.new }
    {
        self.put_text(word);
        self.put_number(x);
    }

    // A line of a word and a number.
    fn put_line(&mut self, word: &[u8], x: usize)
        requires { (self.old.end + (length word.now + 5) ≤ length self.old.out.now) × (x < 10000) }
        ensures { Put self.old (line word.now x) self.new }
    {
        self.put_named(word, x);
        self.put_text(b"\n");
    }

    // The line of the event v, whose large corner is c.
    fn put_pair(&mut self, v: usize, c: usize)
        requires { (self.old.end + 23 ≤ length self.old.out.now) × ((v < 10000) × (c < 10000)) }
        ensures { Put self.old (pair v c) self.new }
    {
        self.put_named(b"event ", v);
        self.put_named(b" corner ", c);
        self.put_text(b"\n");
    }

    // ---- the first line

    // The words of a result. Answers the kind of lines that follow it.
    fn put_words(&mut self, number: usize) -> Kind
        requires { (self.old.end + 13 ≤ length self.old.out.now) × (number ≤ 14) }
        ensures { Put self.old (saying number) self.new × Follows result number }
    {
        let (words, kind): (&[u8], Kind) = match number {
            0 => (b"drawable", Kind::Corners),
            1 => (b"short report", Kind::Nothing),
            2..=8 => (fault_words(number), Kind::Nothing),
            9 => (b"order", Kind::Nothing),
            10 => (b"parted", Kind::Nothing),
            11 => (b"crossing", Kind::Nothing),
            12 => (b"mixed", Kind::Events),
            13 => (b"circle", Kind::Arrows),
            _ => (b"no room", Kind::Events),
        };
        self.put_text(words);
        kind
    }

    // The first line: `result`, the number and its words.
    fn put_head(&mut self, number: usize) -> Kind
        requires { (self.old.end + 26 ≤ length self.old.out.now) × (number ≤ 14) }
        ensures { Put self.old (heading number) self.new × Follows result number }
    {
        self.put_named(b"result ", number);
        self.put_text(b" ");
        let kind = self.put_words(number);
        self.put_text(b"\n");
        kind
    }

    // ---- the lines that follow

    // A line for each of the 16-bit numbers in body.
    fn put_lines(&mut self, word: &[u8], body: &[u8])
        requires { Lined self.old.out.now self.old.end word.now body.now }
        ensures { Put self.old (each (line word.now) (numbers body.now)) self.new }
    {
        for pair in body.chunks_exact(2) {
            self.put_line(word, words::word(pair, 0));
        }
    }

    // The line of event v, if the table has a corner for it.
    fn put_entry(&mut self, large: &[u16], v: usize)
        requires { (self.old.end + 23 ≤ length self.old.out.now) × ((v < length large.now) × Table large.now) }
        ensures { Put self.old (entry large.now v) self.new }
    {
        let c = words::get(large, v);
        if c < 65535 {
            self.put_pair(v, c);
        }
    }

    // The lines of the events that the table has a corner for.
    fn put_table(&mut self, large: &[u16])
        requires { (self.old.end + 23 * length large.now ≤ length self.old.out.now) × Table large.now }
        ensures { Put self.old (pairs large.now (length large.now)) self.new }
    {
        for v in 0..large.len() {
            self.put_entry(large, v);
        }
    }

    // By the labelling, the events that have a large corner are the sources and sinks.
    fn put_larges(&mut self, chart: &Chart<'_>, labels: &[u8], large: &mut [u16])
        requires labelled { Labelled self.old.out.now self.old.end chart.now.bytes.now labels.now }
        requires large_len { length large.old ≡ (drawn chart.now).events }
        ensures { Put self.old (corners (drawn chart.now) labels.now) self.new }
    {
        find_larges(chart, labels, large);
        self.put_table(large);
    }

    // One line for each source or sink, ascending, with its large corner. There are as many labels as darts.
    fn put_corners(&mut self, chart: &[u8], labels: &[u8])
        requires { Labelled self.old.out.now self.old.end chart.now labels.now }
        ensures { Put self.old (corners (drawing chart.now) labels.now) self.new }
    {
        let chart = Chart {
            bytes: chart,
            darts: labels.len(),
        };
        let mut large = [0u16; 1024];
        let v = chart.event_count();
        self.put_larges(&chart, labels, &mut large[..v]);
    }
}

// The listing of a chart whose test gave the number and wrote the report, at the start of out; answers its length.
pub fn write_listing(chart: &[u8], number: usize, report: &[u8], out: &mut [u8]) -> usize
    requires { Reported chart.now number report.now × (listing_room ≤ length out.old) }
    ensures { Printed chart.now number report.now out.old out.new result }
{
    let mut page = Page { out, end: 0 };
    match page.put_head(number) {
        Kind::Corners => page.put_corners(chart, &report[8..]),
        Kind::Events => page.put_lines(b"event ", &report[8..]),
        Kind::Arrows => page.put_lines(b"arrow ", &report[8..]),
        Kind::Nothing => {}
    }
    page.end
}
