// Whether the labels of a report hold: each suits its corner, and the large corners of each event and of each face are as many as they should be.
#![tactic(auto)]

ghost use Rattle.std.specs.Prelude.{◌≡◌, ℕ, ◌+◌, ◌<◌, length, set};
ghost use Rattle.finite.specs.Sums.{δ};
ghost use Rattle.finite.specs.Says.{Says};
ghost use Rattle.drawing.specs.Drawing.{faces};
ghost use Rattle.drawing.specs.Conditions.{EventsKnown, OuterKnown, Rings, Labelling};
ghost use Rattle.words.specs.Tables.{nth};
ghost use Rattle.chart.specs.Charts.{drawn};
ghost use Rattle.chart.specs.Held.{Keyed, Poled, Roomed};
ghost use Rattle.labels.specs.Checks.{Suits, Counted};

use chart::Chart;

// Whether the label of corner c suits its kind.
fn suits(chart: &Chart<'_>, body: &[u8], c: usize) -> bool
    requires { (c < chart.now.darts) × (length body.now ≡ chart.now.darts) }
    ensures { Says result (Suits (drawn chart.now) body.now c) }
{
    let d = chart.next_of(c);
    let plain = c % 2 != d % 2;
    match body[c] {
        1 => plain,
        0 | 2 => !plain,
        _ => false,
    }
}

// Whether every label suits its corner.
fn all_suit(chart: &Chart<'_>, body: &[u8]) -> bool
    requires { length body.now ≡ chart.now.darts }
    ensures { Says result ((c : ℕ) → c < chart.now.darts → Suits (drawn chart.now) body.now c) }
{
    (0..chart.darts).all(|c| suits(chart, body, c))
}

// Adds one at key if the label b is large.
fn add_large(t: &mut [u16], key: usize, b: u8)
    requires { (key < length t.old) × (nth t.old key < 65535) }
    ensures { t.new ≡ set t.old key (nth t.old key + δ b 2) }
{
    if b == 2 {
        t[key] += 1;
    }
}

// Counts corner c, at its event and in its face.
fn count_corner(
    chart: &Chart<'_>,
    here: &[u16],
    body: &[u8],
    tally: &mut [u16],
    load: &mut [u16],
    c: usize,
)
    requires known { EventsKnown (drawn chart.now) × (Rings (drawn chart.now) × Keyed (drawn chart.now) here.now) }
    requires body_len { (length body.now ≡ chart.now.darts) × (c < chart.now.darts) }
    requires counted { Counted (drawn chart.now) here.now body.now tally.old load.old c }
    ensures { Counted (drawn chart.now) here.now body.now tally.new load.new (c + 1) }
{
    let b = body[c];
    let e = chart.event_of(c);
    add_large(tally, e, b);
    let f = words::get(here, c);
    add_large(load, f, b);
}

// Counts the large corners of each event and of each face.
fn count_larges(chart: &Chart<'_>, here: &[u16], body: &[u8], tally: &mut [u16], load: &mut [u16])
    requires known { EventsKnown (drawn chart.now) × (Rings (drawn chart.now) × Keyed (drawn chart.now) here.now) }
    requires body_len { (length body.now ≡ chart.now.darts) × ((length tally.old ≡ (drawn chart.now).events) × (length load.old ≡ faces (drawn chart.now))) }
    ensures { Counted (drawn chart.now) here.now body.now tally.new load.new chart.now.darts }
{
    tally.fill(0);
    load.fill(0);
    for c in 0..chart.darts {
        count_corner(chart, here, body, tally, load, c);
    }
}

// Whether the labels are a labelling of the chart.
pub fn labels_hold(
    chart: &Chart<'_>,
    here: &[u16],
    poles: &[u16],
    spare: &[u16],
    body: &[u8],
    tally: &mut [u16],
    load: &mut [u16],
) -> bool
    requires known { EventsKnown (drawn chart.now) × (Rings (drawn chart.now) × Keyed (drawn chart.now) here.now) }
    requires outer_known { OuterKnown (drawn chart.now) × (Poled (drawn chart.now) poles.now × Roomed (drawn chart.now) here.now spare.now) }
    requires body_len { (length body.now ≡ chart.now.darts) × ((length tally.old ≡ (drawn chart.now).events) × (length load.old ≡ faces (drawn chart.now))) }
    ensures { Says result (Labelling (drawn chart.now) body.now) }
{
    if !all_suit(chart, body) {
        return false;
    }
    count_larges(chart, here, body, tally, load);
    &*tally == poles && &*load == spare
}
