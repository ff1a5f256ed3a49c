// Test 11: a key for the face of each corner, the switch corners of each face, and the number of faces.
#![tactic(auto)]

ghost use Rattle.std.specs.Prelude.{◌≡◌, ◌+◌, ◌/◌, ◌%◌, ◌<◌, ◌≤◌, set, replicate};
ghost use Rattle.finite.specs.Says.{Says};
ghost use Rattle.drawing.specs.Drawing.{face, faces, switches};
ghost use Rattle.drawing.specs.Conditions.{Rings};
ghost use Rattle.chart.specs.Charts.{drawn};
ghost use Rattle.chart.specs.Held.{Keyed, Switched};
ghost use Rattle.faces.specs.Walked.{Below, Looked, Paintable, Painted};

use chart::Chart;

// Whether the corner between a dart c and its successor s is a switch: both leave or both enter. At a dead end the two are one dart.
fn is_switch(c: usize, s: usize) -> bool
    ensures { Says result (c % 2 ≡ s % 2) }
{
    c % 2 == s % 2
}

// Writes x at each corner of the face whose lowest dart is d: the corner at the far end of each dart of the walk. Answers how many are switches.
fn paint(chart: &Chart<'_>, here: &mut [u16], d: usize, x: usize) -> usize
    requires { Paintable (drawn chart.now) d x here.old }
    ensures { Painted (drawn chart.now) d x here.old here.new × (result ≡ switches (drawn chart.now) d) }
{
    let mut count: usize = 0;
    let mut e = d;
    // round the face, until the walk is back at d
    loop {
        let c = words::twin(e);
        words::put(here, c, x);
        e = chart.next_of(c);
        count += usize::from(is_switch(c, e));
        if e == d {
            break;
        }
    }
    count
}

// Stores s at entry x of the table t, if it has that entry.
fn note(t: &mut [u16], x: usize, s: usize)
    requires { s < 65536 }
    ensures { t.new ≡ set t.old x s }
{
    if x < t.len() {
        words::put(t, x, s);
    }
}

// Paints the face of d, with the number x of faces below d as its key, unless one of its darts is below d. Answers whether it painted.
fn visit(chart: &Chart<'_>, here: &mut [u16], spare: &mut [u16], d: usize, x: usize) -> bool
    requires { Looked (drawn chart.now) d x here.old spare.old }
    ensures { Below (drawn chart.now) (d + 1) here.new spare.new × Says result (face (drawn chart.now) d ≡ d) }
{
    // 65535 for a corner without a key yet: a table of Option would take twice the room
    if words::get(here, words::twin(d)) < 65535 {
        return false;
    }
    let s = paint(chart, here, d, x);
    note(spare, x, s);
    true
}

// Fills `here`, which comes with 65535 at each corner, with a key for the face of each corner, how many faces were found before it, and answers how many
// faces there are.
// Fills `spare` with the number of switch corners of each face, at its key, as far as it goes.
pub fn face_walk(chart: &Chart<'_>, here: &mut [u16], spare: &mut [u16]) -> usize
    requires { Rings (drawn chart.now) × (here.old ≡ replicate chart.now.darts 65535) }
    ensures { Keyed (drawn chart.now) here.new × (result ≡ faces (drawn chart.now)) × Switched (drawn chart.now) here.new spare.new }
{
    let chart = *chart;
    let mut count = 0;
    for d in 0..chart.darts {
        count += usize::from(visit(&chart, here, spare, d, count));
    }
    count
}

// Whether V - A + faces is 2, of f faces.
pub fn is_planar(chart: &Chart<'_>, f: usize) -> bool
    requires { f ≤ 6144 }
    ensures { Says result ((drawn chart.now).events + f ≡ chart.now.darts / 2 + 2) }
{
    chart.event_count() + f == chart.darts / 2 + 2
}
