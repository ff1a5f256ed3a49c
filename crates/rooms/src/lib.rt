// The room of each face, and the sources and sinks.
#![tactic(auto)]

ghost use Rattle.std.specs.Prelude.{◌≡◌, ℕ, ◌+◌, ◌-◌, ◌/◌, ◌<◌, ◌≤◌, length};
ghost use Rattle.drawing.specs.Drawing.{darts, face, faces, room1};
ghost use Rattle.drawing.specs.Conditions.{EventsKnown, OuterKnown, Rings};
ghost use Rattle.words.specs.Tables.{nth};
ghost use Rattle.chart.specs.Charts.{drawn};
ghost use Rattle.chart.specs.Held.{Keyed, Switched, Roomed, Poled};
ghost use Rattle.rooms.specs.Counts.{Halved};
ghost use Rattle.rooms.specs.Flags.{Flagged, Decided};

use chart::Chart;

// ---- rooms

// Halves the entries of `spare`, less one.
fn halve(spare: &mut [u16])
    requires { (f : ℕ) → f < length spare.old → 2 ≤ nth spare.old f }
    ensures { Halved (length spare.old) spare.old spare.new }
{
    for x in spare.iter_mut() {
        *x = *x / 2 - 1;
    }
}

// Makes rooms of the numbers of switch corners in `spare`. The outer face has two more than an inner one, which are four switch corners.
pub fn room_table(chart: &Chart<'_>, here: &[u16], spare: &mut [u16])
    requires { Rings (drawn chart.now) × OuterKnown (drawn chart.now) × Keyed (drawn chart.now) here.now × (length spare.old ≡ faces (drawn chart.now)) × Switched (drawn chart.now) here.now spare.old × ((f : ℕ) → f < darts (drawn chart.now) → face (drawn chart.now) f ≡ f → 1 ≤ room1 (drawn chart.now) f) }
    ensures { Roomed (drawn chart.now) here.now spare.new }
{
    let f = words::get(here, words::twin(chart.outer_dart()));
    spare[f] += 4;
    halve(spare);
}

// ---- sources and sinks

// The flags 1 (left by an arrow) and 2 (entered) stand in the lent table that gets the answer: memory is fixed.
// Fills `poles` with 1 at each event that an arrow leaves, 0 at the others. First all tails and then all heads: a tail's flag is stored without a look at
// what was there.
fn mark_tails(chart: &Chart<'_>, poles: &mut [u16])
    requires { EventsKnown (drawn chart.now) × (length poles.old ≡ (drawn chart.now).events) }
    ensures { Flagged (drawn chart.now) chart.now.darts 0 poles.new }
{
    poles.fill(0);
    let chart = *chart;
    for a in 0..chart.darts / 2 {
        let v = chart.event_of(2 * a);
        poles[v] = 1;
    }
}

// Adds 2 at each event that an arrow enters.
fn mark_heads(chart: &Chart<'_>, poles: &mut [u16])
    requires { EventsKnown (drawn chart.now) × Flagged (drawn chart.now) chart.now.darts 0 poles.old }
    ensures { Flagged (drawn chart.now) chart.now.darts chart.now.darts poles.new }
{
    let chart = *chart;
    for a in 0..chart.darts / 2 {
        let v = chart.event_of(2 * a + 1);
        poles[v] = poles[v] % 2 + 2;
    }
}

// Puts 1 for the flags of a source or a sink, 0 for others, in all entries of `poles`.
fn decide(poles: &mut [u16])
    ensures { Decided (length poles.old) poles.old poles.new }
{
    // 3 are the flags of an event where some arrow leaves and some enters
    for x in poles.iter_mut() {
        *x = u16::from(*x != 3);
    }
}

// Fills `poles` with 1 at the sources and sinks, 0 at the other events.
pub fn pole_table(chart: &Chart<'_>, poles: &mut [u16])
    requires { EventsKnown (drawn chart.now) × (length poles.old ≡ (drawn chart.now).events) }
    ensures { Poled (drawn chart.now) poles.new }
{
    mark_tails(chart, poles);
    mark_heads(chart, poles);
    decide(poles);
}
