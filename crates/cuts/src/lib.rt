// Whether a list of events is a cut: it ascends, names sources and sinks only, and is larger than the room of the faces that it touches.
#![tactic(auto)]

ghost use Rattle.std.specs.Prelude.{◌/◌, ◌<◌, length};
ghost use Rattle.finite.specs.Says.{Says};
ghost use Rattle.drawing.specs.Conditions.{Cut};
ghost use Rattle.rules.specs.Words.{words as words_at};
ghost use Rattle.chart.specs.Charts.{drawn};
ghost use Rattle.cuts.specs.Tables.{Tables, Sized};
ghost use Rattle.cuts.specs.Marks.{Flags, Fitted};
ghost use Rattle.cuts.specs.Sweep.{Taken, Swept};

use chart::Chart;
use std::mem;

// Whether the numbers in body ascend and poles has 1 at each of them; there it has 2 afterwards: another table of what is listed would take more room.
fn list_fits(body: &[u8], poles: &mut [u16]) -> bool
    requires { Flags poles.old }
    ensures { Fitted result poles.old (words_at body.now 0 (length body.now / 2)) poles.new }
{
    // above all numbers so far
    let mut from = 0;
    for i in 0..body.len() / 2 {
        let e = words::word(body, 2 * i);
        if e < from || poles.get(e) != Some(&1) {
            return false;
        }
        poles[e] = 2;
        from = e + 1;
    }
    true
}

// Takes out the room of the face of corner c, if the event of c is marked: gives what was left of it.
fn take_room(chart: &Chart<'_>, here: &[u16], poles: &[u16], spare: &mut [u16], c: usize) -> usize
    requires { Sized (drawn chart.now) here.now poles.now spare.old × (c < chart.now.darts) }
    ensures { Taken (drawn chart.now) here.now poles.now spare.old c result spare.new }
{
    let e = chart.event_of(c);
    if poles[e] != 2 {
        return 0;
    }
    let f = words::get(here, c);
    usize::from(mem::take(&mut spare[f]))
}

// The room of the faces that the marked events touch, each counted once: it is taken out at the first corner.
fn touched_room(chart: &Chart<'_>, here: &[u16], poles: &[u16], spare: &mut [u16]) -> usize
    requires { Sized (drawn chart.now) here.now poles.now spare.old }
    ensures { Swept (drawn chart.now) here.now poles.now spare.old chart.now.darts result spare.new }
{
    let mut total = 0;
    for c in 0..chart.darts {
        total += take_room(chart, here, poles, spare, c);
    }
    total
}

// Whether the numbers in body are a cut. It uses up poles and spare.
pub fn cut_holds(
    chart: &Chart<'_>,
    here: &[u16],
    poles: &mut [u16],
    spare: &mut [u16],
    body: &[u8],
) -> bool
    requires { Tables (drawn chart.now) here.now poles.old spare.old }
    ensures { Says result (Cut (drawn chart.now) (words_at body.now 0 (length body.now / 2))) }
{
    list_fits(body, poles) && touched_room(chart, here, poles, spare) < body.len() / 2
}
