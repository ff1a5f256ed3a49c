// Going back among events that each have an entering arrow from one of them: the turn that this ends in, and its arrows.
ghost use Rattle.std.specs.Prelude.{◌≡◌, List, ℕ, ◌≤◌, ◌<◌, length};
ghost use Rattle.drawing.specs.Drawing.{arrows};
ghost use Rattle.drawing.specs.Conditions.{EventsKnown};
ghost use Rattle.drawing.proofs.Climb.{back as event_before, Turning, Turn, Lowest};
ghost use Rattle.words.specs.Tables.{nth};
ghost use Rattle.chart.specs.Charts.{drawn};
ghost use Rattle.climb.specs.Back.{Chosen, Lower, Written};

use chart::Chart;

// The event before an event is the tail of the arrow that is stored at it.
#[derive(Clone, Copy)]
pub struct Way<'a> {
    pub chart: Chart<'a>,
    pub into: &'a [u16],
    ghost known: { EventsKnown (drawn chart) },
    ghost size: { length into.now ≡ (drawn chart).events },
}

impl<'a> Way<'a> {
    // The event before v.
    fn back(&self, v: usize) -> usize
        requires { (v < length self.now.into.now) × (nth self.now.into.now v < arrows (drawn self.now.chart)) }
        ensures { result ≡ event_before (drawn self.now.chart) (nth self.now.into.now) v }
    {
        self.chart.event_of(2 * words::get(self.into, v))
    }

    // As many steps back as there are events: an event of a circle.
    pub fn far_back(&self, e: usize) -> usize
        requires { (left : List ℕ) × Chosen (drawn self.now.chart) left self.now.into.now e }
        ensures { Turning (drawn self.now.chart) (nth self.now.into.now) result }
    {
        let mut v = e;
        for _ in 0..self.into.len() {
            v = self.back(v);
        }
        v
    }

    // Of two events, the one with the lower arrow stored.
    fn lower(&self, a: usize, b: usize) -> usize
        requires { (a < length self.now.into.now) × (b < length self.now.into.now) }
        ensures { Lower self.now.into.now a b result }
    {
        if self.into[b] < self.into[a] { b } else { a }
    }

    // The event of the circle through s with the lowest arrow stored.
    pub fn lowest(&self, s: usize) -> usize
        requires { Turning (drawn self.now.chart) (nth self.now.into.now) s }
        ensures { Turning (drawn self.now.chart) (nth self.now.into.now) result × Lowest (drawn self.now.chart) (nth self.now.into.now) result }
    {
        let mut best = s;
        let mut c = s;
        loop {
            let e = self.back(c);
            if e == s {
                break;
            }
            best = self.lower(best, e);
            c = e;
        }
        best
    }

    // How many arrows the circle through s has.
    pub fn size(&self, s: usize) -> usize
        requires { Turning (drawn self.now.chart) (nth self.now.into.now) s }
        ensures { Turn (drawn self.now.chart) (nth self.now.into.now) s result × (result ≤ (drawn self.now.chart).events) }
    {
        // no range: how long the turn is, is what is asked
        let mut k = 0;
        let mut c = s;
        loop {
            let e = self.back(c);
            k += 1;
            if e == s {
                break;
            }
            c = e;
        }
        k
    }

    // Writes the arrows of the circle through s, as many as out takes, from the last back to the first, which enters s.
    pub fn write_back(&self, s: usize, out: &mut [u16])
        requires { Turn (drawn self.now.chart) (nth self.now.into.now) s (length out.old) }
        ensures { Written (drawn self.now.chart) self.now.into.now s out.new }
    {
        let mut e = s;
        for i in (0..out.len()).rev() {
            e = self.back(e);
            out[i] = self.into[e];
        }
    }
}
