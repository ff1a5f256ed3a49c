// Tests 9 and 10, in one walk round the rings: from event to event along the arrows the ring of each is followed once, from one of its darts, and the
// darts met are counted. All darts are met exactly if each event's darts are one ring and no dart lies apart; else the rings of the other events are
// followed too, one after the other.
#![tactic(auto)]

ghost use Rattle.std.specs.Prelude.{◌≡◌, ◌+◌, ◌<◌, ◌≤◌, length, replicate};
ghost use Rattle.finite.specs.Says.{Says};
ghost use Rattle.drawing.specs.Drawing.{after};
ghost use Rattle.drawing.specs.Conditions.{EventsKnown, Rings, Joined};
ghost use Rattle.drawing.proofs.Rounds.{Keeps, Kept};
ghost use Rattle.drawing.proofs.Counted.{Level};
ghost use Rattle.chart.specs.Charts.{drawn};
ghost use Rattle.chart.specs.Held.{Picked};
ghost use Rattle.rings.specs.Rounds.{Returned};
ghost use Rattle.rings.specs.Joining.{AllMarked, Ground, Ready, Lent, Pushed, Rounded, Met, Gone, Followed, Passed};

use chart::Chart;

// Is c, the successor of d, a dart, and of d's event?
fn keeps(chart: &Chart<'_>, d: usize, c: usize) -> bool
    requires { (d < chart.now.darts) × (c ≡ after (drawn chart.now) d) }
    ensures { Says result (Keeps (drawn chart.now) d) }
{
    if chart.darts <= c {
        return false;
    }
    chart.event_of(c) == chart.event_of(d)
}

// Is it so of every dart, and do the successors add up to what the darts add up to? In rings they do; where one dart comes twice as a
// successor and another never, they mostly do not, and then no walk is lost in a ring that never comes back to its first dart. Both darts of
// an arrow in one turn, which takes less time.
fn all_keep(chart: &Chart<'_>) -> bool
    ensures { Says result (Kept (drawn chart.now) × Level (drawn chart.now)) }
{
    let n = chart.darts;
    let mut total = 0;
    for a in 0..n / 2 {
        let d = 2 * a;
        let b = chart.next_of(d);
        if !keeps(chart, d, b) {
            return false;
        }
        let c = chart.next_of(d + 1);
        if !keeps(chart, d + 1, c) {
            return false;
        }
        total += b + c;
    }
    2 * total + n == n * n
}

// ---- from event to event

// The events found: first has a dart of each, and 65535 for the others; the queue has those darts in the order found, up to its end.
#[derive(Drop)]
struct Worklist<'a> {
    first: &'a mut [u16],
    queue: &'a mut [u16],
    end: usize,
}

impl Worklist<'_> {
    // Marks the event of dart x with x, and puts x at the queue's end, unless the event was marked.
    // Nothing branches on the mark: another is stored in its place, and what stands at the queue's end counts only once the end is moved.
    // So the queue is a slice with its end beside it: the push of a list branches.
    fn push(&mut self, chart: &Chart<'_>, x: usize)
        requires { Ready (drawn chart.now) x self.old }
        ensures lent { Lent self.old self.new }
        ensures pushed { Pushed (drawn chart.now) x self.old self.new }
    {
        let v = chart.event_of(x);
        if self.queue.len() <= self.end {
            return;
        }
        let m = usize::from(self.first[v]);
        let new = words::below(65534, m);
        words::put(self.first, v, x);
        words::put(self.queue, self.end, x);
        self.end += new;
    }

    // Follows the ring of dart s, and pushes the event at the far end of each of its darts. Answers after how many steps it came back; none if it did
    // not within as many as are left.
    fn round(&mut self, chart: &Chart<'_>, s: usize, left: usize) -> Option<usize>
        requires { Ready (drawn chart.now) s self.old }
        ensures lent { Lent self.old self.new }
        ensures rounded { Rounded (drawn chart.now) s left self.old self.new result }
    {
        let mut e = s;
        for steps in 0..left {
            self.push(chart, words::twin(e));
            e = chart.next_of(e);
            if e == s {
                return Some(steps + 1);
            }
        }
        None
    }
}

// Follows the rings of the events that the arrows join with dart 0's, as they are found, and leaves a dart of each in first. Answers how many darts
// are met, or none: then some event's darts are not one ring.
fn reach(chart: &Chart<'_>, first: &mut [u16], queue: &mut [u16]) -> Option<usize>
    requires { Ground (drawn chart.now) × (first.old ≡ replicate (drawn chart.now).events 65535) × (length queue.old ≡ (drawn chart.now).events) }
    ensures { Followed (drawn chart.now) first.new result }
{
    let chart = *chart;
    let mut found = Worklist {
        first,
        queue,
        end: 0,
    };
    found.push(&chart, 0);
    let mut head = 0;
    let mut met = 0;
    // no `for`: the queue grows while it is worked off
    while head < found.end {
        let s = usize::from(found.queue[head]);
        met += found.round(&chart, s, chart.darts - met)?;
        head += 1;
    }
    Some(met)
}

// ---- the other events

// Fills first with a dart of each event that has one, its highest, and with 65535 for the others: a table of Option would take twice the room.
fn first_darts(chart: &Chart<'_>, first: &mut [u16])
    requires known { EventsKnown (drawn chart.now) }
    requires first_len { length first.old ≡ (drawn chart.now).events }
    ensures { Picked (drawn chart.now) first.new }
{
    first.fill(65535);
    let chart = *chart;
    for d in 0..chart.darts {
        words::put(first, chart.event_of(d), d);
    }
}

// After how many steps from d on d comes again; none if not within so many as are left.
fn steps_back(chart: &Chart<'_>, d: usize, left: usize) -> Option<usize>
    requires { Kept (drawn chart.now) × (d < chart.now.darts) }
    ensures { Returned (drawn chart.now) d left result }
{
    let mut c = d;
    for k in 0..left {
        c = chart.next_of(c);
        if c == d {
            return Some(k + 1);
        }
    }
    None
}

// Follows the ring of event v, unless it was met before or has no dart, after the events met before and those below v, where met darts were met.
// Answers how many are met now, or none: then some event's darts are not one ring.
fn follow(chart: &Chart<'_>, first: &[u16], some: &[u16], v: usize, met: usize) -> Option<usize>
    requires ground { Ground (drawn chart.now) }
    requires first_len { (length first.now ≡ (drawn chart.now).events) × Picked (drawn chart.now) some.now }
    requires v_in_bounds { (v < length first.now) × (met ≤ chart.now.darts) × Gone (drawn chart.now) first.now v met }
    ensures { Passed (drawn chart.now) first.now (v + 1) result }
{
    if words::get(first, v) != 65535 {
        return Some(met);
    }
    let d = words::get(some, v);
    if chart.darts <= d {
        return Some(met);
    }
    let k = steps_back(chart, d, chart.darts - met)?;
    Some(met + k)
}

// Follows the ring of each event not met before, in turn, where found darts were met before. Are all darts met?
fn follow_rest(chart: &Chart<'_>, first: &[u16], some: &[u16], found: usize) -> bool
    requires ground { Ground (drawn chart.now) }
    requires first_len { (length first.now ≡ (drawn chart.now).events) × Picked (drawn chart.now) some.now }
    requires found_le_n { (found ≤ chart.now.darts) × Gone (drawn chart.now) first.now 0 found }
    ensures { Says result (Rings (drawn chart.now)) }
{
    let mut met = found;
    for v in 0..first.len() {
        let Some(more) = follow(chart, first, some, v, met) else {
            return false;
        };
        met = more;
    }
    met == chart.darts
}

// ---- the tests

// Whether no entry of first is 65535. Counted without a branch.
fn all_marked(first: &[u16]) -> bool
    ensures { Says result (AllMarked first.now) }
{
    let marks: usize = first
        .iter()
        .map(|x| words::below(usize::from(*x), 65535))
        .sum();
    marks == first.len()
}

// Test 9: every entry is a dart, and the successors are one ring for each event that has darts, holding exactly its darts.
// A ring that comes back to its first dart has met nothing twice, so all darts are met exactly if the counts of all rings make the number of darts.
// Leaves in first, which comes with 65535 for each event, a dart of each event that the arrows join with dart 0's. The queue is scratch.
pub fn one_ring_each(chart: &Chart<'_>, first: &mut [u16], queue: &mut [u16]) -> bool
    requires known { EventsKnown (drawn chart.now) }
    requires first_value { (first.old ≡ replicate (drawn chart.now).events 65535) × (length queue.old ≡ (drawn chart.now).events) }
    ensures says { Says result (Rings (drawn chart.now)) }
    ensures met { Rings (drawn chart.now) → Met (drawn chart.now) first.new }
{
    if !all_keep(chart) {
        return false;
    }
    match reach(chart, first, queue) {
        None => false,
        Some(met) if met == chart.darts => true,
        // a ring of every event is followed, so some event has another
        Some(_) if all_marked(first) => false,
        Some(met) => {
            first_darts(chart, queue);
            follow_rest(chart, first, queue, met)
        }
    }
}

// Test 10: whether the arrows, direction ignored, join all events, of which first has a dart of each that they join with dart 0's.
pub fn joins_all(chart: &Chart<'_>, first: &[u16]) -> bool
    requires { EventsKnown (drawn chart.now) × Met (drawn chart.now) first.now }
    ensures { Says result (Joined (drawn chart.now)) }
{
    all_marked(first)
}
