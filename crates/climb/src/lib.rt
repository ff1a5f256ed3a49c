// Tests 12 and 13: the changes of direction round an event, the lowest mixed event, a circle or none.
#![tactic(auto)]

mod way;

ghost use Rattle.std.specs.Prelude.{◌≡◌, ◌+◌, ◌≤◌, ◌<◌, length, replicate, Some};
ghost use Rattle.finite.specs.Says.{Says};
ghost use Rattle.drawing.specs.Drawing.{arrows, event, enters, changes};
ghost use Rattle.drawing.specs.Conditions.{EventsKnown, Rings};
ghost use Rattle.chart.specs.Charts.{drawn};
ghost use Rattle.chart.specs.Held.{Firsts};
ghost use Rattle.climb.specs.Evidence.{LowestMixed, CircleFound};
ghost use Rattle.climb.specs.Back.{Kept, Entering, Chosen};
ghost use Rattle.climb.specs.Peel.{Counted, Waiting, Sourced, Ready, Freed, Peeled};

use chart::Chart;
use way::Way;

// How often the direction changes, going once round the event of dart d.
fn changes_at(chart: &Chart<'_>, d: usize) -> usize
    requires { Rings (drawn chart.now) × (d < chart.now.darts) }
    ensures { result ≡ changes (drawn chart.now) (event (drawn chart.now) d) }
{
    let mut count: usize = 0;
    let mut c = d;
    let mut e = chart.next_of(d);
    while e != d {
        count += (c + e) % 2;
        c = e;
        e = chart.next_of(c);
    }
    // the corner between the last dart and the first closes the ring
    count + (c + d) % 2
}

// Whether the event of dart d is mixed.
pub fn mixed_at(chart: &Chart<'_>, d: usize) -> bool
    requires { Rings (drawn chart.now) × (d < chart.now.darts) }
    ensures { Says result (2 < changes (drawn chart.now) (event (drawn chart.now) d)) }
{
    2 < changes_at(chart, d)
}

// The lowest mixed event, or None where none is mixed.
pub fn lowest_mixed(chart: &Chart<'_>, first: &[u16]) -> Option<usize>
    requires { Rings (drawn chart.now) × Firsts (drawn chart.now) first.now }
    ensures { LowestMixed (drawn chart.now) result }
{
    first.iter().position(|d| mixed_at(chart, usize::from(*d)))
}

// Fills left, which comes with 0 for each event, with the number of arrows that enter each event.
fn count_entering(chart: &Chart<'_>, left: &mut [u16])
    requires { EventsKnown (drawn chart.now) × (left.old ≡ replicate (drawn chart.now).events 0) }
    ensures { Counted (drawn chart.now) left.new }
{
    let chart = *chart;
    for a in 0..chart.darts / 2 {
        left[chart.event_of(2 * a + 1)] += 1;
    }
}

// The list and its end go side by side in what follows: a struct over the two lent tables would have each method say that both references stay the same.

// Lists the event v at place t if it has 0 in left, and answers the list's new end. Nothing branches on it: what stands at the end counts only once the
// end is moved.
fn list_free(left: &[u16], list: &mut [u16], t: usize, v: usize) -> usize
    requires { (v < length left.now) × (t < length list.old) × (v < 65536) }
    ensures { Sourced left.now list.old t v list.new result }
{
    words::put(list, t, v);
    t + words::below(words::get(left, v), 1)
}

// Lists the events with 0 in left, and answers how many there are.
fn list_all_free(left: &[u16], list: &mut [u16]) -> usize
    requires { (length list.old ≡ length left.now) × (length left.now ≤ 1024) }
    ensures { Waiting left.now list.new result }
{
    let mut t = 0;
    for e in 0..left.len() {
        t = list_free(left, list, t, e);
    }
    t
}

// Takes away the arrow of dart c, if it leaves its event. Where it was the last into its head, that goes on the list; answers the list's end.
// Nothing branches on the direction or on the count: an entering dart leaves its own event's count as it is, and what stands at the list's end counts
// only once the end is moved.
fn free(chart: &Chart<'_>, left: &mut [u16], list: &mut [u16], t: usize, c: usize) -> usize
    requires known { (c < chart.now.darts) × (t ≤ 1024) × EventsKnown (drawn chart.now) }
    requires left_len { (length left.old ≡ (drawn chart.now).events) × (enters c ≡ 0 → Ready (drawn chart.now) c left.old list.old t) }
    ensures { Freed (drawn chart.now) c left.old list.old t left.new list.new result }
{
    let m = c % 2;
    let e = chart.event_of(c + 1 - m);
    let k = words::get(left, e);
    words::put(left, e, k + m - 1);
    if list.len() <= t {
        return t;
    }
    words::put(list, t, e);
    t + words::below(k + 2 * m, 2)
}

// Takes away the arrows that leave the event at place h of the list, and answers the list's new end.
fn peel_one(
    chart: &Chart<'_>,
    first: &[u16],
    left: &mut [u16],
    list: &mut [u16],
    h: usize,
    t: usize,
) -> usize
    requires known { EventsKnown (drawn chart.now) × Rings (drawn chart.now) × Firsts (drawn chart.now) first.now }
    requires peeled { Peeled (drawn chart.now) left.old list.old h t × (h < t) }
    ensures { Peeled (drawn chart.now) left.new list.new (h + 1) result }
{
    let f = words::get(first, words::get(list, h));
    let mut count = t;
    let mut c = f;
    loop {
        count = free(chart, left, list, count, c);
        let e = chart.next_of(c);
        if e == f {
            break;
        }
        c = e;
    }
    count
}

// Takes away events that no arrow enters, with their arrows, as long as there are any; answers how many went.
fn peel_all(chart: &Chart<'_>, first: &[u16], left: &mut [u16], list: &mut [u16]) -> usize
    requires known { EventsKnown (drawn chart.now) × Rings (drawn chart.now) × Firsts (drawn chart.now) first.now }
    requires left_value { (left.old ≡ replicate (drawn chart.now).events 0) × (length list.old ≡ (drawn chart.now).events) }
    ensures { Peeled (drawn chart.now) left.new list.new result result }
{
    count_entering(chart, left);
    let chart = *chart;
    let mut t = list_all_free(left, list);
    let mut h = 0;
    // no range: the list grows while it is gone through
    while h < t {
        t = peel_one(&chart, first, left, list, h, t);
        h += 1;
    }
    t
}

// Where arrow a runs between events with arrows left, stores it at its head, and answers that event; else answers e.
fn enter(chart: &Chart<'_>, left: &[u16], into: &mut [u16], a: usize, e: usize) -> usize
    requires known { EventsKnown (drawn chart.now) × (a < arrows (drawn chart.now)) }
    requires left_len { (length left.now ≡ (drawn chart.now).events) × (length into.old ≡ (drawn chart.now).events) }
    ensures { Entering (drawn chart.now) left.now into.old a e into.new result }
{
    if words::get(left, chart.event_of(2 * a)) < 1 {
        return e;
    }
    let h = chart.event_of(2 * a + 1);
    if words::get(left, h) < 1 {
        return e;
    }
    words::put(into, h, a);
    h
}

// For each event with arrows left stores one from such an event, and answers such an event.
fn choose(chart: &Chart<'_>, left: &[u16], into: &mut [u16]) -> usize
    requires known { EventsKnown (drawn chart.now) }
    requires kept { Kept (drawn chart.now) left.now × (length into.old ≡ (drawn chart.now).events) }
    ensures { Chosen (drawn chart.now) left.now into.new result }
{
    let chart = *chart;
    let mut e = 0;
    for a in 0..chart.darts / 2 {
        e = enter(&chart, left, into, a, e);
    }
    e
}

// Writes a circle among the events with arrows left, its lowest arrow first, and answers how many arrows it has.
fn write_circle(chart: &Chart<'_>, left: &[u16], into: &mut [u16], out: &mut [u16]) -> usize
    requires known { EventsKnown (drawn chart.now) × Kept (drawn chart.now) left.now }
    requires into_len { (length into.old ≡ (drawn chart.now).events) × (length out.old ≡ (drawn chart.now).events) }
    ensures { CircleFound (drawn chart.now) out.new (Some result) }
{
    let some = choose(chart, left, into);
    let way = Way {
        chart: *chart,
        into,
    };
    let s = way.lowest(way.far_back(some));
    let m = way.size(s);
    way.write_back(s, &mut out[..m]);
    m
}

// The same with a table of its own, of an entering arrow of each of at most N events: only a chart with a circle pays for it.
fn circle_in<const N: usize>(chart: &Chart<'_>, left: &[u16], out: &mut [u16]) -> usize
    requires known { EventsKnown (drawn chart.now) × Kept (drawn chart.now) left.now }
    requires left_len { (length left.now ≤ N) × (N ≤ 1024) × (length out.old ≡ (drawn chart.now).events) }
    ensures { CircleFound (drawn chart.now) out.new (Some result) }
{
    let mut into = [0u16; N];
    write_circle(chart, left, &mut into[..left.len()], out)
}

// Writes the arrows of a circle, its lowest arrow first, and answers how many it has; or answers None where there is no circle. The table left comes with
// 0 for each event, and goes with the arrows left there.
pub fn find_circle(
    chart: &Chart<'_>,
    first: &[u16],
    left: &mut [u16],
    out: &mut [u16],
) -> Option<usize>
    requires known { EventsKnown (drawn chart.now) × Rings (drawn chart.now) × Firsts (drawn chart.now) first.now }
    requires left_value { (left.old ≡ replicate (drawn chart.now).events 0) × (length out.old ≡ (drawn chart.now).events) }
    ensures { CircleFound (drawn chart.now) out.new result }
{
    let gone = peel_all(chart, first, left, out);
    if first.len() <= gone {
        return None;
    }
    if left.len() <= 32 {
        Some(circle_in::<32>(chart, left, out))
    } else {
        Some(circle_in::<1024>(chart, left, out))
    }
}
