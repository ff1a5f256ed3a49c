// A place for one source or sink: near, where it touches a face with room; or by a search, and moves.
//
// A search lists faces: those that the event touches, then for each listed face those that the events placed there touch, up to
// a face with room. That gives the way back, along which events move one by one. Where no listed face has room, the event and
// all who are placed in listed faces are a crowd: too many for the faces that they touch.
#![tactic(auto)]

ghost use Rattle.std.specs.Prelude.{◌≡◌, ◌<◌, length, IfSome};
ghost use Rattle.drawing.specs.Drawing.{event, after, faces};
ghost use Rattle.chart.specs.Charts.{drawn};
ghost use Rattle.placing.specs.Board.{Board, turn as next_corner};
ghost use Rattle.placing.specs.Search.{Blank, Lists, Adds, Touches, Visits, Scans, Placed};
ghost use Rattle.search.specs.Lists.{Ready, Same, Begins, Answer};
ghost use Rattle.search.specs.Steps.{Near, Sits, Shifts, Seeks, Sought};

use chart::Chart;
use std::ops::ControlFlow::{self, Break, Continue};

// What a search reads: the chart, the face of each corner, the room left in each face, and the place of each event.
#[derive(Clone, Copy)]
struct Seating<'c, 'a> {
    chart: Chart<'c>,
    here: &'a [u16],
    spare: &'a [u16],
    large: &'a [u16],
}

// The faces that a search has listed: in via, up to end, a corner of each, and in rank the place of each there, counted from 1.
// A slice with its end: the memory is lent, and fixed.
#[derive(Drop)]
struct FaceList<'a> {
    rank: &'a mut [u16],
    via: &'a mut [u16],
    end: usize,
}

// The next corner of the face of corner c.
fn turn(chart: &Chart<'_>, c: usize) -> usize
    requires { (c < chart.now.darts) × (after (drawn chart.now) c < chart.now.darts) }
    ensures { result ≡ next_corner (drawn chart.now) c }
{
    words::twin(chart.next_of(c))
}

impl FaceList<'_> {
    // Lists the face of corner c, unless it is listed; breaks off with its place there, where it has room.
    fn add(&mut self, seating: &Seating<'_, '_>, c: usize) -> ControlFlow<usize>
        requires { Ready seating.now self.old × (c < seating.now.chart.darts) }
        ensures answer { Adds seating.now.here.now seating.now.spare.now c self.old.rank.now self.old.via.now self.old.end self.new.rank.now self.new.via.now self.new.end result }
        ensures same { Same self.old self.new }
    {
        let f = words::get(seating.here, c);
        if 1 <= self.rank[f] {
            return Continue(());
        }
        let t = self.end;
        words::put(self.via, t, c);
        words::put(self.rank, f, t + 1);
        self.end = t + 1;
        if 1 <= words::get(seating.spare, f) {
            return Break(t);
        }
        Continue(())
    }

    // Lists the faces that the event of corner first touches, going round it, up to one that has room.
    fn touch(&mut self, seating: &Seating<'_, '_>, first: usize) -> ControlFlow<usize>
        requires { Ready seating.now self.old × (first < seating.now.chart.darts) }
        ensures answer { Touches (drawn seating.now.chart) seating.now.here.now seating.now.spare.now (event (drawn seating.now.chart) first) self.old.rank.now self.old.via.now self.old.end self.new.rank.now self.new.via.now self.new.end result }
        ensures same { Same self.old self.new }
    {
        let mut c = first;
        loop {
            self.add(seating, c)?;
            c = seating.chart.next_of(c);
            if c == first {
                return Continue(());
            }
        }
    }

    // Where c is the place of its event, lists the faces that the event touches.
    fn visit(&mut self, seating: &Seating<'_, '_>, c: usize) -> ControlFlow<usize>
        requires { Ready seating.now self.old × (c < seating.now.chart.darts) }
        ensures answer { Visits (drawn seating.now.chart) seating.now.here.now seating.now.large.now seating.now.spare.now c self.old.rank.now self.old.via.now self.old.end self.new.rank.now self.new.via.now self.new.end result }
        ensures same { Same self.old self.new }
    {
        let e = seating.chart.event_of(c);
        if words::get(seating.large, e) == c {
            return self.touch(seating, c);
        }
        Continue(())
    }

    // Lists the faces that the events placed in the face of corner first touch, going round the face, up to one that has room.
    fn scan(&mut self, seating: &Seating<'_, '_>, first: usize) -> ControlFlow<usize>
        requires { Ready seating.now self.old × (first < seating.now.chart.darts) }
        ensures answer { Scans (drawn seating.now.chart) seating.now.here.now seating.now.large.now seating.now.spare.now first self.old.rank.now self.old.via.now self.old.end self.new.rank.now self.new.via.now self.new.end result }
        ensures same { Same self.old self.new }
    {
        let mut c = first;
        loop {
            self.visit(seating, c)?;
            c = turn(&seating.chart, c);
            if c == first {
                return Continue(());
            }
        }
    }

    // Looks for a place of the event of corner first. The list, empty at first, goes on from each of its faces, all full, up to one
    // that has room: there it breaks off. Otherwise it comes to its end, with no place.
    fn search(&mut self, seating: &Seating<'_, '_>, first: usize) -> ControlFlow<usize>
        requires { Begins seating.now self.old first }
        ensures answer { Answer seating.now first self.new result }
        ensures same { Same self.old self.new }
    {
        self.touch(seating, first)?;
        let mut h = 0;
        // no range: the list grows while it is gone through
        while h < self.end {
            let c = usize::from(self.via[h]);
            self.scan(seating, c)?;
            h += 1;
        }
        Continue(())
    }
}

// Takes the faces of a list's corners off it: a search clears what it listed and no more.
fn clear(here: &[u16], rank: &mut [u16], list: &[u16])
    requires { Lists here.now rank.old list.now }
    ensures { Blank rank.new }
{
    for c in list {
        let f = words::get(here, usize::from(*c));
        words::put(rank, f, 0);
    }
}

// A corner of the event of corner first whose face has room, the next from there on, if there is one. Most events find their place so, without a list.
pub fn room_near(chart: &Chart<'_>, here: &[u16], spare: &[u16], first: usize) -> Option<usize>
    requires { Board (drawn chart.now) here.now × (length spare.now ≡ faces (drawn chart.now)) × (first < chart.now.darts) }
    ensures { IfSome result (Near (drawn chart.now) here.now spare.now first) }
{
    let mut c = first;
    loop {
        if 1 <= words::get(spare, words::get(here, c)) {
            return Some(c);
        }
        c = chart.next_of(c);
        if c == first {
            return None;
        }
    }
}

// Gives event e the corner c, whose face has room, as its place.
pub fn sit(
    chart: &Chart<'_>,
    here: &[u16],
    large: &mut [u16],
    spare: &mut [u16],
    e: usize,
    c: usize,
)
    requires { Sits (drawn chart.now) here.now large.old spare.old e c }
    ensures { Placed (drawn chart.now) here.now large.old spare.old e large.new spare.new }
{
    let f = words::get(here, c);
    words::put(large, e, c);
    let left = words::get(spare, f);
    words::put(spare, f, left - 1);
}

// Moves events one by one, from the face with room at place start of the list back to the event u, which had no place.
fn shift(
    chart: &Chart<'_>,
    here: &[u16],
    rank: &[u16],
    via: &[u16],
    large: &mut [u16],
    spare: &mut [u16],
    u: usize,
    start: usize,
)
    requires { Shifts (drawn chart.now) here.now rank.now via.now large.old spare.old u start }
    ensures { Placed (drawn chart.now) here.now large.old spare.old u large.new spare.new }
{
    let mut i = start;
    loop {
        let c = words::get(via, i);
        let e = chart.event_of(c);
        let f = words::get(here, c);
        let old = words::get(large, e);
        words::put(large, e, c);
        let a = words::get(spare, f);
        words::put(spare, f, a - 1);
        if e == u {
            return;
        }
        let h = words::get(here, old);
        let b = words::get(spare, h);
        words::put(spare, h, b + 1);
        let q = words::get(rank, h);
        i = q - 1;
    }
}

// Places the event u of corner first by a search, if it has a place, and says whether it has.
pub fn seek(
    chart: &Chart<'_>,
    here: &[u16],
    large: &mut [u16],
    spare: &mut [u16],
    rank: &mut [u16],
    via: &mut [u16],
    u: usize,
    first: usize,
) -> bool
    requires { Seeks (drawn chart.now) here.now large.old spare.old rank.old via.old u first }
    ensures { Sought (drawn chart.now) here.now large.old spare.old u large.new spare.new rank.new via.new result }
{
    let mut list = FaceList { rank, via, end: 0 };
    let seating = Seating {
        chart: *chart,
        here,
        spare,
        large,
    };
    let Break(i) = list.search(&seating, first) else {
        return false;
    };
    let FaceList { rank, via, .. } = list;
    shift(chart, here, rank, via, large, spare, u, i);
    clear(here, rank, &via[..i + 1]);
    true
}
