// Places for sources and sinks: a labelling, or a cut where there is none.
//
// A placement has for each source and sink one of its own corners, its large one, and no face holds more of them than its
// room. First everyone sits who touches a face with room. For each who is left over a search (the crate search) lists the
// faces that it can reach by moves, up to one with room, and events move one by one. Where no listed face has room, the event
// and all who are placed in listed faces are a cut.
#![tactic(auto)]

ghost use Rattle.std.specs.Prelude.{◌≡◌, ◌+◌, ◌%◌, ◌≤◌, ◌<◌, length};
ghost use Rattle.finite.specs.Says.{Says};
ghost use Rattle.drawing.specs.Drawing.{faces};
ghost use Rattle.drawing.specs.Conditions.{EventsKnown};
ghost use Rattle.chart.specs.Charts.{drawn};
ghost use Rattle.words.specs.Tables.{nth};
ghost use Rattle.placing.specs.Board.{hold, Own};
ghost use Rattle.placing.specs.Search.{member, Listing};
ghost use Rattle.search.specs.Steps.{Fresh};
ghost use Rattle.places.specs.Steps.{Ranks, Turn, Seated, Begin, SeatedAll, Late, Housed, Left, Settled, Rest, Plains, Labels};
ghost use Rattle.places.specs.Found.{Ready, Found};

use chart::Chart;

// What an event's turn comes to: it needs no place, or has one; it sits down in one; or it is left over.
#[derive(Clone, Copy, PartialEq, Eq)]
enum Outcome {
    Skipped,
    Sat,
    LeftOver,
}

// The tables stand as parameters and not in a struct: which of them a step writes, its signature then says, and no clause has to.

// Seats event e if it is a source or sink and touches a face with room.
fn seat(
    chart: &Chart<'_>,
    here: &[u16],
    poles: &[u16],
    first: &[u16],
    large: &mut [u16],
    spare: &mut [u16],
    e: usize,
) -> Outcome
    requires { Turn (drawn chart.now) here.now poles.now first.now large.old spare.old e }
    ensures { Seated (drawn chart.now) here.now poles.now large.old spare.old e large.new spare.new result }
{
    if words::get(poles, e) != 1 {
        return Outcome::Skipped;
    }
    let d = words::get(first, e);
    let Some(c) = search::room_near(chart, here, spare, d) else {
        return Outcome::LeftOver;
    };
    search::sit(chart, here, large, spare, e, c);
    Outcome::Sat
}

// Everyone sits who can, in event order. Returns the first who is left over, if anyone is.
fn seat_all(
    chart: &Chart<'_>,
    here: &[u16],
    poles: &[u16],
    first: &[u16],
    large: &mut [u16],
    spare: &mut [u16],
) -> Option<usize>
    requires { Begin (drawn chart.now) here.now poles.now first.now large.old spare.old }
    ensures { SeatedAll (drawn chart.now) here.now poles.now (nth spare.old) large.new spare.new result }
{
    let chart = *chart;
    let mut left = None;
    for e in 0..poles.len() {
        let outcome = seat(&chart, here, poles, first, large, spare, e);
        if outcome == Outcome::LeftOver {
            left = left.or(Some(e));
        }
    }
    left
}

// Finds a place for event e if it is a source or sink that has none.
fn house(
    chart: &Chart<'_>,
    here: &[u16],
    poles: &[u16],
    first: &[u16],
    large: &mut [u16],
    spare: &mut [u16],
    rank: &mut [u16],
    via: &mut [u16],
    e: usize,
) -> Outcome
    requires { Late (drawn chart.now) here.now poles.now first.now large.old spare.old rank.old via.old e }
    ensures { Housed (drawn chart.now) here.now poles.now large.old spare.old e large.new spare.new rank.new via.new result }
{
    if words::get(poles, e) != 1 {
        return Outcome::Skipped;
    }
    if words::get(large, e) < chart.darts {
        return Outcome::Skipped;
    }
    let d = words::get(first, e);
    if search::seek(chart, here, large, spare, rank, via, e, d) {
        Outcome::Sat
    } else {
        Outcome::LeftOver
    }
}

// Places the sources and sinks that are left, from w on in event order. Returns the first that has no place, if one has none.
fn settle(
    chart: &Chart<'_>,
    here: &[u16],
    poles: &[u16],
    first: &[u16],
    large: &mut [u16],
    spare: &mut [u16],
    rank: &mut [u16],
    via: &mut [u16],
    w: usize,
) -> Option<usize>
    requires { Left (drawn chart.now) here.now poles.now first.now large.old spare.old w × Fresh (faces (drawn chart.now)) rank.old via.old }
    ensures { Settled (drawn chart.now) here.now poles.now (hold (drawn chart.now) here.now large.old spare.old) large.new rank.new result }
{
    for e in w..poles.len() {
        let outcome = house(chart, here, poles, first, large, spare, rank, via, e);
        if outcome == Outcome::LeftOver {
            return Some(e);
        }
    }
    None
}

// 1 if the corner between a dart c and its successor d is plain, 0 if it is a switch.
fn plain_of(c: usize, d: usize) -> u8
    ensures { result ≡ (c % 2 + d % 2) % 2 }
{
    u8::from(c % 2 != d % 2)
}

// Writes the label that each corner has before anyone is placed: 1 if it is plain, else 0.
fn write_plain(chart: &Chart<'_>, labels: &mut [u8])
    requires { length labels.old ≡ chart.now.darts }
    ensures { Plains (drawn chart.now) labels.new }
{
    let chart = *chart;
    for (c, label) in labels.iter_mut().enumerate() {
        *label = plain_of(c, chart.next_of(c));
    }
}

// Writes the label of each corner: 2 more where it is its event's place, 1 more where it is plain.
fn write_labels(chart: &Chart<'_>, large: &[u16], labels: &mut [u8])
    requires { (length labels.old ≡ chart.now.darts) × (length large.now ≡ (drawn chart.now).events) × EventsKnown (drawn chart.now) × Own (drawn chart.now) large.now }
    ensures { Labels (drawn chart.now) large.now labels.new }
{
    write_plain(chart, labels);
    for place in large {
        let c = usize::from(*place);
        if c < chart.darts {
            labels[c] += 2;
        }
    }
}

// Whether event v is in the cut that was found where u had no place.
fn in_cut(here: &[u16], large: &[u16], rank: &[u16], u: usize, v: usize) -> bool
    requires { (v < length large.now) × Ranks here.now rank.now }
    ensures { Says result (1 ≤ member here.now large.now rank.now u v) }
{
    if u == v {
        return true;
    }
    let c = words::get(large, v);
    c < here.len() && 1 <= words::get(rank, words::get(here, c))
}

// Writes the events of the cut, ascending, and returns how many there are.
fn cut_list(here: &[u16], large: &[u16], rank: &[u16], u: usize, list: &mut [u16]) -> usize
    requires { Ranks here.now rank.now × (length list.old ≡ length large.now) × (length large.now ≤ 1024) }
    ensures { Listing (length large.now) (member here.now large.now rank.now u) list.new result }
{
    let mut k = 0;
    for v in 0..large.len() {
        if in_cut(here, large, rank, u, v) {
            words::put(list, k, v);
            k += 1;
        }
    }
    k
}

// The searches on their tables: nothing is listed. Where not all are placed, writes a cut and returns how many events it has.
fn searches(
    chart: &Chart<'_>,
    here: &[u16],
    first: &[u16],
    large: &mut [u16],
    spare: &mut [u16],
    rank: &mut [u16],
    via: &mut [u16],
    list: &mut [u16],
    w: usize,
) -> Option<usize>
    requires { Left (drawn chart.now) here.now list.old first.now large.old spare.old w × Fresh (faces (drawn chart.now)) rank.old via.old }
    ensures { Rest (drawn chart.now) here.now list.old (hold (drawn chart.now) here.now large.old spare.old) large.new list.new result }
{
    let u = settle(chart, here, list, first, large, spare, rank, via, w)?;
    Some(cut_list(here, large, rank, u, list))
}

// The tables of the searches over at most N faces: only a chart where someone is left over pays for them.
fn search_in<const N: usize>(
    chart: &Chart<'_>,
    here: &[u16],
    first: &[u16],
    large: &mut [u16],
    spare: &mut [u16],
    list: &mut [u16],
    w: usize,
) -> Option<usize>
    requires { Left (drawn chart.now) here.now list.old first.now large.old spare.old w × (faces (drawn chart.now) ≤ N) × (N ≤ 3072) }
    ensures { Rest (drawn chart.now) here.now list.old (hold (drawn chart.now) here.now large.old spare.old) large.new list.new result }
{
    let mut rank = [0u16; N];
    let mut via = [0u16; N];
    let (ranks, vias) = (&mut rank[..], &mut via[..]);
    let f = spare.len();
    searches(
        chart,
        here,
        first,
        large,
        spare,
        &mut ranks[..f],
        &mut vias[..f],
        list,
        w,
    )
}

// Everyone is placed; or a cut is written, and how many events it has is returned.
fn place_all(
    chart: &Chart<'_>,
    here: &[u16],
    first: &[u16],
    large: &mut [u16],
    spare: &mut [u16],
    list: &mut [u16],
) -> Option<usize>
    requires { Begin (drawn chart.now) here.now list.old first.now large.old spare.old }
    ensures { Rest (drawn chart.now) here.now list.old (nth spare.old) large.new list.new result }
{
    let w = seat_all(chart, here, list, first, large, spare)?;
    if spare.len() <= 32 {
        search_in::<32>(chart, here, first, large, spare, list, w)
    } else {
        search_in::<3072>(chart, here, first, large, spare, list, w)
    }
}

// Writes a labelling, and returns None; or writes the events of a cut, ascending, and returns how many there are.
// The list comes with the sources and sinks marked, and goes with the cut. The table large is scratch.
pub fn find_places(
    chart: &Chart<'_>,
    here: &[u16],
    first: &[u16],
    spare: &mut [u16],
    large: &mut [u16],
    labels: &mut [u8],
    list: &mut [u16],
) -> Option<usize>
    requires { Ready (drawn chart.now) here.now list.old first.now spare.old × (length large.old ≡ (drawn chart.now).events) × (length labels.old ≡ chart.now.darts) }
    ensures { Found (drawn chart.now) labels.old labels.new list.new result }
{
    // nobody is placed: 65535 is no corner (a table of Option would take twice the room)
    large.fill(65535);
    let cut = place_all(chart, here, first, large, spare, list);
    if cut.is_none() {
        write_labels(chart, large, labels);
    }
    cut
}
