// Tests 9 to 13, shared by the test and the judge: the fault, or none, with the tables that the later work needs. Tests 9 and 10 need fewer tables than
// the others, and stand by themselves.
#![tactic(auto)]

ghost use Rattle.std.specs.Prelude.{◌≡◌, ◌*◌, ◌≤◌, length, replicate, OnOk, IfErr};
ghost use Rattle.drawing.specs.Drawing.{faces};
ghost use Rattle.drawing.specs.Conditions.{Rings};
ghost use Rattle.rules.specs.Tests.{Given};
ghost use Rattle.chart.specs.Charts.{drawn};
ghost use Rattle.chart.specs.Held.{Firsts};
ghost use Rattle.survey.specs.Faults.{fault_number, fault_entries, given};
ghost use Rattle.survey.specs.Past.{order_tests, face_tests, climb_tests, later_tests, survey_tests, Formed, Unused, Past, Clear, Walked, Evident};

use chart::Chart;

// What is wrong with a drawing: the tests 9 to 13. A circle comes with the number of its arrows; which they are, and which event is mixed, stands in a list
// that the caller lends, since memory is fixed.
#[derive(Clone, Copy, Debug, PartialEq, Eq)]
pub enum Fault {
    Order,
    Parted,
    Crossing,
    Mixed,
    Circle(usize),
}

impl Fault {
    pub fn number(self) -> usize
        ensures { result ≡ fault_number self }
    {
        match self {
            Fault::Order => 9,
            Fault::Parted => 10,
            Fault::Crossing => 11,
            Fault::Mixed => 12,
            Fault::Circle(_) => 13,
        }
    }

    // How many entries its evidence has.
    pub fn entries(self) -> usize
        ensures { result ≡ fault_entries self }
    {
        match self {
            Fault::Mixed => 1,
            Fault::Circle(arrows) => arrows,
            _ => 0,
        }
    }
}

// Tests 9 and 10. Fills first, which comes with 65535 for each event, with a dart of each; list is scratch.
pub fn check_order(chart: &Chart<'_>, first: &mut [u16], list: &mut [u16]) -> Result<(), Fault>
    requires formed { Formed (drawn chart.now) }
    requires unused { (first.old ≡ replicate (drawn chart.now).events 65535) × (length list.old ≡ (drawn chart.now).events) }
    ensures number { Given order_tests chart.now.bytes.now 0 (given result) }
    ensures firsts { OnOk result (Firsts (drawn chart.now) first.new) }
{
    if !rings::one_ring_each(chart, first, list) {
        return Err(Fault::Order);
    }
    if !rings::joins_all(chart, first) {
        return Err(Fault::Parted);
    }
    Ok(())
}

// Test 11. Fills here, which comes with 65535 for each corner, with a key for the face of each, and spare with the switch corners of each face, as far as
// it goes.
fn check_faces(chart: &Chart<'_>, here: &mut [u16], spare: &mut [u16]) -> Result<(), Fault>
    requires { Formed (drawn chart.now) × Rings (drawn chart.now) × (here.old ≡ replicate chart.now.darts 65535) }
    ensures number { Given face_tests chart.now.bytes.now 0 (given result) }
    ensures walked { OnOk result (Walked (drawn chart.now) here.new spare.new) }
{
    let f = faces::face_walk(chart, here, spare);
    if !faces::is_planar(chart, f) {
        return Err(Fault::Crossing);
    }
    Ok(())
}

// Tests 12 and 13. For a fault the list has its evidence; left comes with 0 for each event and is scratch.
fn check_climb(
    chart: &Chart<'_>,
    first: &[u16],
    list: &mut [u16],
    left: &mut [u16],
) -> Result<(), Fault>
    requires past { Formed (drawn chart.now) × Past (drawn chart.now) × Firsts (drawn chart.now) first.now }
    requires unused { (length list.old ≡ (drawn chart.now).events) × (left.old ≡ replicate (drawn chart.now).events 0) }
    ensures number { Given climb_tests chart.now.bytes.now 0 (given result) }
    ensures evident { IfErr result (λ fault. Evident (drawn chart.now) fault list.new) }
{
    if let Some(event) = climb::lowest_mixed(chart, first) {
        words::put(list, 0, event);
        return Err(Fault::Mixed);
    }
    if let Some(arrows) = climb::find_circle(chart, first, left, list) {
        return Err(Fault::Circle(arrows));
    }
    Ok(())
}

// Tests 11 to 13, of a chart past test 10. Fills here, which comes with 65535 for each corner, with a key for the face of each, and spare with the switch
// corners of each face, as far as it goes; for 12 and 13 the list has the evidence; left comes with 0 for each event and is scratch.
pub fn check_later(
    chart: &Chart<'_>,
    here: &mut [u16],
    spare: &mut [u16],
    first: &[u16],
    list: &mut [u16],
    left: &mut [u16],
) -> Result<(), Fault>
    requires formed { Formed (drawn chart.now) × Given order_tests chart.now.bytes.now 0 0 × Firsts (drawn chart.now) first.now }
    requires unused { (here.old ≡ replicate chart.now.darts 65535) × (length list.old ≡ (drawn chart.now).events) × (left.old ≡ replicate (drawn chart.now).events 0) }
    ensures number { Given later_tests chart.now.bytes.now 0 (given result) }
    ensures walked { OnOk result (Walked (drawn chart.now) here.new spare.new) }
    ensures evident { IfErr result (λ fault. Evident (drawn chart.now) fault list.new) }
{
    check_faces(chart, here, spare)?;
    check_climb(chart, first, list, left)
}

// Tests 9 to 13, on tables that are all at hand: here, first and left come as the two above want them.
pub fn check(
    chart: &Chart<'_>,
    here: &mut [u16],
    spare: &mut [u16],
    first: &mut [u16],
    list: &mut [u16],
    left: &mut [u16],
) -> Result<(), Fault>
    requires { Formed (drawn chart.now) × Unused (drawn chart.now) chart.now.darts here.old first.old list.old × (left.old ≡ replicate (drawn chart.now).events 0) }
    ensures number { Given survey_tests chart.now.bytes.now 0 (given result) }
    ensures walked { OnOk result (Walked (drawn chart.now) here.new spare.new) }
    ensures evident { IfErr result (λ fault. Evident (drawn chart.now) fault list.new) }
{
    check_order(chart, first, list)?;
    check_later(chart, here, spare, first, list, left)
}

// How many faces a chart past test 13 has: A + 2 - V, so no more than arrows.
pub fn face_count(chart: &Chart<'_>) -> usize
    requires { Clear (drawn chart.now) }
    ensures { (result ≡ faces (drawn chart.now)) × (2 * result ≤ chart.now.darts) }
{
    chart.darts / 2 + 2 - chart.event_count()
}
