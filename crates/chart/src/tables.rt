// A chart's two tables, read in place: the event of each dart, and its clockwise successor; and the header's numbers.
ghost use Rattle.std.specs.Prelude.{◌≡◌, ◌<◌};
ghost use Rattle.drawing.specs.Drawing.{event, after};
ghost use Rattle.chart.specs.Shape.{Shape};

// A chart whose header and length are in order: its bytes, and how many darts it has.
#[derive(Clone, Copy)]
pub struct Chart<'a> {
    pub bytes: &'a [u8],
    pub darts: usize,
    ghost shape: { Shape bytes.now darts },
}

impl<'a> Chart<'a> {
    ghost use Rattle.chart.specs.Charts.{drawn};

    // The event of dart d.
    pub fn event_of(&self, d: usize) -> usize
        requires { d < self.now.darts }
        ensures { result ≡ event (drawn self.now) d }
    {
        words::word(&self.bytes, 11 + 2 * d)
    }

    // The clockwise successor of dart d.
    pub fn next_of(&self, d: usize) -> usize
        requires { d < self.now.darts }
        ensures { result ≡ after (drawn self.now) d }
    {
        words::word(&self.bytes[11 + 2 * self.darts..], 2 * d)
    }

    // ---- the header's numbers

    pub fn event_count(&self) -> usize
        ensures { result ≡ (drawn self.now).events }
    {
        words::word(&self.bytes, 5)
    }

    pub fn outer_dart(&self) -> usize
        ensures { result ≡ (drawn self.now).outer }
    {
        words::word(&self.bytes, 9)
    }
}
