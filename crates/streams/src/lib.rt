// What the programs share: an input read to its end, the charts that stand in it, a listing written out, and what can go wrong with these.
// No contract fixes what the system answers: each function here says what an answer means, and the two that ask the system do nothing else.
#![tactic(auto)]

ghost use Rattle.std.specs.Prelude.{◌-◌, ◌≤◌, ◌≡◌, length, Some};
ghost use Rattle.rules.specs.Listing.{input_room};
ghost use Rattle.lines.specs.Printed.{listing_room};
ghost use Rattle.streams.specs.Answers.{Moved, standard_input, standard_output, Fitting, step_of};
ghost use Rattle.streams.specs.Counted.{Within, Ends};
ghost use Rattle.streams.specs.Texts.{Shown, Written};
ghost use Rattle.streams.specs.Endings.{Ended, FromInput};
ghost use Rattle.streams.specs.declared.WriteError.TheVariants.{Io};
ghost use Rattle.streams.specs.declared.StreamError.TheVariants.{NotWritten};

use std::error::Error;
use std::io::{Read, Write};
use std::ops::ControlFlow;
use std::os::fd::AsRawFd;
use std::{fmt, io};

// ---- what went wrong

// Why a listing is not written: there is too little room for its text, or the system did not take it.
#[derive(Clone, Copy, Debug)]
pub enum WriteError {
    NoRoom,
    Io(io::Error),
}

impl From<io::Error> for WriteError {
    ghost from_gives = { λ e r. r ≡ Io e };

    fn from(e: io::Error) -> WriteError {
        WriteError::Io(e)
    }
}

// Why a program stops: its input could not be read, or ends within a chart, or a listing is not written.
#[derive(Clone, Copy, Debug)]
pub enum StreamError {
    NotRead(io::Error),
    CutShort,
    NotWritten(WriteError),
}

impl From<WriteError> for StreamError {
    ghost from_gives = { λ e r. r ≡ NotWritten e };

    fn from(e: WriteError) -> StreamError {
        StreamError::NotWritten(e)
    }
}

// The stream, and the words of the system where it said why.
impl fmt::Display for StreamError {
    fn fmt<W: fmt::Write>(&self, f: &mut fmt::Formatter<W>) -> fmt::Result {
        match self {
            StreamError::NotRead(e) => write!(f, "standard input: {e}"),
            StreamError::CutShort => write!(f, "standard input ends within a chart"),
            StreamError::NotWritten(WriteError::NoRoom) => write!(f, "standard output"),
            StreamError::NotWritten(WriteError::Io(e)) => write!(f, "standard output: {e}"),
        }
    }
}

impl Error for StreamError {}

// Writes a line to standard error: which program, and what went wrong.
pub fn complain<E: fmt::Display + Drop>(rt: &HostRuntime, program: &str, e: E) {
    let _ = eprintln!(rt; "{program}: {e}");
}

// ---- the input

// Asks the system for bytes of standard input, into buf from `at` on: how many came.
fn read_at<R: Read + AsRawFd>(input: &mut R, buf: &mut [u8], at: usize) -> io::Result<usize>
    requires descriptor { R.raw_fd input.old ≡ Some standard_input }
    requires at_in_bounds { at ≤ length buf.old }
    ensures { Moved (length buf.old - at) result }
{
    input.read(&mut buf[at..])
}

// What the answer `got` means where `at` bytes had come: so many have come and there may be more, or how the input ends.
fn after(at: usize, got: io::Result<usize>) -> ControlFlow<io::Result<usize>, usize>
    requires { Fitting at got }
    ensures { result ≡ step_of at got }
{
    match got {
        Ok(0) => ControlFlow::Break(Ok(at)),
        Ok(n) => ControlFlow::Continue(at + n),
        Err(e) => ControlFlow::Break(Err(e)),
    }
}

// Reads standard input until it ends or buf is full: how many bytes came.
pub fn read_all(rt: &HostRuntime, buf: &mut [u8]) -> io::Result<usize>
    ensures { Within 0 result (length buf.new) }
{
    // the place moves by what came
    let mut at = 0;
    while at < buf.len() {
        let got = read_at(&mut rt.stdin(), buf, at);
        match after(at, got) {
            ControlFlow::Continue(more) => at = more,
            ControlFlow::Break(came) => return came,
        }
    }
    Ok(at)
}

// The end of the chart that stands at `at`: its length in 16 bits, then its bytes. None where the input ends before.
pub fn chart_end(input: &[u8], at: usize) -> Option<usize>
    ensures { Ends input.now at result }
{
    let left = input.len().checked_sub(at)?;
    if left < 2 {
        return None;
    }
    let size = words::word(input, at);
    if left - 2 < size {
        return None;
    }
    Some(at + 2 + size)
}

// ---- the listing

// Hands the listing of a chart to the system for standard output, whole, and answers whether the system took it.
fn write_text<W: Write + AsRawFd>(output: &mut W, chart: &[u8], text: &[u8]) -> io::Result<()>
    requires descriptor { W.raw_fd output.old ≡ Some standard_output }
    requires shown { Shown chart.now text.now }
{
    output.write_all(text)
}

// Lists a chart in text, and hands the listing to standard output. The answer is what the system gave; NoRoom where text has too little room.
pub fn write_listing(rt: &HostRuntime, chart: &[u8], text: &mut [u8]) -> Result<(), WriteError>
    ensures { Written chart.now text.old text.new result }
{
    let size = printed::list_chart(chart, text).ok_or(WriteError::NoRoom)?;
    write_text(&mut rt.stdout(), chart, &text[..size])?;
    Ok(())
}

// Lists what came of the room, and says how that ended.
fn list_came(
    rt: &HostRuntime,
    came: io::Result<usize>,
    room: &[u8],
    text: &mut [u8],
) -> Result<(), StreamError>
    requires { Within 0 came (length room.now) }
    ensures { Ended came room.now text.old text.new result }
{
    let n = came.map_err(StreamError::NotRead)?;
    write_listing(rt, &room[..n], text)?;
    Ok(())
}

// Reads standard input into the room, and lists what came.
fn list_read(rt: &HostRuntime, room: &mut [u8], text: &mut [u8]) -> Result<(), StreamError>
    requires { (length room.old ≡ input_room) × (listing_room ≤ length text.old) }
    ensures { FromInput room.new text.old text.new result }
{
    let came = read_all(rt, room);
    list_came(rt, came, room, text)
}

// The listing program: standard input, one byte over the limit, so that an overlong chart gets 5; its listing to standard output.
pub fn list_input(
    rt: &HostRuntime,
    room: &mut [u8; 24588],
    text: &mut [u8; 36864],
) -> Result<(), StreamError>
    ensures { FromInput room.new text.old text.new result }
{
    list_read(rt, room, text)
}
