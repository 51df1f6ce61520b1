// Standard input to standard output: what is read is served piece by piece, and answers are written in large pieces.
ghost use Rattle.programs.specs.Output.{ShortTold};

use crate::reply::{put_last, serve_lines};
use hearing::line::{Line, line_start};
use programs::output::{say_error, write_out};
use programs::streams::Streams;
use std::io::Read;
use std::ops::ControlFlow;

// Writes the first bytes of a run, as many as stand before a place, and answers whether that went well; where it did
// not, says so on standard error.
fn flush(streams: Streams, out: &[u8], at: usize) -> bool
    ensures { ShortTold out.now at result }
{
    write_out(streams, b"calls: write", out, at)
}

// Serves the bytes of one read and writes what they answered. To go on with is the present line then; a break says
// whether all went well.
fn serve_piece(
    streams: Streams,
    line: Line,
    bytes: &[u8],
    name: &mut [u8],
    numbers: &mut [u32],
    out: &mut [u8],
) -> ControlFlow<bool, Line> {
    let mut present = line;
    let mut next = 0;
    // (No `for`: how many bytes a turn serves is not known before it.)
    while next < bytes.len() {
        let place = serve_lines(present, &bytes[next..], name, numbers, out);
        present = place.line;
        next += place.next;
        if !flush(streams, out, place.at) {
            return ControlFlow::Break(false);
        }
    }
    ControlFlow::Continue(present)
}

// Reads once and serves what came, in the same way.
fn serve_some(
    streams: Streams,
    line: Line,
    bytes: &mut [u8],
    name: &mut [u8],
    numbers: &mut [u32],
    out: &mut [u8],
) -> ControlFlow<bool, Line> {
    let mut input = streams.input;
    match input.read(bytes) {
        Ok(0) => ControlFlow::Break(serve_last(streams, line, name, numbers, out)),
        Ok(n) => serve_piece(streams, line, &bytes[..n], name, numbers, out),
        Err(error) => {
            say_error(streams, b"calls: read", error);
            ControlFlow::Break(false)
        }
    }
}

// Answers a last line that no LF ends, where there is one, and says whether its answer was written.
fn serve_last(
    streams: Streams,
    line: Line,
    name: &[u8],
    numbers: &mut [u32],
    out: &mut [u8],
) -> bool {
    let at = put_last(line, name, numbers, out);
    flush(streams, out, at)
}

// Serves standard input to its end, and says whether all of it was read and all answers were written. A proved loop has to
// end, and nothing says that the input does: so it has a number of turns that no run uses up.
pub(crate) fn serve_all(
    streams: Streams,
    bytes: &mut [u8],
    name: &mut [u8],
    numbers: &mut [u32],
    out: &mut [u8],
) -> bool {
    let mut line = line_start();
    for _ in 0..u64::MAX {
        match serve_some(streams, line, bytes, name, numbers, out) {
            ControlFlow::Continue(present) => line = present,
            ControlFlow::Break(well) => return well,
        }
    }
    false
}
