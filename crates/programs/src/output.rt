// Bytes out: a text, or the first bytes of a run, and what the system found wrong.
ghost use Rattle.programs.specs.Output.{ShortTold};

use crate::streams::Streams;
use std::fmt::{InlineText, Write};
use std::io::{Error, ErrorKind};

// Says on standard error what the system found wrong, with the words given in front, as one line.
pub fn say_error(streams: Streams, what: &[u8], error: Error) {
    let mut text = InlineText::<320>::new();
    let _ = write!(text, "{error}");
    say_bytes(streams, what);
    say_bytes(streams, b": ");
    say_bytes(streams, error_words(text.as_str()).as_bytes());
    say_bytes(streams, b"\n");
}

// Leaves of an error's text the system's own words, without their number.
fn error_words(text: &str) -> &str {
    text.split_once(" (os error ")
        .map_or(text, |(words, _)| words)
}

// Notes that the reader of a stream has gone away, where that is what the system found wrong, and says whether it is.
fn note_gone(streams: Streams, error: Error) -> bool {
    let is_gone = error.kind() == ErrorKind::BrokenPipe;
    if is_gone {
        streams.gone.set(true);
    }
    is_gone
}

// Writes bytes to standard error; that they can't be written there can be told to nobody.
pub fn say_bytes(streams: Streams, text: &[u8]) {
    if let Err(error) = streams.error.write_all(text) {
        let _ = note_gone(streams, error);
    }
}

// Writes a text to standard output, and answers whether that went well; where it did not, says so on standard error, with
// the words given in front, but for a reader that has gone away, which is noted. (A bool and no `Result`: the error has been
// said here, and none is left to hand on.)
pub fn write_text(streams: Streams, what: &[u8], text: &[u8]) -> bool {
    match streams.output.write_all(text) {
        Ok(()) => true,
        Err(error) => {
            if !note_gone(streams, error) {
                say_error(streams, what, error);
            }
            false
        }
    }
}

// Writes the first bytes of a run to standard output in the same way, as many as stand before a place; none, and false,
// where the run has not as many.
pub fn write_out(streams: Streams, what: &[u8], out: &[u8], at: usize) -> bool
    ensures { ShortTold out.now at result }
{
    if out.len() < at {
        return false;
    }
    write_text(streams, what, &out[..at])
}

// Writes the first bytes of a run to standard error, as many as stand before a place; none where the run has not as many.
pub fn write_error(streams: Streams, out: &[u8], at: usize) {
    if out.len() < at {
        return;
    }
    say_bytes(streams, &out[..at]);
}
