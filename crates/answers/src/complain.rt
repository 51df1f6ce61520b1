// What is said on standard error of the headers, for a person: which file, how many lines of it are refused, which is the
// first, and what is wrong there.
ghost use Rattle.text.specs.Puts.{Put, Puts};
ghost use Rattle.answers.specs.Complaints.{counted_said, why_said, lines_refused_said, headers_complaint};

use crate::answer::HeaderFlaw;
use crate::count::{HeadersSoFar, RefusedLines};
use flaws::say::{put_cells, put_feed, put_named, put_not_number, put_plural};
use text::put::Out;

// Puts a count and the word for what it counts, with an s unless it is 1.
fn put_counted(n: u64, word: &[u8], out: &mut Out)
    ensures { Puts out.old (counted_said n word.now) out.new }
{
    out.number(n);
    put_plural(n, word, out);
}

// Puts why a header line was refused, for rules of d fields; nothing where it was not.
fn put_why(flaw: Option<HeaderFlaw>, d: usize, path: &[u8], out: &mut Out)
    ensures { Puts out.old (why_said path.now d flaw) out.new }
{
    let Some(flaw) = flaw else {
        return;
    };
    match flaw {
        HeaderFlaw::NotNumber { cell } => {
            out.text(b", ");
            put_not_number(cell, out);
        }
        HeaderFlaw::LoneFeed => {
            out.text(b": ");
            put_feed(path, out);
        }
        HeaderFlaw::OtherWidth { cells } => {
            out.text(b": ");
            put_cells(cells, out);
            out.text(b", where a rule has ");
            put_counted(d as u64, b" field", out);
        }
    }
}

// Puts how many header lines were refused, and of the first which it is and why.
fn put_refused_lines(headers: HeadersSoFar, d: usize, path: &[u8], out: &mut Out)
    ensures { Puts out.old (lines_refused_said path.now d headers.refused) out.new }
{
    let none = RefusedLines {
        count: 0,
        first: 0,
        flaw: None,
    };
    let refused = headers.refused.unwrap_or(none);
    put_counted(refused.count, b" line", out);
    out.text(b" refused, the first is line ");
    out.number(refused.first);
    put_why(refused.flaw, d, path, out);
}

// Puts the line that says how many header lines were refused, and of the first which it is and why, at the front of the
// run, and answers the place after it.
pub fn put_headers_flaws(headers: HeadersSoFar, d: usize, path: &[u8], out: &mut [u8]) -> usize
    ensures { Put out.old 0 (headers_complaint path.now d headers) out.new result }
{
    let mut line = Out { bytes: out, at: 0 };
    put_named(b"gateway", path, &mut line);
    line.text(b": ");
    put_refused_lines(headers, d, path, &mut line);
    line.text(b"\n");
    line.at
}
