// Lines in, answers out, on slices: bytes are heard, and where a line ends in them its answer is put.
ghost use Rattle.std.specs.Prelude.{◌≡◌, length};
ghost use Rattle.hearing.specs.Lines.{heard};
ghost use Rattle.calls.specs.Serving.{Served};
ghost use Rattle.calls.specs.Replies.{ServedLines, room_at, begun_line, ServedLast};

use crate::answer::answer;
use hearing::line::{Line, hear, line_in, line_start};
use text::put::Out;
use words::limits::ANSWER_MOST;

// Where serving has come to: the present line, the next byte to serve, and the next place for an answer.
#[derive(Clone, Copy)]
pub struct Place {
    pub line: Line,
    pub next: usize,
    pub at: usize,
}

// Serves bytes up to the end of the present line, or all where it does not end in them: hears them, puts the answer where
// the line has ended, and answers how many bytes were served.
fn serve_line(
    line: &mut Line,
    bytes: &[u8],
    name: &mut [u8],
    numbers: &mut [u32],
    out: &mut Out,
) -> usize
    ensures { Served (heard line.old name.old numbers.old) bytes.now out.old
        (heard line.new name.new numbers.new) result out.new }
{
    let k = line_in(bytes);
    let more = hear(*line, &bytes[..k], name, numbers);
    if k == bytes.len() {
        *line = more;
        return k;
    }
    answer(more, name, numbers, out);
    let anew = line_start();
    *line = anew;
    let next = k + 1;
    next
}

// Says whether there is room for one more answer.
#[tactic(auto, using(words::proofs::Longest::table_most_lem), unfolding(crate::specs::Replies::room_at))]
fn has_room(out: &Out) -> bool
    ensures { result ≡ room_at (length out.now.bytes.now) out.now.at }
{
    out.at <= out.bytes.len() && ANSWER_MOST <= out.bytes.len() - out.at
}

// Serves bytes line by line, until all are served or there is no more room, and puts the answers from the run's start
// on. The first line is served in any case.
pub fn serve_lines(
    line: Line,
    bytes: &[u8],
    name: &mut [u8],
    numbers: &mut [u32],
    out: &mut [u8],
) -> Place
    ensures { ServedLines (heard line name.old numbers.old) bytes.now out.old
        (heard result.line name.new numbers.new) result.next out.new result.at }
{
    let mut answers = Out { bytes: out, at: 0 };
    let mut present = line;
    let mut next = 0;
    // (No `for`: how many bytes a turn serves is not known before it.)
    while next < bytes.len() {
        next += serve_line(&mut present, &bytes[next..], name, numbers, &mut answers);
        if !has_room(&answers) {
            return Place {
                line: present,
                next,
                at: answers.at,
            };
        }
    }
    Place {
        line: present,
        next,
        at: answers.at,
    }
}

// Says whether anything has come of a line.
fn has_begun(line: Line) -> bool
    ensures { result ≡ begun_line line }
{
    line.named || 0 < line.length
}

// Puts the answer to a last line that no LF ends, where anything has come of it, from the run's start on, and answers the
// place after it.
pub fn put_last(line: Line, name: &[u8], numbers: &mut [u32], out: &mut [u8]) -> usize
    ensures { ServedLast (heard line name.now numbers.old) out.old numbers.new out.new result }
{
    if !has_begun(line) {
        return 0;
    }
    let mut last = Out { bytes: out, at: 0 };
    answer(line, name, numbers, &mut last);
    last.at
}
