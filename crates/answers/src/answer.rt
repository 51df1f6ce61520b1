// The answer to a header line that has ended.
ghost use Rattle.std.specs.Prelude.{◌≡◌};
ghost use Rattle.lists.specs.Rules.{lent};
ghost use Rattle.answers.specs.HeaderLines.{header_flaw, answer_said};
ghost use Rattle.answers.specs.Said.{PutLine};

use crate::say::{put_looked, put_refused};
use lists::shape::RuleList;
use lookup::lookup::lookup;
use ranges::refusal::Cause;
use text::line::Line;
use text::put::Out;

// Why a header line is refused. Cells count from 1, as the reader counts them.
#[derive(Clone, Copy)]
pub enum HeaderFlaw {
    // A cell is no plain number from 0 to 4294967295.
    NotNumber { cell: u32 },
    // The same, where an LF stands in the line that no CR precedes.
    LoneFeed,
    // It hasn't as many cells as a rule has fields.
    OtherWidth { cells: u32 },
}

// Says why a line that has ended is refused, for rules of d fields, if it is.
pub fn header_flaw(line: Line, d: usize) -> Option<HeaderFlaw>
    ensures { result ≡ header_flaw d line.feed line.row.bad line.row.cells }
{
    let row = line.row;
    if let Some(cell) = row.bad {
        if line.feed {
            return Some(HeaderFlaw::LoneFeed);
        }
        return Some(HeaderFlaw::NotNumber { cell });
    }
    if row.cells as usize == d {
        return None;
    }
    Some(HeaderFlaw::OtherWidth { cells: row.cells })
}

// Puts the answer to a line: the lookup's where it has no flaw, and else refused,8.
pub fn put_answer(
    flaw: Option<HeaderFlaw>,
    list: &RuleList,
    table: &[u16],
    header: [u32; 8],
    out: &mut Out,
)
    ensures { PutLine out.old (answer_said (lent list.now) table.now flaw header) out.new }
{
    match flaw {
        Some(_) => put_refused(Cause::BadLine.number(), out),
        None => put_looked(lookup(list, table, header), out),
    }
}
