// Header lines counted: how many there are, how many of them are refused, and which of those is the first.
ghost use Rattle.std.specs.Prelude.{◌≡◌};
ghost use Rattle.answers.specs.Counts.{no_lines, counted_by};

use crate::answer::HeaderFlaw;

// Lines that were refused: how many they are, the number of the first, counted from 1, and why it was.
#[derive(Clone, Copy)]
pub struct RefusedLines {
    pub count: u64,
    pub first: u64,
    pub flaw: Option<HeaderFlaw>,
}

// What the lines that have ended come to: how many they are, and those that were refused, if any was.
#[derive(Clone, Copy)]
pub struct HeadersSoFar {
    pub lines: u64,
    pub refused: Option<RefusedLines>,
}

// Makes the count of no line.
pub fn count_start() -> HeadersSoFar
    ensures { result ≡ no_lines }
{
    HeadersSoFar {
        lines: 0,
        refused: None,
    }
}

// Counts a line that has ended, with its flaw. Where 0 lines were refused before, this is the first; a count stays where a
// word ends.
pub fn counted(headers: HeadersSoFar, flaw: Option<HeaderFlaw>) -> HeadersSoFar
    ensures { result ≡ counted_by headers flaw }
{
    let lines = headers.lines.saturating_add(1);
    let Some(why) = flaw else {
        return HeadersSoFar { lines, ..headers };
    };
    let refused = match headers.refused {
        Some(before) if before.count > 0 => RefusedLines {
            count: before.count.saturating_add(1),
            ..before
        },
        _ => RefusedLines {
            count: 1,
            first: lines,
            flaw: Some(why),
        },
    };
    HeadersSoFar {
        lines,
        refused: Some(refused),
    }
}
