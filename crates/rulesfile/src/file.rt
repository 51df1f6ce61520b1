// The rules file, as far as its bytes have come: each number that stands goes to its place in the lent list, and the
// first flaw is kept.
ghost use Rattle.std.specs.Prelude.{◌≡◌, ◌*◌};
ghost use Rattle.text.specs.Cells.{fed};
ghost use Rattle.text.specs.Judging.{judged};
ghost use Rattle.rulesfile.specs.Flaws.{width_flaw, line_flaw};
ghost use Rattle.rulesfile.specs.Bytes.{no_rules, judged_by, rules_in_file, rules_step, RulesTook, rules_end};

use flaws::flaw::Flaw;
use lists::shape::{MOST_FIELDS, MOST_RULES};
use text::line::{Line, Reader, end_line, read_line, reader_start};

// The most lines of a rules file, a rule each: one more is a flaw, whatever stands on it.
const MOST_LINES: u16 = MOST_RULES as u16;

// The most cells of a line, two a field.
const MOST_CELLS: u32 = MOST_FIELDS as u32 * 2;

// What the lines that have ended come to: how many they are, how many cells each has, and the first flaw.
#[derive(Clone, Copy)]
pub struct RulesSoFar {
    pub lines: u16,
    pub width: u16,
    pub flaw: Option<Flaw>,
}

// The same within a line, of which some bytes have come.
#[derive(Clone, Copy)]
pub struct RulesFile {
    pub reader: Reader,
    pub rules: RulesSoFar,
}

// Makes a rules file of which nothing has been read.
pub fn rules_start() -> RulesFile
    ensures { result ≡ no_rules }
{
    let rules = RulesSoFar {
        lines: 0,
        width: 0,
        flaw: None,
    };
    RulesFile {
        reader: reader_start(),
        rules,
    }
}

// Says where the next line's first number goes.
fn line_at(lines: u16, width: u16) -> u32
    ensures { result ≡ lines * width }
{
    lines as u32 * width as u32
}

// Gives the flaw of a first line of so many cells, all numbers.
#[tactic(auto, unfolding(crate::specs::Flaws::width_flaw))]
fn width_flaw(cells: u32) -> Option<Flaw>
    ensures { result ≡ width_flaw cells }
{
    if cells % 2 == 1 {
        return Some(Flaw::OddWidth { cells });
    }
    if MOST_CELLS < cells {
        return Some(Flaw::TooWide { cells });
    }
    None
}

// Gives the flaw of a line that has ended, after so many lines, of which the first has so many cells.
#[tactic(auto, unfolding(crate::specs::Flaws::line_flaw))]
fn line_flaw(lines: u16, width: u16, line: Line) -> Option<Flaw>
    ensures { result ≡ line_flaw lines width line.feed line.row.bad line.row.cells }
{
    if MOST_LINES <= lines {
        return Some(Flaw::TooManyRules);
    }
    let number = lines as u32 + 1;
    let row = line.row;
    if let Some(cell) = row.bad {
        if line.feed {
            return Some(Flaw::LoneFeed);
        }
        return Some(Flaw::NotNumber { line: number, cell });
    }
    if lines == 0 {
        return width_flaw(row.cells);
    }
    if row.cells == width as u32 {
        return None;
    }
    Some(Flaw::OtherWidth {
        line: number,
        cells: row.cells,
        width: width as u32,
    })
}

// Gives the rules after a line that has ended. The first flaw is kept.
#[tactic(auto, unfolding(crate::specs::Bytes::judged_by))]
fn judged(rules: RulesSoFar, line: Line) -> RulesSoFar
    ensures { result ≡ judged_by rules line }
{
    if rules.flaw.is_some() {
        return rules;
    }
    match line_flaw(rules.lines, rules.width, line) {
        Some(flaw) => RulesSoFar {
            flaw: Some(flaw),
            ..rules
        },
        None => RulesSoFar {
            lines: rules.lines + 1,
            width: line.row.cells as u16,
            flaw: None,
        },
    }
}

// The rules file after some bytes more, and how many those were.
#[derive(Clone, Copy)]
struct RulesStep {
    file: RulesFile,
    used: usize,
}

// Reads bytes to the end of the present line, or all where it does not end in them; where it ends, it is judged.
fn rules_line(file: RulesFile, bytes: &[u8], list: &mut [u32]) -> RulesStep
    ensures { RulesTook file bytes.now list.old result list.new }
{
    let rules = file.rules;
    let from = line_at(rules.lines, rules.width);
    let read = read_line(file.reader, bytes, from, list);
    let reader = read.reader;
    if !read.ended {
        return RulesStep {
            file: RulesFile { reader, rules },
            used: read.used,
        };
    }
    let line = reader.line;
    RulesStep {
        file: RulesFile {
            reader: reader_start(),
            rules: judged(rules, line),
        },
        used: read.used,
    }
}

// Reads a piece of the file, cut anywhere.
pub fn rules_piece(file: RulesFile, bytes: &[u8], list: &mut [u32]) -> RulesFile
    ensures { rules_in_file result list.new ≡ fed rules_step (rules_in_file file list.old) bytes.now }
{
    let mut present = file;
    let mut rest = bytes;
    // (No `for`: how many bytes a turn takes is not known before it.)
    while !rest.is_empty() {
        let next = rules_line(present, rest, list);
        present = next.file;
        rest = &rest[next.used..];
    }
    present
}

// Ends the file: a last line that no CRLF ends is judged.
pub fn rules_end(file: RulesFile, list: &mut [u32]) -> RulesSoFar
    ensures { judged result list.new ≡ rules_end (rules_in_file file list.old) }
{
    let rules = file.rules;
    let from = line_at(rules.lines, rules.width);
    let read = end_line(file.reader, from, list);
    if !read.ended {
        return rules;
    }
    let reader = read.reader;
    let line = reader.line;
    judged(rules, line)
}
