// A flaw's text, put at the place of a lent run.
ghost use Rattle.text.specs.Puts.{Put, Puts};
ghost use Rattle.flaws.specs.Said.{count_said, plural_said, cells_said, not_number_said, feed_said, bad_cell_said, other_width_said, first_width_said, void_said, flaw_said, named_said, complaint_said};

use crate::flaw::Flaw;
use text::put::Out;
use text::row::EXACT_BELOW;

// Puts a count of cells.
#[tactic(auto, unfolding(crate::specs::Said::count_said))]
fn put_count(k: u32, out: &mut Out)
    ensures { Puts out.old (count_said k) out.new }
{
    if k < EXACT_BELOW {
        out.number(k as u64);
    } else {
        out.text(b"65535 or more");
    }
}

// Puts the word for what is counted, with an s unless the count is 1.
#[tactic(auto, unfolding(crate::specs::Said::plural_said))]
pub fn put_plural(n: u64, word: &[u8], out: &mut Out)
    ensures { Puts out.old (plural_said n word.now) out.new }
{
    out.text(word);
    if n != 1 {
        out.text(b"s");
    }
}

// Puts a count of cells and what it counts.
pub fn put_cells(k: u32, out: &mut Out)
    ensures { Puts out.old (cells_said k) out.new }
{
    put_count(k, out);
    put_plural(k as u64, b" cell", out);
}

// Puts which cell is no number.
pub fn put_not_number(cell: u32, out: &mut Out)
    ensures { Puts out.old (not_number_said cell) out.new }
{
    out.text(b"cell ");
    put_count(cell, out);
    out.text(b": not a plain number from 0 to 4294967295");
}

// Puts that lines end in LF, and what to do.
pub fn put_feed(path: &[u8], out: &mut Out)
    ensures { Puts out.old (feed_said path.now) out.new }
{
    out.text(b"lines end in LF and must end in CR LF: try unix2dos ");
    out.text(path);
}

// Puts which line hasn't as many cells as the first.
fn put_other_width(line: u32, cells: u32, width: u32, out: &mut Out)
    ensures { Puts out.old (other_width_said line cells width) out.new }
{
    out.text(b"line ");
    out.number(line as u64);
    out.text(b": ");
    put_cells(cells, out);
    out.text(b", where line 1 has ");
    out.number(width as u64);
}

// Puts how many cells the first line has, and what is wrong with that.
fn put_first_width(cells: u32, why: &[u8], out: &mut Out)
    ensures { Puts out.old (first_width_said cells why.now) out.new }
{
    out.text(b"line 1: ");
    put_cells(cells, out);
    out.text(why);
}

// Puts which rule's low is above its high, in which field, and both.
fn put_void(rule: u16, field: u16, low: u32, high: u32, out: &mut Out)
    ensures { Puts out.old (void_said rule field low high) out.new }
{
    out.text(b"line ");
    out.number(rule as u64 + 1);
    out.text(b", field ");
    out.number(field as u64 + 1);
    out.text(b": low ");
    out.number(low as u64);
    out.text(b" is above high ");
    out.number(high as u64);
}

// Puts which cell of which line is no number.
fn put_bad_cell(line: u32, cell: u32, out: &mut Out)
    ensures { Puts out.old (bad_cell_said line cell) out.new }
{
    out.text(b"line ");
    out.number(line as u64);
    out.text(b", ");
    put_not_number(cell, out);
}

// Puts a flaw's text, and nothing where there is none; `path` is the file's name.
pub fn put_flaw(flaw: Option<Flaw>, path: &[u8], out: &mut Out)
    ensures { Puts out.old (flaw_said path.now flaw) out.new }
{
    let Some(flaw) = flaw else {
        return;
    };
    match flaw {
        Flaw::NoLine => out.text(b"no line, where each is a rule of 2 to 16 cells"),
        Flaw::NotNumber { line, cell } => put_bad_cell(line, cell, out),
        Flaw::LoneFeed => put_feed(path, out),
        Flaw::OtherWidth { line, cells, width } => put_other_width(line, cells, width, out),
        Flaw::OddWidth { cells } => put_first_width(
            cells,
            b", where a rule has two for each field",
            out,
        ),
        Flaw::TooWide { cells } => put_first_width(cells, b", where a rule has at most 16", out),
        Flaw::TooManyRules => out.text(b"line 1025: more than 1,024 rules"),
        Flaw::LowAboveHigh {
            rule,
            field,
            low,
            high,
        } => put_void(rule, field, low, high, out),
    }
}

// Puts a program's name and a file's.
pub fn put_named(program: &[u8], path: &[u8], out: &mut Out)
    ensures { Puts out.old (named_said program.now path.now) out.new }
{
    out.text(program);
    out.text(b": ");
    out.text(path);
}

// Puts the line that a program says of a flaw in a file, at the front of the run, and answers the place after it.
pub fn put_complaint(flaw: Option<Flaw>, program: &[u8], path: &[u8], out: &mut [u8]) -> usize
    ensures { Put out.old 0 (complaint_said program.now path.now flaw) out.new result }
{
    let mut line = Out { bytes: out, at: 0 };
    put_named(program, path, &mut line);
    line.text(b": ");
    put_flaw(flaw, path, &mut line);
    line.text(b"\n");
    line.at
}
