// A line of numbers, cell by cell, as far as its bytes have come. What parts the cells of a line, and what ends it,
// is the caller's to say.
ghost use Rattle.std.specs.Prelude.{◌≡◌, set};
ghost use Rattle.text.specs.Rows.{fresh, one_more, row_with, row_next, kept_at};

use crate::cell::{Cell, with_byte};

// What has been read of a line: the cell that is being read, how many cells have ended, and the first of them that was
// no number, counted from 1.
#[derive(Clone, Copy)]
pub struct Row {
    pub cell: Cell,
    pub cells: u32,
    pub bad: Option<u32>,
}

// Makes a line of which nothing has been read.
pub fn row_start() -> Row
    ensures { result ≡ fresh }
{
    Row {
        cell: Cell::Empty,
        cells: 0,
        bad: None,
    }
}

// Cells are counted exactly up to here. Past that, where no program tells one count from another, the count goes to and
// fro, so that it stays even or odd as it should.
const COUNTED_TO: u32 = 65536;

// A count below this is exact.
pub const EXACT_BELOW: u32 = COUNTED_TO - 1;

// Counts one cell more.
#[tactic(auto, unfolding(crate::specs::Rows::one_more))]
fn one_more(cells: u32) -> u32
    ensures { result ≡ one_more cells }
{
    if cells < COUNTED_TO {
        return cells + 1;
    }
    cells - 1
}

// Gives the line with one byte more in its present cell.
pub fn row_byte(row: Row, byte: u8) -> Row
    ensures { result ≡ row_with row byte }
{
    Row {
        cell: with_byte(row.cell, byte),
        ..row
    }
}

// Writes a number to a place of a run; past the run's end it changes nothing. (A test, and no `get_mut`, which does not
// say what the run holds after a write.)
fn keep(run: &mut [u32], at: usize, v: u32)
    ensures { run.new ≡ set run.old at v }
{
    if at < run.len() {
        run[at] = v;
    }
}

// Ends the present cell and gives the line after it. Where it is a number, it is written to its place in the run: as
// far past `from` as there are cells before it. Where it is none, or its place is past the run's end, the run stays.
#[tactic(auto, unfolding(crate::specs::Rows::row_next, crate::specs::Rows::kept_at))]
pub fn row_next(row: Row, from: u32, run: &mut [u32]) -> Row
    ensures value { result ≡ row_next row }
    ensures run_after { run.new ≡ kept_at row from run.old }
{
    let cells = one_more(row.cells);
    let at = from as usize + row.cells as usize;
    let ended = Row {
        cell: Cell::Empty,
        cells,
        ..row
    };
    match row.cell {
        Cell::Number(v) => {
            keep(run, at, v);
            ended
        }
        Cell::Empty | Cell::Bad => Row {
            bad: row.bad.or(Some(cells)),
            ..ended
        },
    }
}
