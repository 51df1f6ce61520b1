// One number, as far as its bytes have come.
ghost use Rattle.std.specs.Prelude.{◌≡◌, ◌<◌};
ghost use Rattle.text.specs.Cells.{with_digit, with_byte};

// What the bytes of a cell come to.
#[derive(Clone, Copy)]
pub enum Cell {
    // No byte yet.
    Empty,
    // A plain decimal without leading zeros, 0 to 4294967295.
    Number(u32),
    // Anything else.
    Bad,
}

// Gives what a cell comes to with one digit more, a number below 10.
#[tactic(auto, unfolding(crate::specs::Cells::with_digit))]
fn with_digit(cell: Cell, digit: u8) -> Cell
    requires { digit < 10 }
    ensures { result ≡ with_digit cell digit }
{
    match cell {
        Cell::Empty => Cell::Number(digit as u32),
        Cell::Number(0) | Cell::Bad => Cell::Bad,
        Cell::Number(v) => {
            let x = v as u64 * 10 + digit as u64;
            u32::try_from(x).map_or(Cell::Bad, Cell::Number)
        }
    }
}

// Gives what a cell comes to with one byte more.
#[tactic(auto, unfolding(crate::specs::Cells::with_byte))]
pub fn with_byte(cell: Cell, byte: u8) -> Cell
    ensures { result ≡ with_byte cell byte }
{
    match byte {
        b'0'..=b'9' => with_digit(cell, byte - b'0'),
        _ => Cell::Bad,
    }
}
