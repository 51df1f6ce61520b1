// A line of CSV cells, as far as its bytes have come (01, The program): commas part its cells, and CRLF ends it and
// nothing else does. The reader stops at a line's end and says so; what becomes of the line is its caller's to say.
ghost use Rattle.std.specs.Prelude.{false, ◌≡◌};
ghost use Rattle.text.specs.Files.{ends_line, plain, open_byte};
ghost use Rattle.text.specs.Lines.{no_line, no_bytes, has_feed, line_now, cell_ended, byte_taken, line_byte, in_file_now, TookLine, TookLast};

use crate::row::{Row, row_byte, row_next, row_start};

// What has come of a line: whether any byte has, whether an LF stands in it, and its cells.
#[derive(Clone, Copy)]
pub struct Line {
    pub begun: bool,
    pub feed: bool,
    pub row: Row,
}

// A line, and whether its last byte was a CR of which it is not known yet whether it ends the line.
#[derive(Clone, Copy)]
pub struct Reader {
    pub cr: bool,
    pub line: Line,
}

// What a reader did with bytes: the line then, which stands either way, how many bytes it took, and whether the line has
// ended.
#[derive(Clone, Copy)]
pub struct LineRead {
    pub reader: Reader,
    pub used: usize,
    pub ended: bool,
}

// Makes a line of which nothing has come.
pub fn line_start() -> Line
    ensures { result ≡ no_line }
{
    Line {
        begun: false,
        feed: false,
        row: row_start(),
    }
}

// Makes a reader of which nothing has been read.
pub fn reader_start() -> Reader
    ensures { result ≡ no_bytes }
{
    Reader {
        cr: false,
        line: line_start(),
    }
}

// Says whether an LF has come, after one byte more.
#[tactic(auto, unfolding(crate::specs::Lines::has_feed))]
fn has_feed(feed: bool, byte: u8) -> bool
    ensures { result ≡ has_feed feed byte }
{
    feed || byte == b'\n'
}

// Ends the present cell of a line; its number, where it is one, goes to its place in the run.
#[tactic(auto, unfolding(crate::specs::Lines::cell_ended))]
fn end_cell(line: Line, from: u32, run: &mut [u32]) -> Line
    ensures { line_now result run.new ≡ cell_ended from (line_now line run.old) }
{
    Line {
        begun: true,
        row: row_next(line.row, from, run),
        ..line
    }
}

// Gives the line with one byte more in its present cell.
fn take_byte(line: Line, byte: u8) -> Line
    ensures { result ≡ byte_taken line byte }
{
    Line {
        begun: true,
        feed: has_feed(line.feed, byte),
        row: row_byte(line.row, byte),
    }
}

// Reads one byte of a line.
#[tactic(auto, unfolding(crate::specs::Lines::line_byte))]
fn line_byte(line: Line, byte: u8, from: u32, run: &mut [u32]) -> Line
    ensures { line_now result run.new ≡ line_byte from (line_now line run.old) byte }
{
    if byte == b',' {
        return end_cell(line, from, run);
    }
    take_byte(line, byte)
}

// Reads one byte where no CR waits.
#[tactic(auto, unfolding(crate::specs::Files::plain))]
fn plain_byte(line: Line, byte: u8, from: u32, run: &mut [u32]) -> Reader
    ensures { in_file_now result run.new ≡ plain (line_byte from) (line_now line run.old) byte }
{
    if byte == b'\r' {
        return Reader { cr: true, line };
    }
    Reader {
        cr: false,
        line: line_byte(line, byte, from, run),
    }
}

// Reads one byte that does not end the line: a CR that waited is a byte of the line.
#[tactic(auto, unfolding(crate::specs::Files::open_byte))]
fn open_byte(reader: Reader, byte: u8, from: u32, run: &mut [u32]) -> Reader
    ensures { in_file_now result run.new ≡ open_byte (line_byte from) (in_file_now reader run.old) byte }
{
    if !reader.cr {
        return plain_byte(reader.line, byte, from, run);
    }
    let lone = line_byte(reader.line, b'\r', from, run);
    plain_byte(lone, byte, from, run)
}

// Says whether a byte ends the line: an LF, where a CR waits.
#[tactic(auto, unfolding(crate::specs::Files::ends_line))]
fn ends_line(cr: bool, byte: u8) -> bool
    ensures { result ≡ ends_line cr byte }
{
    cr && byte == b'\n'
}

// Reads bytes to the end of the present line, or all where it does not end in them. Numbers go to the run from place
// `from` on; one that is past its end is left out.
pub fn read_line(reader: Reader, bytes: &[u8], from: u32, run: &mut [u32]) -> LineRead
    ensures { TookLine from reader bytes.now run.old result run.new }
{
    let mut present = reader;
    for (i, byte) in bytes.iter().enumerate() {
        if ends_line(present.cr, *byte) {
            return LineRead {
                reader: Reader {
                    cr: false,
                    line: end_cell(present.line, from, run),
                },
                used: i + 1,
                ended: true,
            };
        }
        present = open_byte(present, *byte, from, run);
    }
    LineRead {
        reader: present,
        used: bytes.len(),
        ended: false,
    }
}

// Ends a line at the file's end, where any byte of it has come.
#[tactic(auto, unfolding(crate::specs::Files::last_line))]
fn last_line(line: Line, from: u32, run: &mut [u32]) -> LineRead
    ensures { TookLast from (record { cr = false; line = line }) run.old result run.new }
{
    if !line.begun {
        return LineRead {
            reader: Reader { cr: false, line },
            used: 0,
            ended: false,
        };
    }
    LineRead {
        reader: Reader {
            cr: false,
            line: end_cell(line, from, run),
        },
        used: 0,
        ended: true,
    }
}

// Ends the present line at the file's end, where any byte of it has come; a CR that waits is a byte of it.
pub fn end_line(reader: Reader, from: u32, run: &mut [u32]) -> LineRead
    ensures { TookLast from reader run.old result run.new }
{
    if !reader.cr {
        return last_line(reader.line, from, run);
    }
    let lone = line_byte(reader.line, b'\r', from, run);
    last_line(lone, from, run)
}
