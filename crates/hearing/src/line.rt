// A line as far as its bytes have come: its first word, and the numbers after it, the first of which may have flags. The word's
// bytes and the numbers go to lent runs; what is held by value says how far each has come.
ghost use Rattle.std.specs.Prelude.{◌≡◌, [], ◌∷◌};
ghost use Rattle.text.specs.Cells.{fed};
ghost use Rattle.text.specs.Puts.{Put};
ghost use Rattle.hearing.specs.Lines.{heard, unheard, number_with, heard_byte, HeardFirst, line_in};

use crate::flags::{Flags, flags_byte, has_colon};
use text::row::{Row, row_byte, row_next, row_start};

// What has been heard of a line: how many bytes of its first word stand in the run lent for them, the flags of the first
// number after it, whether a blank has ended that word, and the line of those numbers. (`named` stands
// where it leaves three unused bytes and not seven: a copy of seven takes as long as a short answer.)
#[derive(Clone, Copy)]
pub struct Line {
    pub length: usize,
    pub flags: Flags,
    pub named: bool,
    pub row: Row,
}

// Makes a line of which nothing has been heard.
pub fn line_start() -> Line
    ensures { result ≡ unheard }
{
    Line {
        length: 0,
        flags: Flags::Without,
        named: false,
        row: row_start(),
    }
}

// Takes one byte more of a number: in the first, a colon begins the flags, and what follows belongs to them.
#[tactic(auto, unfolding(crate::specs::Lines::number_with))]
fn number_byte(line: &mut Line, byte: u8)
    ensures { line.new ≡ number_with line.old byte }
{
    line.named = true;
    if line.row.cells == 0 {
        if has_colon(line.flags) {
            line.flags = flags_byte(line.flags, byte);
            return;
        }
        if byte == b':' {
            line.flags = Flags::Read { count: 0, dates: 0 };
            return;
        }
    }
    line.row = row_byte(line.row, byte);
}

// Puts one byte of the word behind those that stand in the run, where there is a place, and answers how many stand there then.
fn name_byte(byte: u8, name: &mut [u8], length: usize) -> usize
    ensures { Put name.old length (byte ∷ []) name.new result }
{
    if length < name.len() {
        name[length] = byte;
        return length + 1;
    }
    length
}

// Takes one byte more, which is no line's end: a blank ends the word or a number, any other byte belongs to it. (It is
// changed in place: to hand it on whole takes half as many instructions again.)
#[tactic(auto, unfolding(crate::specs::Lines::heard_byte))]
fn line_byte(line: &mut Line, byte: u8, name: &mut [u8], numbers: &mut [u32])
    ensures { heard line.new name.new numbers.new
        ≡ heard_byte (heard line.old name.old numbers.old) byte }
{
    match (line.named, byte) {
        (true, b' ') => line.row = row_next(line.row, 0, numbers),
        (true, _) => number_byte(line, byte),
        (false, b' ') => line.named = true,
        (false, _) => line.length = name_byte(byte, name, line.length),
    }
}

// Takes those bytes of the word that come first, none where it has ended, and answers how many; none is a line's end.
fn hear_word(line: &mut Line, bytes: &[u8], name: &mut [u8], numbers: &mut [u32]) -> usize
    ensures { HeardFirst (heard line.old name.old numbers.old) bytes.now result
        (heard line.new name.new numbers.new) }
{
    if line.named {
        return 0;
    }
    let mut i = 0;
    while i < bytes.len() && bytes[i] != b' ' {
        line_byte(line, bytes[i], name, numbers);
        i += 1;
    }
    i
}

// Gives the line with bytes more, none of them a line's end. (The word's bytes have a loop of their own: one that also carries
// the numbers along takes twice the time.)
pub fn hear(line: Line, bytes: &[u8], name: &mut [u8], numbers: &mut [u32]) -> Line
    ensures { heard result name.new numbers.new
        ≡ fed heard_byte (heard line name.old numbers.old) bytes.now }
{
    let mut present = line;
    let word = hear_word(&mut present, bytes, name, numbers);
    for byte in &bytes[word..] {
        line_byte(&mut present, *byte, name, numbers);
    }
    present
}

// Says how many bytes stand before the first LF, all of them where there is none.
#[tactic(auto, unfolding(crate::specs::Lines::line_in))]
pub fn line_in(bytes: &[u8]) -> usize
    ensures { result ≡ line_in bytes.now }
{
    bytes.iter().take_while(|byte| **byte != b'\n').count()
}
