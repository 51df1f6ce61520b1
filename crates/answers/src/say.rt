// Output lines, put into a lent run at its place. A line ends in CRLF and has at most `LINE_MOST` bytes.
ghost use Rattle.std.specs.Prelude.{◌≤◌, ◌++◌, length};
ghost use Rattle.text.specs.Puts.{Puts};
ghost use Rattle.answers.specs.Said.{head_said, refused_said, found_said, tests_said, looked_said, PutLine};

use lookup::lookup::{Looked, Match};
use ranges::reason::Reason;
use ranges::refusal::Refusal;
use text::put::Out;

// The most bytes of a line, its CRLF counted.
pub const LINE_MOST: usize = 64;

// Puts the first line: rule,tests.
pub fn put_head(out: &mut Out)
    ensures { Puts out.old head_said out.new }
{
    out.text(b"rule,tests\r\n");
}

// Puts the line refused,NUMBER. (Inlined, since a refused header line's number is known where it is put: such a line else takes a
// tenth more instructions.)
#[inline]
pub fn put_refused(number: u32, out: &mut Out)
    ensures { PutLine out.old (refused_said number) out.new }
{
    out.text(b"refused,");
    out.number(number as u64);
    out.text(b"\r\n");
}

// Puts the rest of a line after the rule: the number of tests.
fn put_tests(tests: usize, out: &mut Out)
    ensures puts { Puts out.old (tests_said tests) out.new }
    ensures few { length (tests_said tests) ≤ 23 }
{
    out.byte(b',');
    out.number(tests as u64);
    out.text(b"\r\n");
}

// Puts the line of a rule that was found, or of none, and the number of tests: RULE,TESTS or none,TESTS. 01 prints no edge.
fn put_found(found: Option<Match>, tests: usize, out: &mut Out)
    ensures { PutLine out.old (found_said found ++ tests_said tests) out.new }
{
    match found {
        Some(found) => {
            out.number(found.rule as u64);
            put_tests(tests, out);
        }
        None => {
            out.text(b"none");
            put_tests(tests, out);
        }
    }
}

// Puts the line of a lookup's answer: RULE,TESTS or none,TESTS, or the refusal.
pub fn put_looked<C: Reason>(looked: Result<Looked, Refusal<C>>, out: &mut Out)
    ensures { PutLine out.old (looked_said C.its_number looked) out.new }
{
    match looked {
        Ok(Looked { found, tests }) => put_found(found, tests, out),
        Err(x) => put_refused(x.cause.its_number(), out),
    }
}
