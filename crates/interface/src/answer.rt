// How an answer is written into the run of numbers that a caller lends: number, at, then, and then what is answered. A function for
// each answer: their runs differ in length, and no length can be worked out of another's in a type. (One function that is handed
// what an answer says was tried, and its callers' proofs did not close.)
ghost use Rattle.std.specs.Prelude.{◌-◌, ◌≤◌};
ghost use Rattle.ranges.specs.Refusals.{says_count};
ghost use Rattle.ranges.specs.Prefixes.{says_bounds};
ghost use Rattle.lists.specs.Scan.{says_match};
ghost use Rattle.lists.specs.Independence.{says_pair};
ghost use Rattle.auditing.specs.Audit.{says_verdict};
ghost use Rattle.tables.specs.Report.{says_part};
ghost use Rattle.interface.specs.Answers.{Told, says_refusal, says_in_place};

use lookup::lookup::Looked;
use ranges::prefix::Bounds;
use ranges::refusal::Refusal;
use tables::report::Part;

// Writes a refusal: its number and place, and 0 for what is answered; and gives the number.
fn put_refusal<const N: usize>(refusal: Refusal, answer: &mut [u64; N]) -> u32
    requires { 3 ≤ N }
    ensures { Told (N - 3) (says_refusal refusal) result answer.new }
{
    let number = refusal.cause.number();
    answer.fill(0);
    answer[0] = number as u64;
    answer[1] = refusal.at as u64;
    answer[2] = refusal.then as u64;
    number
}

// Writes what is counted, and gives the refusal number.
pub(crate) fn put_count(count: Result<usize, Refusal>, answer: &mut [u64; 4]) -> u32
    ensures { Told 1 (says_count count) result answer.new }
{
    match count {
        Ok(k) => {
            *answer = [0, 0, 0, k as u64];
            0
        }
        Err(refusal) => put_refusal(refusal, answer),
    }
}

// Writes a range's low and high, and gives the refusal number.
pub(crate) fn put_bounds(bounds: Result<Bounds, Refusal>, answer: &mut [u64; 5]) -> u32
    ensures { Told 2 (says_bounds bounds) result answer.new }
{
    match bounds {
        Ok(Bounds { low, high }) => {
            *answer = [0, 0, 0, low as u64, high as u64];
            0
        }
        Err(refusal) => put_refusal(refusal, answer),
    }
}

// Writes 1 and a rule number for a match, 0 and 0 for none, and gives the refusal number.
pub(crate) fn put_match(found: Result<Option<usize>, Refusal>, answer: &mut [u64; 5]) -> u32
    ensures { Told 2 (says_match found) result answer.new }
{
    match found {
        Ok(Some(i)) => {
            *answer = [0, 0, 0, 1, i as u64];
            0
        }
        Ok(None) => {
            *answer = [0, 0, 0, 0, 0];
            0
        }
        Err(refusal) => put_refusal(refusal, answer),
    }
}

// Writes 1, 0 and 0 for an order independent list, 0 and the pair for another, and gives the refusal number.
pub(crate) fn put_pair(pair: Result<Option<(usize, usize)>, Refusal>, answer: &mut [u64; 6]) -> u32
    ensures { Told 3 (says_pair pair) result answer.new }
{
    match pair {
        Ok(None) => {
            *answer = [0, 0, 0, 1, 0, 0];
            0
        }
        Ok(Some((i, j))) => {
            *answer = [0, 0, 0, 0, i as u64, j as u64];
            0
        }
        Err(refusal) => put_refusal(refusal, answer),
    }
}

// Writes 1 and a rule number for a match, 0 and 0 for none, then the tests, then 1 at an edge and else 0, and gives the
// refusal number.
pub(crate) fn put_looked(looked: Result<Looked, Refusal>, answer: &mut [u64; 7]) -> u32
    ensures { Told 4 (says_in_place looked) result answer.new }
{
    match looked {
        Ok(Looked { found, tests }) => {
            *answer = match found {
                Some(m) => [0, 0, 0, 1, m.rule as u64, tests as u64, m.edge as u64],
                None => [0, 0, 0, 0, 0, tests as u64, 0],
            };
            0
        }
        Err(refusal) => put_refusal(refusal, answer),
    }
}

// Writes 1 for yes, 0 for no, and gives the refusal number.
pub(crate) fn put_verdict(verdict: Result<bool, Refusal>, answer: &mut [u64; 4]) -> u32
    ensures { Told 1 (says_verdict verdict) result answer.new }
{
    match verdict {
        Ok(yes) => {
            *answer = [0, 0, 0, yes as u64];
            0
        }
        Err(refusal) => put_refusal(refusal, answer),
    }
}

// Writes a partition's size and smallest rule number, and gives the refusal number.
pub(crate) fn put_part(part: Result<Part, Refusal>, answer: &mut [u64; 5]) -> u32
    ensures { Told 2 (says_part part) result answer.new }
{
    match part {
        Ok(Part { size, least }) => {
            *answer = [0, 0, 0, size as u64, least as u64];
            0
        }
        Err(refusal) => put_refusal(refusal, answer),
    }
}
