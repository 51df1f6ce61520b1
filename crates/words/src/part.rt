// The parts of a line's numbers, by their places: D is the first; LIST, TABLE and RUN are a length and then that many
// numbers; HEADER is eight numbers. A part's end is the place after its last number; None, where the numbers are not as the part wants them.
ghost use Rattle.std.specs.Prelude.{true, ◌≡◌, ◌<◌, ◌≤◌, length};
ghost use Rattle.lists.specs.Rules.{lent};
ghost use Rattle.words.specs.Parts.{run_end, exactly, list_end, all_narrow, narrow_end, table_ends, shape_in, rules_to};

use crate::limits::{LIST_MOST, TABLE_MOST};
use lists::shape::{RuleList, Shape};

// Says where the run from a place on ends: a length, at most `most`, and then that many numbers.
#[tactic(auto, unfolding(crate::specs::Parts::run_end))]
pub fn run_end(most: usize, given: &[u32], at: usize) -> Option<usize>
    ensures { result ≡ run_end most given.now at }
{
    let k = *given.get(at)? as usize;
    if most < k {
        return None;
    }
    if given.len() < at + 1 + k {
        return None;
    }
    Some(at + 1 + k)
}

// Gives a part's end where exactly so many numbers more follow it.
pub fn exact(end: Option<usize>, given: &[u32], more: usize) -> Option<usize>
    ensures { result ≡ exactly given.now more end }
{
    let e = end?;
    let rest = given.len().checked_sub(e)?;
    (rest == more).then_some(e)
}

// Says where the list of D LIST ends, with exactly so many numbers more after it.
#[tactic(auto, unfolding(crate::specs::Parts::list_end))]
pub fn list_end(given: &[u32], more: usize) -> Option<usize>
    ensures { result ≡ list_end given.now more }
{
    let end = run_end(LIST_MOST, given, 1);
    exact(end, given, more)
}

// Says whether every number of a run is one of 16 bits.
fn all_narrow(numbers: &[u32]) -> bool
    ensures { result ≡ all_narrow numbers.now }
{
    numbers.iter().all(|x| *x <= 65535)
}

// Says where the run of 16-bit numbers from a place on ends: a length, at most `most`, and then that many such numbers.
#[tactic(auto, using(crate::proofs::Parts::run_told), unfolding(crate::specs::Parts::narrow_end))]
pub fn narrow_end(most: usize, given: &[u32], at: usize) -> Option<usize>
    ensures { result ≡ narrow_end most given.now at }
{
    let e = run_end(most, given, at)?;
    let from = at + 1;
    all_narrow(&given[from..e]).then_some(e)
}

// Says the same where no number follows the run.
pub(crate) fn last_end(most: usize, given: &[u32], at: usize) -> Option<usize>
    ensures { result ≡ exactly given.now 0 (narrow_end most given.now at) }
{
    let end = narrow_end(most, given, at);
    exact(end, given, 0)
}

// Says where the list and the table of D LIST TABLE end, with exactly so many numbers more after them.
#[tactic(auto, using(crate::proofs::Parts::run_told), unfolding(crate::specs::Parts::table_ends))]
pub fn table_ends(given: &[u32], more: usize) -> Option<(usize, usize)>
    ensures { result ≡ table_ends given.now more }
{
    let e = run_end(LIST_MOST, given, 1)?;
    let t = exact(run_end(TABLE_MOST, given, e), given, more)?;
    let from = e + 1;
    all_narrow(&given[from..t]).then_some((e, t))
}

// Writes numbers of 16 bits to a run of as many. Each caller has the room and binds its part in two lines: one function that gave the part
// would return a `&mut`, whose contract, which must say how what is written later comes back, is no plainer.
pub(crate) fn narrow(numbers: &[u32], table: &mut [u16])
    requires table_len { length table.old ≡ length numbers.now }
    requires narrow_numbers { all_narrow numbers.now ≡ true }
    ensures { table.new ≡ numbers.now }
{
    for (i, x) in numbers.iter().enumerate() {
        table[i] = *x as u16;
    }
}

// Gives the shape of D with its flags.
pub(crate) fn shape_in(dates: u32, given: &[u32]) -> Shape
    requires { 0 < length given.now }
    ensures { result ≡ shape_in dates given.now }
{
    Shape {
        d: given[0] as usize,
        dates,
    }
}

// Gives the list of D LIST, which ends at place e, with the shape of D.
pub(crate) fn list_in(dates: u32, given: &[u32], e: usize) -> RuleList
    requires { 2 ≤ e × e ≤ length given.now }
    ensures { lent result ≡ rules_to dates e given.now }
{
    RuleList {
        shape: shape_in(dates, given),
        numbers: &given[2..e],
    }
}

// Gives the eight numbers of HEADER by value.
pub(crate) fn header_of(eight: &[u32]) -> [u32; 8]
    requires { length eight.now ≡ 8 }
    ensures { result ≡ eight.now }
{
    eight.try_into().unwrap()
}
