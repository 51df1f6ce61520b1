// The check of a list: the refusals 1 to 4, in their order, and n.
ghost use Rattle.std.specs.Prelude.{◌≡◌};
ghost use Rattle.ranges.specs.Numbers.{least};
ghost use Rattle.lists.specs.Rules.{lent, is_void, Shaped};
ghost use Rattle.lists.specs.Asked.{HasRule, HasField};
ghost use Rattle.lists.specs.Found.{found_below};
ghost use Rattle.lists.specs.Faults.{ends_fault, list_fault};
ghost use Rattle.lists.specs.Check.{check_of};

use crate::range::range_at;
use crate::shape::{RuleList, rules_in, shape_fault};
use ranges::refusal::{Cause, Refusal};
use ranges::side::is_void;

// Says whether the range of rule i in field f holds no number: low > high, of a date low ≥ high.
fn void_at(list: &RuleList, i: u16, f: u16) -> bool
    requires { HasField (lent list.now) i f }
    ensures { result ≡ is_void (lent list.now) i f }
{
    is_void(range_at(list, i, f))
}

// Gives the smallest field of rule i whose range holds no number, or none.
fn void_field(list: &RuleList, i: u16) -> Option<u16>
    requires { HasRule (lent list.now) i }
    ensures { result ≡ found_below list.now.shape.d (least list.now.shape.d (is_void (lent list.now) i)) }
{
    for f in 0..list.shape.d as u16 {
        if void_at(list, i, f) {
            return Some(f);
        }
    }
    None
}

// Refuses a list whose shape stands by 4, at the smallest rule number with a range that holds no number and then its smallest
// such field.
fn ends_fault(list: &RuleList) -> Result<(), Refusal>
    requires { Shaped (lent list.now) }
    ensures { result ≡ ends_fault (lent list.now) }
{
    for i in 0..rules_in(list) as u16 {
        if let Some(f) = void_field(list, i) {
            return Err(Refusal {
                cause: Cause::LowAboveHigh,
                at: i as usize,
                then: f as usize,
            });
        }
    }
    Ok(())
}

// Refuses a list by the first of 1, 2, 3 and 4 that applies.
pub fn list_fault(list: &RuleList) -> Result<(), Refusal>
    ensures { result ≡ list_fault (lent list.now) }
{
    shape_fault(list)?;
    ends_fault(list)
}

// Checks a list: gives n, the number of its rules, or the first of the refusals 1, 2, 3 and 4 that applies.
pub fn check_list(list: &RuleList) -> Result<usize, Refusal>
    ensures { result ≡ check_of (lent list.now) }
{
    list_fault(list)?;
    Ok(rules_in(list))
}
