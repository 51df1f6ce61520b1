// Order independence: whether some header fits two rules of a list, and which two.
ghost use Rattle.std.specs.Prelude.{◌≡◌, ◌<◌};
ghost use Rattle.lists.specs.Rules.{lent, rules_in, Shaped};
ghost use Rattle.lists.specs.Asked.{HasRule, HasField};
ghost use Rattle.lists.specs.Found.{found_below};
ghost use Rattle.lists.specs.Independence.{meet_at, meet, partner_of, pair_of, independence_of};

use crate::check::list_fault;
use crate::range::range_at;
use crate::shape::{RuleList, rules_in};
use ranges::refusal::Refusal;
use ranges::side::meets;

// Says whether the ranges of rules i and j meet in field f: the low of each is before the other's end.
fn meet_at(list: &RuleList, i: u16, j: u16, f: u16) -> bool
    requires { (HasField (lent list.now) i f) × (HasField (lent list.now) j f) }
    ensures { result ≡ meet_at (lent list.now) i j f }
{
    meets(range_at(list, i, f), range_at(list, j, f))
}

// Says whether rules i and j meet; ends at the first field in which they do not.
fn meet_all(list: &RuleList, i: u16, j: u16) -> bool
    requires { (HasRule (lent list.now) i) × (HasRule (lent list.now) j) }
    ensures { result ≡ meet (lent list.now) i j }
{
    for f in 0..list.shape.d as u16 {
        if !meet_at(list, i, j, f) {
            return false;
        }
    }
    true
}

// Gives the smallest rule number after i that meets rule i, or none.
fn partner_of(list: &RuleList, n: u16, i: u16) -> Option<u16>
    requires { (Shaped (lent list.now)) × (n ≡ rules_in (lent list.now)) × (i < n) }
    ensures { result ≡ found_below (rules_in (lent list.now)) (partner_of (lent list.now) i) }
{
    for j in i + 1..n {
        if meet_all(list, i, j) {
            return Some(j);
        }
    }
    None
}

// Gives the least pair of rules that meet, smallest i first and then smallest j, of a list whose shape stands, or none.
fn least_pair(list: &RuleList) -> Option<(usize, usize)>
    requires { Shaped (lent list.now) }
    ensures { result ≡ pair_of (lent list.now) }
{
    let n = rules_in(list) as u16;
    for i in 0..n {
        if let Some(j) = partner_of(list, n, i) {
            return Some((i as usize, j as usize));
        }
    }
    None
}

// Tests a list for order independence: none, that is yes, exactly when no header fits two different rules, otherwise the least
// pair that some header fits, or the first of the refusals 1, 2, 3 and 4 that applies to the list.
pub fn independence(list: &RuleList) -> Result<Option<(usize, usize)>, Refusal>
    ensures { result ≡ independence_of (lent list.now) }
{
    list_fault(list)?;
    Ok(least_pair(list))
}
