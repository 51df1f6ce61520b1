// The plain scan: the first rule that fits a header.
ghost use Rattle.std.specs.Prelude.{◌≡◌};
ghost use Rattle.lists.specs.Rules.{lent, Shaped};
ghost use Rattle.lists.specs.Asked.{HasRule, HasField};
ghost use Rattle.lists.specs.FirstMatch.{inside_at, fits};
ghost use Rattle.lists.specs.Scan.{fits_in, match_of, scan_of};

use crate::check::list_fault;
use crate::range::range_at;
use crate::shape::{RuleList, in_list, rules_in};
use ranges::refusal::Refusal;
use ranges::side::{Side, side_of};

// Says whether the header's number in field f lies inside the range of rule i.
fn inside_at(list: &RuleList, i: u16, f: u16, header: &[u32; 8]) -> bool
    requires { HasField (lent list.now) i f }
    ensures { result ≡ inside_at (lent list.now) header.now i f }
{
    side_of(range_at(list, i, f), header[f as usize]) == Side::Inside
}

// Says whether rule i fits a header, for a rule that stands in the list; ends at the first field that does not fit.
fn fits_at(list: &RuleList, i: u16, header: &[u32; 8]) -> bool
    requires { HasRule (lent list.now) i }
    ensures { result ≡ fits (lent list.now) header.now i }
{
    for f in 0..list.shape.d as u16 {
        if !inside_at(list, i, f, header) {
            return false;
        }
    }
    true
}

// Says whether a rule fits a header, in all d fields: false where d is not 1 to 8 or the list has no such rule.
pub fn rule_fits(list: &RuleList, rule: u16, header: [u32; 8]) -> bool
    ensures { result ≡ fits_in (lent list.now) header rule }
{
    if !in_list(list, rule) {
        return false;
    }
    fits_at(list, rule, &header)
}

// Gives the first match of a header in a list whose shape stands, the smallest rule number that fits, or none;
// ends at the first rule that fits.
fn first_match(list: &RuleList, header: &[u32; 8]) -> Option<usize>
    requires { Shaped (lent list.now) }
    ensures { result ≡ match_of (lent list.now) header.now }
{
    for i in 0..rules_in(list) as u16 {
        if fits_at(list, i, header) {
            return Some(i as usize);
        }
    }
    None
}

// Scans a list plainly: gives the first match of a header, or none, or the first of the refusals 1, 2, 3 and 4 that
// applies to the list.
pub fn plain_scan(list: &RuleList, header: [u32; 8]) -> Result<Option<usize>, Refusal>
    ensures { result ≡ scan_of (lent list.now) header }
{
    list_fault(list)?;
    Ok(first_match(list, &header))
}
