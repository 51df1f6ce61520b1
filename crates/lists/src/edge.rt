// Whether a rule has a field at an end of its range.
ghost use Rattle.std.specs.Prelude.{◌≡◌};
ghost use Rattle.ranges.specs.Spots.{at_end};
ghost use Rattle.lists.specs.Rules.{lent};
ghost use Rattle.lists.specs.Asked.{HasRule, HasField};
ghost use Rattle.lists.specs.Edges.{end_at, edge_of, rule_edge};

use crate::range::range_at;
use crate::shape::{RuleList, in_list};
use ranges::spot::{Spot, spot_of};

// Says whether a spot is at an end.
fn at_end(spot: Spot) -> bool
    ensures { result ≡ at_end spot }
{
    matches!(spot, Spot::AtLow | Spot::AtHigh | Spot::AtBoth)
}

// Says whether the header's number in field f is at an end of the range of rule i.
fn end_at(list: &RuleList, i: u16, f: u16, header: &[u32; 8]) -> bool
    requires { HasField (lent list.now) i f }
    ensures { result ≡ end_at (lent list.now) header.now i f }
{
    at_end(spot_of(range_at(list, i, f), header[f as usize]))
}

// Says whether rule i has a field at an end, for a rule that stands in the list; ends at the first such field.
fn edge_at(list: &RuleList, i: u16, header: &[u32; 8]) -> bool
    requires { HasRule (lent list.now) i }
    ensures { result ≡ edge_of (lent list.now) header.now i }
{
    for f in 0..list.shape.d as u16 {
        if end_at(list, i, f, header) {
            return true;
        }
    }
    false
}

// Says whether a rule has a field at an end of its range, one of the d fields: false where d is not 1 to 8 or the list has
// no such rule.
pub fn rule_edge(list: &RuleList, rule: u16, header: [u32; 8]) -> bool
    ensures { result ≡ rule_edge (lent list.now) header rule }
{
    if !in_list(list, rule) {
        return false;
    }
    edge_at(list, rule, &header)
}
