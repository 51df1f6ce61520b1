// A rule's range: made of its low and its high, and read off the list.
ghost use Rattle.std.specs.Prelude.{◌≡◌};
ghost use Rattle.ranges.specs.Sides.{range_of};
ghost use Rattle.lists.specs.Rules.{flag_of, lent, range_at};
ghost use Rattle.lists.specs.Asked.{HasField};

use crate::shape::{RuleList, Shape, is_date, offset_of};
use ranges::side::{Range, closed, range_of};

// Makes the range that a rule has in field f from its low and its high: one of dates where the shape says that the field is
// a date. Nothing else asks for a flag.
pub fn field_range(shape: Shape, f: u32, low: u32, high: u32) -> Range
    ensures { result ≡ range_of (flag_of shape f) low high }
{
    range_of(is_date(shape, f), low, high)
}

// Makes the same range, and asks first whether there are dates at all: the loops of this crate do little else, so that they ask it
// once before they begin, where a flag would have to be asked for at each range.
fn once_asked(shape: Shape, f: u32, low: u32, high: u32) -> Range
    ensures { result ≡ range_of (flag_of shape f) low high }
{
    if shape.dates == 0 {
        return closed(low, high);
    }
    field_range(shape, f, low, high)
}

// Gives the range of rule i in field f.
pub(crate) fn range_at(list: &RuleList, i: u16, f: u16) -> Range
    requires { HasField (lent list.now) i f }
    ensures { result ≡ range_at (lent list.now) i f }
{
    let at = offset_of(list.shape.d as u16, i, f);
    once_asked(list.shape, f as u32, list.numbers[at], list.numbers[at + 1])
}
