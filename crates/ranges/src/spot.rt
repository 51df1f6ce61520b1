// The single range test: where a number lies as against the two ends of a range.
ghost use Rattle.std.specs.Prelude.{◌≡◌};
ghost use Rattle.ranges.specs.Spots.{spot_of};

use crate::side::Range;

// Where a number lies as against the two ends of a range. All but below and above are inside it.
#[derive(Clone, Copy, PartialEq, Eq)]
pub enum Spot {
    // Less than low.
    Below,
    // At low, which is not the last number of the range.
    AtLow,
    // Inside, and at neither end.
    Between,
    // At the last number of the range, which is not low.
    AtHigh,
    // At low, which is the last number too: the range holds one number.
    AtBoth,
    // Past the range.
    Above,
}

// Says where the number x lies as against the two ends of a range, tried in this order: below, above, at both ends, at the
// low end, at the high end, strictly between. At the high end x + 1 is the first number past the range: nothing is said of
// how the range ends. All that holds a number against both ends asks this; the walk of a lookup, which asks most often, holds it
// against each end by itself (`side::is_below`, `side::is_past`).
pub fn spot_of(range: Range, x: u32) -> Spot
    ensures { result ≡ spot_of range.low range.past x }
{
    if x < range.low {
        return Spot::Below;
    }
    if range.past <= x as u64 {
        return Spot::Above;
    }
    let next = x as u64 + 1;
    if x == range.low {
        if next == range.past {
            return Spot::AtBoth;
        }
        return Spot::AtLow;
    }
    if next == range.past {
        return Spot::AtHigh;
    }
    Spot::Between
}
