// A range, its makers, and the tests of it: the single range test, whether it holds a number, whether two share one.
ghost use Rattle.std.specs.Prelude.{◌≡◌, ltb, leb};
ghost use Rattle.ranges.specs.Sides.{closed_at, range_of, side_in, side_of, void_of, meet_of};

use crate::spot::{Spot, spot_of};

// On which side of a range a number lies, in the order in which the outcomes are tried.
#[derive(Clone, Copy, PartialEq, Eq)]
pub enum Side {
    Below,
    Above,
    Inside,
}

// A range: the numbers from low to before past, the first number past it; none where past is at most low.
#[derive(Clone, Copy, PartialEq, Eq)]
pub struct Range {
    pub low: u32,
    pub past: u64,
}

// Makes the range low to high, both counted. Nothing but this and `range_of` knows how a range ends.
pub fn closed(low: u32, high: u32) -> Range
    ensures { result ≡ closed_at low high }
{
    Range {
        low,
        past: high as u64 + 1,
    }
}

// Makes the range of a rule from its low and its high: of dates, low to before high, since a due day is no valid day; else low
// to high, both counted.
pub fn range_of(date: bool, low: u32, high: u32) -> Range
    ensures { result ≡ range_of date low high }
{
    if date {
        return Range {
            low,
            past: high as u64,
        };
    }
    closed(low, high)
}

// Says on which side a spot is: all but below and above are inside.
fn side_in(spot: Spot) -> Side
    ensures { result ≡ side_in spot }
{
    match spot {
        Spot::Below => Side::Below,
        Spot::AtLow => Side::Inside,
        Spot::Between => Side::Inside,
        Spot::AtHigh => Side::Inside,
        Spot::AtBoth => Side::Inside,
        Spot::Above => Side::Above,
    }
}

// Says on which side of a range the number x lies: below, above or inside, as its spot is.
pub fn side_of(range: Range, x: u32) -> Side
    ensures { result ≡ side_of range.low range.past x }
{
    side_in(spot_of(range, x))
}

// Says whether a number is below a range: less than its low.
pub fn is_below(range: Range, x: u32) -> bool
    ensures { result ≡ ltb x range.low }
{
    x < range.low
}

// Says whether a number is not before the first one past a range; where it is not below the range, it is above.
pub fn is_past(range: Range, x: u32) -> bool
    ensures { result ≡ leb range.past x }
{
    range.past <= x as u64
}

// Says whether a range holds no number.
pub fn is_void(range: Range) -> bool
    ensures { result ≡ void_of range.low range.past }
{
    range.past <= range.low as u64
}

// Says whether the low of each of two ranges is before the other's end.
pub fn meets(a: Range, b: Range) -> bool
    ensures { result ≡ meet_of a.low a.past b.low b.past }
{
    if b.past <= a.low as u64 {
        return false;
    }
    (b.low as u64) < a.past
}
