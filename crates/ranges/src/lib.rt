// Layer 1: refusals, ranges, the single range test, how two ranges stand, and prefixes as ranges and back.
//
// Renders 01's sections 'Lists and headers' (the range test), 'Order and partitions' (on one field), 'Refusal numbers'
// and, of 'Other answers', what is said of prefixes. Every crate above may cite it; it cites none of ours.
//
// The range. A range is its low and the first number past it (`Range`); `closed` makes one of low and high, `range_of` that of
// a rule, which may be one of dates, and nothing else knows how a range ends.
//
// What it answers. `spot_of` is the single range test: it says where a number lies as against both ends of a range (02,
// W2), and `side_of` sorts that into below, above and inside. `is_void` says whether a range holds no number, `meets`
// whether two share one, `is_under` whether one ends before the other begins, and `same_ends` whether they are equal.
// `prefix_to_range` turns a prefix into its range. `range_to_prefixes` turns a range into prefixes: from the low end, always the largest aligned block that stays
// in the range.
#![tactic(auto)]

pub mod expand;
pub mod prefix;
pub mod reason;
pub mod refusal;
pub mod side;
pub mod spot;
pub mod standing;
