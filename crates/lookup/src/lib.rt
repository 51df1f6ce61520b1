// Layer 4: a header looked up in a sorted table.
//
// Renders 01's section 'The walk' and, of 'Refusal numbers', what is said of a lookup. The programs may cite it; it cites
// `ranges`, `lists`, `ordering`, `tables` and, of `sorting`, what a table promises (`specs/Promise.antt`), and nothing of how a table is
// made; only the statements on built tables cite what `sorting` proves of them.
//
// What it answers. `lookup` gives the smallest rule number that fits a header, or none, with the number of range tests
// made; or a refusal, 1, 2, 3, 5 or 6. It never gives 4, since it does not read the whole list. With a rule it says whether
// one of its fields is at an end of its range (02, W2): of the winner alone, after the last partition.
//
// Which partitions. They are come to in order. Once there is a candidate, a partition whose stored number, its smallest rule, is
// greater is skipped (02, W5): none of its rules could win, and nothing of it is tested, not even its starts. Partitions behind it may
// store a smaller number, so the search goes on; a wrong stored number may so hide a better rule, and a rule returned still fits.
//
// The walk. A partition's places ascend, so that one test at a middle place rules out a part of them. The walk has a group
// of places, at first the whole partition, and a field, at first 0. It tests the header's number in this field against the
// rule at the middle of the group. Below: nothing from the middle's run on can fit. Above: nothing before the run's end can.
// Inside: only the run can, and the next field decides. A run is the stretch of places whose rules have the same ranges up
// to this field. What remains is the same walk on the smaller group or the next field: `walk` calls itself, and
// group size plus remaining fields falls at each call.
//
// Why the count is d + k. In a partition of m rules let 2^k be the largest power of two within m. A test that is below or above leaves
// at most half of the group, rounded down, so k of them leave at most one place and one more leaves none. A test that is
// inside goes on to the next field. A hit takes d tests that are inside and at most k others. A miss takes at most k + 1
// others and fewer than d that are inside, since its last test was made at a field and not inside. The split is at the middle
// rule: at the middle distinct range the answers would be the same and this bound would be lost.
//
// What a broken table does. No number read from a table is trusted: a rule number has to be below n, and a run has to hold the
// middle place and to lie within the group, so that a group never grows and every read stays inside. At field d one place has
// to be left, and its rule is held against the header in all d fields once more. Whatever fails refuses the whole call with
// 6. So a rule that is returned fits, whatever the table.
//
// What it costs. As much as a loop: `walk` is passed its list and its table by reference and answers with one number, so that no
// call of itself is handed a local of the caller, and the compiler makes the recursion a loop. `visit` unpacks the number into the
// partition's answer: a rule, or none, with the tests, or broken.
#![tactic(auto)]

pub mod lookup;
pub mod walk;
