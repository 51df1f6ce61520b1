// Layer 3: whether a table is one that some choice of partitions makes.
//
// Renders what 01's 'Other answers' and 02's W4 and W5 say of an audit. It cites `sorting`, for the table that a list and a choice
// make, and the crates below it.
//
// A linear audit (`checks.rt`). Nothing is built and no two rules are compared but neighbours. The tests, each before what
// relies on it: the table opens; its starts ascend, zeros behind the last; each rule stands at one place; the number stored for
// each partition is the smallest of its places, zeros behind the last (02, W5); in each partition every rule comes before the
// next, and what the two have alike says of both their rows, the run-froms of the second and the run-tos of the first,
// whether they go on or end there. `specs/Checked.antt` has these facts, and `proofs/Laid.antt` the
// theorem that a table has them exactly where some choice makes it.
#![tactic(auto)]

pub mod audit;
mod checks;
