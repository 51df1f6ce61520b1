// Layer 3: rules sorted into partitions, and the working table.
//
// Renders 01's sections 'Order and partitions' (first fit), 'The working table' and, of 'Refusal numbers' and 'Other
// answers', what is said of a build; and 02, W4: the choice and the laying out by themselves. The crates of the audit, the
// lookup and the programs may cite it; it cites `ranges`, `lists`, for the order of rules `ordering` and for where a table's
// numbers stand `tables`. What a lookup may rely on is `specs/Promise.antt` alone.
//
// First fit by marks (`choose.rt`). A rule is held against every rule before it, once; where the two clash, the other
// rule's partition gets this rule's stamp, and a partition that has it is not looked at again. The rule goes to the
// lowest partition without its stamp. Stamps hold the rule's number plus one, so none is ever cleared.
//
// Ranks (`lay_out.rt`). The place of a rule is how many rules stand before it: those of lower partitions, and those of
// its own that come before it. Only rules of one partition are compared. Each rule is written at its place.
//
// The smallest rule of each partition (02, W5; `lay_out.rt`). From the last rule to the first, each is noted for its partition, so that
// a partition's first rule stays; what no rule is noted for, past the last partition, stays zero.
//
// Runs by neighbours (`lay_out.rt`). What the rules at places p - 1 and p have in common, counted in leading fields and
// none in different partitions, says for every field at once whether p's run begins with p. So one pass from the first
// place gives all run-froms, each row of fields by the row before, and one pass from the last place all run-tos.
//
// A choice that someone brings (`run_fault.rt`) is tested before the first write: its length, that each number is below n,
// that each up to the largest is used, and that no rule clashes with an earlier one of its partition. A build's own choice is
// known to pass, and is not tested.
#![tactic(auto)]

pub mod build;
pub mod choose;
mod count_parts;
pub mod lay_out;
mod run_fault;
