// Of layer 3: how two rules stand to each other.
//
// Renders 01's section 'Order and partitions', its first paragraph. The crates of sorting and of the lookup may cite it; it
// cites `ranges` and `lists`.
//
// What it answers. `rule_before` says whether one rule comes before another, and `rules_clash` whether neither does: the first
// field in which their ranges are not equal decides. `alike_fields` counts how many first fields two rules have alike. All
// take any list and any two rule numbers: rules that the list does not have clash, and have no field alike.
#![tactic(auto)]

pub mod compare;
