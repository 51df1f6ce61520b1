// Layer 2: lists of rules, headers, and the first match.
//
// Renders 01's sections 'Lists and headers', 'Refusal numbers' and, of 'Other answers', check, plain scan and
// order independence; of 02, W2, a rule's fields at an end, and W8, which fields are dates. Every crate above may cite it; it
// cites `ranges` alone.
//
// The list. A list is a lent run of numbers, 2d a rule: low and high of field 0, then of field 1, and so on; with the shape
// that gives them their meaning it is one value (`RuleList`). `offset_of` alone knows where a rule's low stands; its high stands
// one further. The shape has d, and flags that say which fields are dates (`is_date`); `shape_of` makes one without dates, and how
// many fields, rules and numbers a list may have is said beside it. `field_range` makes a rule's range in a field, and alone asks
// for a flag. `in_list` says which rules a list has.
//
// What it answers. `check_list` says how many rules a list has. `plain_scan` gives the first rule that fits a header,
// and `rule_fits` says whether one rule does; `rule_edge` says whether one rule has a field at an end of its range (02,
// W2). `independence` says whether some header fits two rules, and which two come first. All but `rule_fits` and
// `rule_edge`, which refuse nothing, first refuse by 1, 2, 3 and 4, in this order (`list_fault`; `shape_fault` gives 1, 2
// and 3 alone, for those who do not read the whole list).
#![tactic(auto)]

pub mod check;
pub mod edge;
pub mod independence;
pub mod range;
pub mod scan;
pub mod shape;
