// Of layer 3: the working table as it lies in memory.
//
// Renders 01's section 'The working table' (its layout) and, of 'Refusal numbers', 5 and what breaks a table for the
// opening. The crates of sorting, of the lookup and the programs may cite it; it cites `ranges` and `lists`.
//
// The layout. n, d and b; the rules in the order of their places; the starts of the partitions; the smallest rule number of
// each (02, W5); for every place and field, where its run begins and where it ends. `layout` says where each number stands,
// for any n and d of 16 bits, and `specs/Layout.antt` reads a table as a view, so that no definition above speaks of an
// offset; `read` gives the code the same numbers by name.
//
// The opening. `open_fault` gives the refusals with which a lookup and a report begin. `report` says of a partition how many
// places it has and which rule number the table stores as its smallest.
#![tactic(auto)]

pub mod layout;
pub mod opening;
pub mod read;
pub mod report;
