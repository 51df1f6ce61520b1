// Reading a rules file: its lines become a list and the list's table, or the first flaw is found, with its place.
//
// Renders what 01's section 'The program' says of rules.csv. The programs above cite it; it cites `text` for lines,
// `flaws` for what can be wrong, and `sorting` for the table.
//
// Reading. A file comes in pieces, cut anywhere: `file` holds by value what has come of it, and numbers go to their
// places in a lent list of `MOST_NUMBERS`. A flaw is kept, and no later line changes it, so that whoever reads may stop
// there. Once the file has ended the table is built (`table`), and the build's own check finds low > high.
#![tactic(auto)]

pub mod file;
pub mod table;
