// The words of the program `calls`: what each library call answers, as text, given the numbers of a line.
//
// Renders the table at the top of `crates/calls/src/main.rt`. The program `calls` cites it; it cites the layers, and
// `phrases` for what it puts.
//
// A word is one small function (`list_words`, `choice_words`, `table_words`, `prefix_words`): it finds the parts of a line's numbers by
// their places (`part`), calls the library, and puts the answer's text (the crate `phrases`) into a lent run that holds its place. No
// word writes to the numbers but r2p, whose run is written in place. `limits` says how long the parts and an answer may be.
#![tactic(auto)]

pub mod choice_words;
pub mod limits;
pub mod list_words;
pub mod part;
pub mod prefix_words;
pub mod table_words;
