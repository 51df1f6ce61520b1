// The library's answers as text: what the program `calls` says of each.
//
// Renders the right-hand side of the table at the top of `crates/calls/src/main.rt`. `words` and `calls` cite it; it cites
// the layers for their answers, and `text` for what it puts.
//
// An answer is a word and numbers, each after a blank; a refusal is its number and its place. Each function puts one into a
// lent run of bytes that holds its place.
#![tactic(auto)]

pub mod say;
