// A line of the program `calls`, heard byte by byte: its first word, the flags of D, and its numbers.
//
// Renders the left-hand side of the table at the top of `crates/calls/src/main.rt`. The program `calls` cites it; it cites
// `text` for decimal numbers.
//
// A line may be of any length and may come in pieces, so nothing of it is kept but what is needed: the first word's bytes and the
// numbers go to lent runs, and what is held by value says how far each has come (`line`). D may be followed by a colon and
// eight flags, which say which fields are dates (02, W8; `flags`). What the word asks for is for `calls` to say.
#![tactic(auto)]

pub mod flags;
pub mod line;
