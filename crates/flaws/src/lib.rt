// What can be wrong with a rules file: the flaw, with the number that 01 refuses it by and the place that a person looks
// for (`flaw`), and its text (`say`).
//
// The crates that read a rules file and say what is wrong with it cite it; it cites `text` for putting bytes.
#![tactic(auto)]

pub mod flaw;
pub mod say;
