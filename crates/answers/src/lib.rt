// What the gateway's program prints and says: the answer to a header line, the lines around the answers, and what is
// wrong with the headers.
//
// Renders what 01's section 'The program' says of the output. The program `gateway` cites it; it cites `lookup` for
// answers, `rulesfile` for the rules and `text` for lines and numbers.
//
// Printed. A line is put at a place of a lent run and has at most `LINE_MOST` bytes (`say`): the first line or the rules'
// refusal (`open`), and the answer to each header line (`answer`).
//
// Said on standard error. Header lines that are refused are counted (`count`), and one line says how many they are, which is
// the first and why (`complain`).
#![tactic(auto)]

pub mod answer;
pub mod complain;
pub mod count;
pub mod open;
pub mod say;
