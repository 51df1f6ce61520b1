// What the programs share: the words they are started with, bytes written out, and the exit status that they tell. No
// layer; only programs cite it.
//
// The exit status. The process itself ends with 0. A program whose first word is --status tells its status, one digit, on
// descriptor 9, where `scripts/with-status` hears it and ends with it. Without that word nothing is written there. Where the
// reader of what it writes has gone away, nothing is said or told any more, and the process ends with 141, as one does that
// the signal of a broken pipe ends.
//
//     0   the job was done
//     1   something was refused as a whole, or could not be read or written
//     2   the program was not called as it is to be
#![tactic(auto)]

pub mod bytes;
pub mod output;
pub mod start;
pub mod status;
pub mod streams;
