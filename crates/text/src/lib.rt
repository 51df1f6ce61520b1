// Text for the programs: decimal numbers, lines of them and files of such lines, byte by byte in and out.
//
// Renders what 01's section 'The program' says of a cell and of a number that is printed. The programs above cite
// it; it cites `ranges` for the words of its definitions alone.
//
// Reading. A number is read byte by byte (`cell`), a line of numbers cell by cell (`row`), a CSV file line by line
// (`line`): the reader stops at each line's end, and whoever reads the file judges the line there
// (`specs/Judging.antt`). What has been read is held by value; a number that stands goes to its place in a lent run. So
// a line may be cut anywhere into pieces and be of any length.
//
// Writing. Bytes are put at the place of a lent run, which goes on with them (`put`).
#![tactic(auto)]

pub mod cell;
pub mod line;
pub mod put;
pub mod row;
