// The exported interface: what C and Rust call. No layer; it cites the layers and none cites it.
//
// Renders DESIGN's section of this name. `include/cuyenalot.h` says of each function what it answers for every input, in
// 01's words, and what a caller owes; the wrapper in `examples/rust` makes the calls safe.
//
// What goes in. Plain numbers and slices; a slice is a pointer and a length. d is a number, and so are the flags that say which
// fields are dates, bit f for field f (02, W8); a list is a slice, and a header is a pointer to eight numbers, which are copied.
//
// What comes out. Every function returns the refusal number, 0 where nothing is refused, and writes the run of numbers
// that is lent as its last argument: number, at, then, and then what the operation answers (`specs/Answers.antt`).
//
// It is thin: each function calls the library and writes its answer down. None has a `requires`: the library refuses
// what it cannot answer, so a caller owes valid memory and nothing more.
#![tactic(auto)]

mod answer;
pub mod list;
pub mod prefix;
pub mod table;
pub mod version;
