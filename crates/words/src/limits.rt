// How many numbers a line may bring and how many bytes it is answered with at most, and the runs that have room for them.
// What depends on a list or a table follows from the longest that the library takes.
use lists::shape::{MOST_NUMBERS, MOST_RULES};
use tables::layout::MOST_TABLE;

// The lengths of LIST and of TABLE are limited to a multiple of this that is past the library's own limit: so a list or a
// table that is a little too long comes to the library, which refuses it.
const STEP: usize = 500;

// The most numbers of LIST: the longest list's, rounded up.
pub const LIST_MOST: usize = (MOST_NUMBERS / STEP + 1) * STEP;

// The most numbers of TABLE: the longest table's, rounded up.
pub const TABLE_MOST: usize = (MOST_TABLE / STEP + 1) * STEP;

// The most numbers of r2p's RUN.
pub const RUN_MOST: usize = 200;

// The most numbers of RUN of choose and layout: the longest choice's, rounded up to a hundred.
pub const CHOICE_MOST: usize = (MOST_RULES / 100 + 1) * 100;

// The length of the run for a line's numbers: a list's, a choice's, a table's, and 100 for D, the three lengths and what
// follows.
pub const LINE_ROOM: usize = LIST_MOST + CHOICE_MOST + TABLE_MOST + 100;

// The length of the run for a line's first word, past that of the longest name.
pub const NAME_ROOM: usize = 16;

// The most bytes of an answer, its LF counted: at most 21 for each number of a table with its blank, and 100 for the rest.
pub const ANSWER_MOST: usize = TABLE_MOST * 21 + 100;

// The length of the run for answers: the longest's, rounded up.
pub const OUT_ROOM: usize = (ANSWER_MOST / 100000 + 1) * 100000;
