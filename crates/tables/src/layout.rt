// Where each part of a working table stands: each begins where the one before it ends. No other file knows an offset.
//
// `room` is how many rules a part has room for: the order has as many places, the starts one more, the smallest rule numbers as
// many, and the runs as many rows of d numbers each.
ghost use Rattle.std.specs.Prelude.{◌≡◌};
ghost use Rattle.tables.specs.Layout.{row_of, table_length, order_at, start_at, least_at, from_at, to_at};

use lists::shape::{MOST_FIELDS, MOST_RULES};

// Where n, the number of rules, stands.
pub const N_AT: usize = 0;

// Where d, the number of fields, stands.
pub const D_AT: usize = 1;

// Where b, the number of partitions, stands.
pub const B_AT: usize = 2;

// How many numbers stand before the order: n, d and b.
const HEAD: usize = 3;

// The length of the longest table.
pub const MOST_TABLE: usize = HEAD
    + MOST_RULES
    + (MOST_RULES + 1)
    + MOST_RULES
    + MOST_RULES * MOST_FIELDS * 2;

// Says where the rule number at place p stands: the order comes after n, d and b.
pub fn order_at(p: u16) -> usize
    ensures { result ≡ order_at p }
{
    HEAD + p as usize
}

// Says where the first place of partition q stands: the starts come after the order.
pub fn start_at(room: u16, q: u16) -> usize
    ensures { result ≡ start_at room q }
{
    order_at(room) + q as usize
}

// Says where the smallest rule number of partition q stands: these come after the last start.
pub fn least_at(room: u16, q: u16) -> usize
    ensures { result ≡ least_at room q }
{
    start_at(room, room) + 1 + q as usize
}

// Gives the number of a place and a field among the numbers of a part that has d for each place.
fn row_of(d: u16, p: u16, f: u16) -> usize
    ensures { result ≡ row_of d p f }
{
    p as usize * d as usize + f as usize
}

// Says where the run-from of place p and field f stands: the run-froms come after the last
// smallest rule number.
pub fn from_at(room: u16, d: u16, p: u16, f: u16) -> usize
    ensures { result ≡ from_at room d p f }
{
    least_at(room, room) + row_of(d, p, f)
}

// Says where the run-to of place p and field f stands: the run-tos come after the last run-from.
pub fn to_at(room: u16, d: u16, p: u16, f: u16) -> usize
    ensures { result ≡ to_at room d p f }
{
    from_at(room, d, room, 0) + row_of(d, p, f)
}

// Gives the length of a table: it ends after the last run-to.
pub fn table_length(room: u16, d: u16) -> usize
    ensures { result ≡ table_length room d }
{
    to_at(room, d, room, 0)
}
