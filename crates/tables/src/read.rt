// A table's numbers, each read by its name, of a table of any length: 0 past its end.
ghost use Rattle.std.specs.Prelude.{◌≡◌, suc, get_or};
ghost use Rattle.tables.specs.Layout.{seen};
ghost use Rattle.tables.specs.Opening.{part_stands};

use crate::layout::{B_AT, from_at, least_at, order_at, start_at, to_at};

// A table as it is lent: its numbers, how many rules each of its parts has room for, and how many fields a rule has.
#[derive(Clone, Copy)]
pub struct Table<'a> {
    pub room: u16,
    pub d: u16,
    pub numbers: &'a [u16],
}

// Reads the number that stands at an offset.
pub(crate) fn number_at(numbers: &[u16], at: usize) -> u16
    ensures { result ≡ get_or numbers.now at 0 }
{
    numbers.get(at).copied().unwrap_or(0)
}

// Reads b, the number of partitions.
pub fn part_count(table: &Table) -> u16
    ensures { result ≡ (seen table.now).b }
{
    number_at(table.numbers, B_AT)
}

// Reads the rule number at place p.
pub fn rule_at(table: &Table, p: u16) -> u16
    ensures { result ≡ (seen table.now).order p }
{
    number_at(table.numbers, order_at(p))
}

// Reads the first place of partition q.
pub fn start_of(table: &Table, q: u16) -> u16
    ensures { result ≡ (seen table.now).start q }
{
    number_at(table.numbers, start_at(table.room, q))
}

// Reads the place after the last of partition q, which is the next start.
pub fn end_of(table: &Table, q: u16) -> u16
    ensures { result ≡ (seen table.now).start (suc q) }
{
    number_at(table.numbers, start_at(table.room, q) + 1)
}

// Reads the smallest rule number that is stored for partition q.
pub fn least_of(table: &Table, q: u16) -> u16
    ensures { result ≡ (seen table.now).least q }
{
    number_at(table.numbers, least_at(table.room, q))
}

// Reads the run-from of place p and field f.
pub fn run_from(table: &Table, p: u16, f: u16) -> u16
    ensures { result ≡ (seen table.now).from p f }
{
    number_at(table.numbers, from_at(table.room, table.d, p, f))
}

// Reads the run-to of place p and field f.
pub fn run_to(table: &Table, p: u16, f: u16) -> u16
    ensures { result ≡ (seen table.now).to p f }
{
    number_at(table.numbers, to_at(table.room, table.d, p, f))
}

// Says whether partition q has a place and ends within n places: its start is before the next, which is at most n.
pub fn part_stands(table: &Table, n: u16, q: u16) -> bool
    ensures { result ≡ part_stands n (seen table.now).start q }
{
    let e = end_of(table, q);
    if e <= start_of(table, q) {
        return false;
    }
    e <= n
}
