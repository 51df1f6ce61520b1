// Whether a table opens, and the refusals of one that does not.
ghost use Rattle.std.specs.Prelude.{◌≡◌};
ghost use Rattle.lists.specs.Rules.{lent};
ghost use Rattle.tables.specs.Layout.{seen};
ghost use Rattle.tables.specs.Opening.{opening, open_fault};

use crate::layout::{D_AT, N_AT, table_length};
use crate::read::{Table, number_at, part_count, start_of};
use lists::shape::{RuleList, rules_in, shape_fault};
use ranges::refusal::{Cause, Refusal, refuse};

// Says whether a table opens for as many rules as it has room for: its first two numbers are n and d, b is at most n, its
// first start is 0, and its start number b is n.
#[tactic(auto, unfolding(crate::specs::Opening::opening))]
fn opens(table: &Table) -> bool
    ensures { result ≡ opening table.now.room table.now.d (seen table.now) }
{
    let n = table.room;
    if number_at(table.numbers, N_AT) != n {
        return false;
    }
    if number_at(table.numbers, D_AT) != table.d {
        return false;
    }
    let b = part_count(table);
    if n < b {
        return false;
    }
    if start_of(table, 0) != 0 {
        return false;
    }
    start_of(table, b) == n
}

// Refuses a table as a lookup and a report begin, by the first of 1, 2, 3, 5 and 6 for the opening that applies.
#[tactic(auto, unfolding(crate::specs::Opening::open_fault))]
pub fn open_fault(list: &RuleList, numbers: &[u16]) -> Result<(), Refusal>
    ensures { result ≡ open_fault (lent list.now) numbers.now }
{
    shape_fault(list)?;
    let d = list.shape.d as u16;
    let room = rules_in(list) as u16;
    if numbers.len() != table_length(room, d) {
        return Err(refuse(Cause::BadTableLength));
    }
    if !opens(&Table { room, d, numbers }) {
        return Err(refuse(Cause::BrokenTable));
    }
    Ok(())
}
