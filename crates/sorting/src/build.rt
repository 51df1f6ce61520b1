// The build of a table, with its refusals.
ghost use Rattle.std.specs.Prelude.{◌≡◌};
ghost use Rattle.lists.specs.Rules.{lent};
ghost use Rattle.sorting.specs.Table.{built_table};
ghost use Rattle.sorting.specs.Build.{Buildable, build_fault, built_parts, Built};

use crate::choose::first_fit;
use crate::lay_out::{sort_out, write_table};
use lists::check::list_fault;
use lists::shape::{MOST_RULES, RuleList, rules_in};
use ranges::refusal::{Cause, Refusal, refuse};
use tables::layout::table_length;

// Refuses a list and a table by the first of 1, 2, 3, 4 and 5 that applies.
#[tactic(auto, unfolding(crate::specs::Build::build_fault))]
pub fn build_fault(list: &RuleList, table: &[u16]) -> Result<(), Refusal>
    ensures { result ≡ build_fault (lent list.now) table.now }
{
    list_fault(list)?;
    let d = list.shape.d as u16;
    let n = rules_in(list) as u16;
    if table.len() != table_length(n, d) {
        return Err(refuse(Cause::BadTableLength));
    }
    Ok(())
}

// Chooses partitions by first fit and writes every number of the table with them, for a list and a table that are not refused; returns
// how many partitions there are.
fn write_built(list: &RuleList, table: &mut [u16]) -> usize
    requires { Buildable (lent list.now) table.old }
    ensures { (result ≡ built_parts (lent list.now)) × (table.new ≡ built_table (lent list.now)) }
{
    let n = rules_in(list);
    let mut run = [0u16; MOST_RULES];
    let mut order = [0u16; MOST_RULES];
    let b = first_fit(list, &mut run[..n]);
    sort_out(list, &run[..n], &mut order[..n]);
    write_table(list, &run[..n], b, &order[..n], table);
    b as usize
}

// Builds the table of a list: writes every number of it and gives b, the number of partitions; or gives the first of the
// refusals 1, 2, 3, 4 and 5 that applies, and leaves the table as lent.
pub fn build(list: &RuleList, table: &mut [u16]) -> Result<usize, Refusal>
    ensures { Built (lent list.now) table.old table.new result }
{
    build_fault(list, table)?;
    Ok(write_built(list, table))
}
