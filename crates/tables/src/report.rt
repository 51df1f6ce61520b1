// The report on a partition: its size, and its smallest rule number as it is stored.
ghost use Rattle.std.specs.Prelude.{◌≡◌};
ghost use Rattle.lists.specs.Rules.{lent};
ghost use Rattle.tables.specs.Layout.{seen};
ghost use Rattle.tables.specs.Asked.{PartWithin};
ghost use Rattle.tables.specs.Report.{size_of, part_fault, report_fault, report_of};

use crate::opening::open_fault;
use crate::read::{Table, end_of, least_of, part_count, part_stands, start_of};
use lists::shape::{RuleList, rules_in};
use ranges::refusal::{Cause, Refusal, refuse};

// What a report answers: how many places the partition has, and its smallest rule number as the table stores it.
#[derive(Clone, Copy, PartialEq, Eq)]
pub struct Part {
    pub size: usize,
    pub least: usize,
}

// Gives how many places partition q has, where its starts ascend.
fn part_size(table: &Table, q: u16) -> u16
    requires { PartWithin table.now.room (seen table.now).start q }
    ensures { result ≡ size_of (seen table.now).start q }
{
    end_of(table, q) - start_of(table, q)
}

// Refuses by 6 where partition q is broken: its starts do not ascend or go past n, or its stored number is n or more.
#[tactic(auto, unfolding(crate::specs::Report::part_fault))]
fn part_fault(table: &Table, q: u16) -> Result<(), Refusal>
    ensures { result ≡ part_fault table.now.room (seen table.now).start (seen table.now).least q }
{
    let n = table.room;
    if !part_stands(table, n, q) {
        return Err(refuse(Cause::BrokenTable));
    }
    if n <= least_of(table, q) {
        return Err(refuse(Cause::BrokenTable));
    }
    Ok(())
}

// Refuses a report by the first that applies of 1, 2, 3, 5, 6 for the opening, 7, 6 for the partition.
#[tactic(auto, unfolding(crate::specs::Report::report_fault))]
fn report_fault(list: &RuleList, numbers: &[u16], part: usize) -> Result<(), Refusal>
    ensures { result ≡ report_fault (lent list.now) numbers.now part }
{
    open_fault(list, numbers)?;
    let d = list.shape.d as u16;
    let room = rules_in(list) as u16;
    let table = Table { room, d, numbers };
    if part_count(&table) as usize <= part {
        return Err(refuse(Cause::NoSuchPartition));
    }
    part_fault(&table, part as u16)
}

// Reports on a partition: gives its size in places and its smallest rule number as the table stores it; or the first of the
// refusals 1, 2, 3, 5, 6 for the opening, 7, 6 for the partition that applies.
pub fn report(list: &RuleList, numbers: &[u16], part: usize) -> Result<Part, Refusal>
    ensures { result ≡ report_of (lent list.now) numbers.now part }
{
    report_fault(list, numbers, part)?;
    let d = list.shape.d as u16;
    let room = rules_in(list) as u16;
    let table = Table { room, d, numbers };
    let q = part as u16;
    Ok(Part {
        size: part_size(&table, q) as usize,
        least: least_of(&table, q) as usize,
    })
}
