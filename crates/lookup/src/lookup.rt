// The lookup of a header in a table.
ghost use Rattle.std.specs.Prelude.{◌≡◌, ◌≤◌, ◌<◌, ◌↔◌, length, IsTrue, IsSomeAnd};
ghost use Rattle.ranges.specs.Refusals.{refusing};
ghost use Rattle.ranges.specs.declared.refusal.Cause.TheVariants.{BrokenTable};
ghost use Rattle.lists.specs.Rules.{lent};
ghost use Rattle.tables.specs.Layout.{start_at, least_at, least_in, seen};
ghost use Rattle.lookup.specs.Lent.{Ready};
ghost use Rattle.lookup.specs.Lookup.{sooner, visit_of, search_of, lookup_of};

use crate::walk::{Broken, Ran, unpack, walk};
use lists::edge::rule_edge;
use lists::shape::{RuleList, rules_in};
use ranges::refusal::{Cause, Refusal, refuse};
use tables::layout::{least_at, start_at};
use tables::opening::open_fault;
use tables::read::{Table, part_count};

// The first match: its rule number, and whether it has a field at an end of its range.
#[derive(Clone, Copy)]
pub struct Match {
    pub rule: usize,
    pub edge: bool,
}

// What a lookup answers: the first match, or none, with the range tests made.
#[derive(Clone, Copy)]
pub struct Looked {
    pub found: Option<Match>,
    pub tests: usize,
}

// A broken table refuses the whole call.
impl From<Broken> for Refusal {
    ghost from_gives = { λ _ x. x ≡ refusing BrokenTable 0 0 };

    fn from(_broken: Broken) -> Refusal {
        refuse(Cause::BrokenTable)
    }
}

// Reads the start number q. A lookup comes to every partition, so what it reads there has no test of its own, as in a walk: it is
// known to stand in the table.
fn start_in(table: &Table, q: u16) -> u16
    requires { start_at table.now.room q < length table.now.numbers.now }
    ensures { result ≡ (seen table.now).start q }
{
    table.numbers[start_at(table.room, q)]
}

// Reads the smallest rule number that is stored for partition q.
fn least_in(table: &Table, q: u16) -> u16
    requires { least_at table.now.room q < length table.now.numbers.now }
    ensures { result ≡ least_in table.now.room table.now.numbers.now q }
{
    table.numbers[least_at(table.room, q)]
}

// Visits partition q: walks through its places, or says that the table is broken where it has none or ends past the n
// places.
fn visit(list: &RuleList, table: &Table, header: &[u32; 8], q: u16) -> Result<Ran, Broken>
    requires { Ready (lent list.now) table.now × (q < table.now.room) }
    ensures { result ≡ visit_of (lent list.now) (seen table.now) header.now q }
{
    let s = start_in(table, q);
    let e = start_in(table, q + 1);
    if e <= s {
        return Err(Broken);
    }
    if table.room < e {
        return Err(Broken);
    }
    unpack(walk(list, table, header, s, e, 0, 0))
}

// Says whether partition q is skipped: there is a candidate, and the number that is stored for q is greater.
fn is_skipped(table: &Table, best: Option<u16>, q: u16) -> bool
    requires { least_at table.now.room q < length table.now.numbers.now }
    ensures { IsTrue result ↔ IsSomeAnd best (λ i. i < least_in table.now.room table.now.numbers.now q) }
{
    let Some(rule) = best else {
        return false;
    };
    rule < least_in(table, q)
}

// Gives the smaller of two candidates, where there are two, or the one that there is. By branches: where both are worked out and one
// is chosen, a lookup through 36 partitions took 1.09 times as long.
fn smaller(best: Option<u16>, found: Option<u16>) -> Option<u16>
    ensures { result ≡ sooner best found }
{
    let Some(j) = found else {
        return best;
    };
    match best {
        Some(i) if i <= j => best,
        _ => found,
    }
}

// Comes to the partitions in order, skips those that can't have a smaller candidate by their stored number, and
// visits the others: gives the smallest candidate, or none, with the sum of the tests; or refuses with 6 at the first that is
// visited and broken. Whether the winner has a field at an end is worked out once, after the last partition.
fn visit_all(list: &RuleList, table: &Table, header: &[u32; 8]) -> Result<Looked, Refusal>
    requires ready { Ready (lent list.now) table.now }
    requires few_parts { (seen table.now).b ≤ table.now.room }
    ensures { result ≡ search_of (lent list.now) (seen table.now) header.now }
{
    let b = part_count(table);
    let mut best: Option<u16> = None;
    let mut total: usize = 0;
    for q in 0..b {
        if is_skipped(table, best, q) {
            continue;
        }
        let Ran { found, tests } = visit(list, table, header, q)?;
        best = smaller(best, found);
        total += tests as usize;
    }
    let Some(i) = best else {
        return Ok(Looked {
            found: None,
            tests: total,
        });
    };
    let rule = i as usize;
    let edge = rule_edge(list, i, *header);
    Ok(Looked {
        found: Some(Match { rule, edge }),
        tests: total,
    })
}

// Looks a header up in a table: gives the smallest candidate of the partitions that are not skipped, with whether it has a
// field at an end of its range, or none, with the sum of the tests; or the first of the refusals 1, 2, 3, 5 and 6 that
// applies.
#[tactic(auto, unfolding(crate::specs::Lookup::lookup_of))]
pub fn lookup(list: &RuleList, table: &[u16], header: [u32; 8]) -> Result<Looked, Refusal>
    ensures { result ≡ lookup_of (lent list.now) table.now header }
{
    open_fault(list, table)?;
    let room = rules_in(list) as u16;
    let d = list.shape.d as u16;
    let table = Table {
        room,
        d,
        numbers: table,
    };
    visit_all(list, &table, &header)
}
