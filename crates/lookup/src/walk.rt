// The walk through one partition.
ghost use Rattle.std.specs.Prelude.{◌≡◌, ℕ, ◌+◌, ◌-◌, ◌<◌, ◌≤◌, length};
ghost use Rattle.lists.specs.Rules.{lent, range_at};
ghost use Rattle.lists.specs.Asked.{HasField};
ghost use Rattle.tables.specs.Layout.{order_at, from_at, to_at, seen};
ghost use Rattle.lookup.specs.Lent.{Ready, Group, Going};
ghost use Rattle.lookup.specs.Walk.{run_stands, step_of, arrived_of, walk_from};
ghost use Rattle.lookup.specs.Packed.{packed, unpacked};

use lists::range::field_range;
use lists::scan::rule_fits;
use lists::shape::{RuleList, offset_of};
use ranges::side::{Range, is_below, is_past};
use tables::layout::{from_at, order_at, to_at};
use tables::read::Table;

// What a walk answers: the number of the rule that it found in a partition, or none, with the tests made.
#[derive(Clone, Copy)]
pub struct Ran {
    pub found: Option<u16>,
    pub tests: u16,
}

// What one test leaves: places s to before e at field f.
#[derive(Clone, Copy)]
pub struct Step {
    pub s: u16,
    pub e: u16,
    pub f: u16,
}

// The table is broken.
#[derive(Clone, Copy)]
pub struct Broken;

// Reads the rule number at place p. A walk reads so often that a test of each place, as the readers of `tables` make it, would
// cost a lookup a fifth: so it has readers of its own, for places that are known to stand in the table.
fn rule_in(table: &Table, p: u16) -> u16
    requires { order_at p < length table.now.numbers.now }
    ensures { result ≡ (seen table.now).order p }
{
    table.numbers[order_at(p)]
}

// Reads the run-from of place p and field f.
fn from_in(table: &Table, p: u16, f: u16) -> u16
    requires { from_at table.now.room table.now.d p f < length table.now.numbers.now }
    ensures { result ≡ (seen table.now).from p f }
{
    table.numbers[from_at(table.room, table.d, p, f)]
}

// Reads the run-to of place p and field f.
fn to_in(table: &Table, p: u16, f: u16) -> u16
    requires { to_at table.now.room table.now.d p f < length table.now.numbers.now }
    ensures { result ≡ (seen table.now).to p f }
{
    table.numbers[to_at(table.room, table.d, p, f)]
}

// Gives the range of rule i in field f. A reader of its own, as in `ordering`: it asks that the rule stands there, and no public
// function asks anything.
fn range_at(list: &RuleList, i: u16, f: u16) -> Range
    requires { HasField (lent list.now) i f }
    ensures { result ≡ range_at (lent list.now) i f }
{
    let at = offset_of(list.shape.d as u16, i, f);
    field_range(list.shape, f as u32, list.numbers[at], list.numbers[at + 1])
}

// Says whether a run may be trusted: group start ≤ run-from ≤ mid < run-to ≤ group end.
fn run_stands(s: u16, e: u16, mid: u16, from: u16, to: u16) -> bool
    ensures { result ≡ run_stands s e mid from to }
{
    if from < s {
        return false;
    }
    if mid < from {
        return false;
    }
    if to <= mid {
        return false;
    }
    to <= e
}

// Makes one test: the header's number in field f against the rule at the middle of places s to before e; gives the
// group and the field that are left, or that the table is broken where the rule number is n or more or the run may not be trusted.
fn one_step(
    list: &RuleList,
    table: &Table,
    header: &[u32; 8],
    s: u16,
    e: u16,
    f: u16,
) -> Result<Step, Broken>
    requires ready { Ready (lent list.now) table.now }
    requires group { Group table.now.room table.now.d s e f }
    ensures { result ≡ step_of (lent list.now) (seen table.now) header.now s e f }
{
    let mid = s + (e - s) / 2;
    let rule = rule_in(table, mid);
    if table.room <= rule {
        return Err(Broken);
    }
    let from = from_in(table, mid, f);
    let to = to_in(table, mid, f);
    if !run_stands(s, e, mid, from, to) {
        return Err(Broken);
    }
    let range = range_at(list, rule, f);
    let x = header[f as usize];
    if is_below(range, x) {
        return Ok(Step { s, e: from, f });
    }
    if is_past(range, x) {
        return Ok(Step { s: to, e, f });
    }
    Ok(Step {
        s: from,
        e: to,
        f: f + 1,
    })
}

// Ends a walk at field d on places s to before e: gives the rule of the one place that is left, held against the header in
// all d fields once more; or a broken table.
fn arrive(
    list: &RuleList,
    table: &Table,
    header: &[u32; 8],
    s: u16,
    e: u16,
    tests: u16,
) -> Result<Ran, Broken>
    requires ready { Ready (lent list.now) table.now }
    requires some_places { (s < e) × (e ≤ table.now.room) }
    ensures { result ≡ arrived_of (lent list.now) (seen table.now) header.now s e tests }
{
    if e != s + 1 {
        return Err(Broken);
    }
    let rule = rule_in(table, s);
    if !rule_fits(list, rule, *header) {
        return Err(Broken);
    }
    Ok(Ran {
        found: Some(rule),
        tests,
    })
}

// What stands for a broken table where an answer's rule number would stand.
const NO_ANSWER: u16 = 65535;

// What stands for a miss there.
const NO_RULE: u16 = 65534;

// Gives a walk's answer as one number: 65536 times the rule number, or what stands for it, and the tests. A number comes
// back in a register, so that the walk's call of itself costs no more than a turn of a loop: as a `Result` it comes back in memory.
fn pack(walked: Result<Ran, Broken>) -> u32
    ensures { result ≡ packed walked }
{
    let Ok(Ran { found, tests }) = walked else {
        return NO_ANSWER as u32 * 65536;
    };
    found.unwrap_or(NO_RULE) as u32 * 65536 + tests as u32
}

// Gives the answer that a number stands for.
#[tactic(auto, unfolding(crate::specs::Packed::unpacked))]
pub(crate) fn unpack(code: u32) -> Result<Ran, Broken>
    ensures { result ≡ unpacked code }
{
    let what = (code / 65536) as u16;
    let tests = (code % 65536) as u16;
    if what == NO_ANSWER {
        return Err(Broken);
    }
    if what == NO_RULE {
        return Ok(Ran { found: None, tests });
    }
    Ok(Ran {
        found: Some(what),
        tests,
    })
}

// Walks on from places s to before e at field f, with some tests made: gives what it finds and all tests made, or a broken
// table, as one number. Calls itself on a smaller group or the next field; group size plus remaining fields falls at each call.
pub(crate) fn walk(
    list: &RuleList,
    table: &Table,
    header: &[u32; 8],
    s: u16,
    e: u16,
    f: u16,
    tests: u16,
) -> u32
    requires ready { Ready (lent list.now) table.now }
    requires going { Going table.now.room table.now.d s e f tests }
    ensures { (k : ℕ) → (e - s) + (table.now.d - f) < k → result ≡ packed (walk_from (lent list.now) (seen table.now) header.now k s e f tests) }
{
    if e <= s {
        return pack(Ok(Ran { found: None, tests }));
    }
    if list.shape.d <= f as usize {
        return pack(arrive(list, table, header, s, e, tests));
    }
    let step = one_step(list, table, header, s, e, f);
    let Ok(Step { s, e, f }) = step else {
        return pack(Err(Broken));
    };
    walk(list, table, header, s, e, f, tests + 1)
}
