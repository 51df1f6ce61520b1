// The tests of a linear audit: the local facts of a table, each tested before what relies on it.
ghost use Rattle.std.specs.Prelude.{◌≡◌, suc, ◌≤◌, ◌<◌, get_or};
ghost use Rattle.ranges.specs.Numbers.{all};
ghost use Rattle.lists.specs.Limits.{most_rules};
ghost use Rattle.lists.specs.Rules.{lent};
ghost use Rattle.tables.specs.Layout.{seen};
ghost use Rattle.auditing.specs.Checks.{start_fine, rule_fine, least_from, least_fine, meets, next_fine, end_fine, span_fine, part_fine, checks, HeldIn, CellIn, PairIn, SpanIn, PartedIn};

use lists::shape::{MOST_RULES, RuleList, rules_in};
use ordering::compare::before_by;
use tables::layout::{from_at, to_at};
use tables::opening::open_fault;
use tables::read::{Table, end_of, least_of, part_count, rule_at, run_from, run_to, start_of};

// ---- the starts

// Says whether the start after q is right, of b partitions: past start q where q is one of them, else 0.
#[tactic(auto, unfolding(crate::specs::Checks::start_fine))]
fn start_fine(table: &Table, b: u16, q: u16) -> bool
    ensures { result ≡ start_fine b (seen table.now).start q }
{
    let next = end_of(table, q);
    if q < b {
        return start_of(table, q) < next;
    }
    next == 0
}

// Says whether the n starts after the first are right: they ascend up to start number b, and are 0 behind it.
fn starts_fine(table: &Table) -> bool
    ensures { result ≡ all table.now.room (start_fine (seen table.now).b (seen table.now).start) }
{
    let b = part_count(table);
    (0..table.room).all(|q| start_fine(table, b, q))
}

// ---- the order

// Says whether each of the n places has a rule below n that stands at no place before.
fn rules_fine(table: &Table) -> bool
    requires { table.now.room ≤ most_rules }
    ensures { result ≡ all table.now.room (rule_fine table.now.room (seen table.now).order) }
{
    let n = table.room;
    let mut marks = [false; MOST_RULES];
    for p in 0..n {
        let i = rule_at(table, p);
        if n <= i {
            return false;
        }
        if marks[i as usize] {
            return false;
        }
        marks[i as usize] = true;
    }
    true
}

// ---- the smallest rule numbers

// Gives the smallest rule number of places s to before e, or n where none is smaller.
fn least_rule(table: &Table, s: u16, e: u16) -> u16
    ensures { result ≡ least_from table.now.room (seen table.now).order s e }
{
    let mut least = table.room;
    for p in s..e {
        least = least.min(rule_at(table, p));
    }
    least
}

// Says whether the number stored for q is right, of b partitions: the smallest rule number of its places where q is one of
// them, else 0.
#[tactic(auto, unfolding(crate::specs::Checks::least_fine))]
fn least_fine(table: &Table, b: u16, q: u16) -> bool
    ensures { result ≡ least_fine table.now.room b (seen table.now).order (seen table.now).start (seen table.now).least q }
{
    let stored = least_of(table, q);
    if b <= q {
        return stored == 0;
    }
    stored == least_rule(table, start_of(table, q), end_of(table, q))
}

// Says whether the n numbers stored are right: the smallest of each partition, and 0 behind the last.
fn leasts_fine(table: &Table) -> bool
    ensures { result ≡ all table.now.room (least_fine table.now.room (seen table.now).b (seen table.now).order (seen table.now).start (seen table.now).least) }
{
    let b = part_count(table);
    (0..table.room).all(|q| least_fine(table, b, q))
}

// ---- the rows

// Reads the run-from of place p and field f, of a table that has it.
fn from_in(table: &Table, p: u16, f: u16) -> u16
    requires { CellIn table.now p f }
    ensures { result ≡ (seen table.now).from p f }
{
    table.numbers[from_at(table.room, table.d, p, f)]
}

// Reads the run-to of place p and field f, of a table that has it.
fn to_in(table: &Table, p: u16, f: u16) -> u16
    requires { CellIn table.now p f }
    ensures { result ≡ (seen table.now).to p f }
{
    table.numbers[to_at(table.room, table.d, p, f)]
}

// Says whether field f of places p and p + 1 is right, whose rules have their first a fields alike: below a the run goes on,
// and from a on it ends with p and begins with p + 1.
#[tactic(auto, unfolding(crate::specs::Checks::meets))]
fn field_meets(table: &Table, a: u16, p: u16, f: u16) -> bool
    requires { PairIn table.now p × (f < table.now.d) }
    ensures { result ≡ meets (seen table.now) a p f }
{
    prove!(p < table.room);
    let next = p + 1;
    let (from, to) = if f < a {
        (from_in(table, p, f), to_in(table, next, f))
    } else {
        (next, next)
    };
    if from_in(table, next, f) != from {
        return false;
    }
    to_in(table, p, f) == to
}

// Says whether the rows of places p and p + 1 are right, in all d fields.
fn rows_meet(table: &Table, a: u16, p: u16) -> bool
    requires { PairIn table.now p }
    ensures { result ≡ all table.now.d (meets (seen table.now) a p) }
{
    for f in 0..table.d {
        if !field_meets(table, a, p, f) {
            return false;
        }
    }
    true
}

// Says whether in field f the run of a partition's first place s begins there, and that of the place before e, its last, ends
// with it.
#[tactic(auto, unfolding(crate::specs::Checks::end_fine))]
fn end_fine(table: &Table, s: u16, e: u16, f: u16) -> bool
    requires { s < e }
    ensures { result ≡ end_fine (seen table.now) s e f }
{
    if run_from(table, s, f) != s {
        return false;
    }
    run_to(table, e - 1, f) == e
}

// Says the same of all d fields.
fn ends_fine(table: &Table, s: u16, e: u16) -> bool
    requires { s < e }
    ensures { result ≡ all table.now.d (end_fine (seen table.now) s e) }
{
    (0..table.d).all(|f| end_fine(table, s, e, f))
}

// ---- the partitions

// Says whether the rule at place p comes before that at place p + 1, and the rows of the two are right.
#[tactic(auto, unfolding(crate::specs::Checks::next_fine))]
fn next_fine(list: &RuleList, table: &Table, p: u16) -> bool
    requires { HeldIn (lent list.now) table.now × (suc p < table.now.room) }
    ensures { result ≡ next_fine (lent list.now) (seen table.now) p }
{
    match before_by(list, rule_at(table, p), rule_at(table, p + 1)) {
        Some(a) => rows_meet(table, a, p),
        None => false,
    }
}

// Says whether a partition from place s to before e is right.
#[tactic(auto, unfolding(crate::specs::Checks::span_fine))]
fn span_fine(list: &RuleList, table: &Table, s: u16, e: u16) -> bool
    requires { SpanIn (lent list.now) table.now s e }
    ensures { result ≡ span_fine (lent list.now) (seen table.now) s e }
{
    if !ends_fine(table, s, e) {
        return false;
    }
    for p in s..e - 1 {
        if !next_fine(list, table, p) {
            return false;
        }
    }
    true
}

// Says whether each partition is right.
fn parts_fine(list: &RuleList, table: &Table) -> bool
    requires { PartedIn (lent list.now) table.now }
    ensures { result ≡ all (seen table.now).b (part_fine (lent list.now) (seen table.now)) }
{
    for q in 0..part_count(table) {
        if !span_fine(list, table, start_of(table, q), end_of(table, q)) {
            return false;
        }
    }
    true
}

// ---- all of it

// Says whether a table opens, and its starts, its order, its smallest rule numbers and each partition are right.
#[tactic(auto, unfolding(crate::specs::Checks::checks, crate::specs::Checks::parts_fine))]
pub(crate) fn is_laid(list: &RuleList, numbers: &[u16]) -> bool
    ensures { result ≡ checks (lent list.now) numbers.now }
{
    if open_fault(list, numbers).is_err() {
        return false;
    }
    let d = list.shape.d as u16;
    let room = rules_in(list) as u16;
    let table = Table { room, d, numbers };
    if !starts_fine(&table) {
        return false;
    }
    if !rules_fine(&table) {
        return false;
    }
    if !leasts_fine(&table) {
        return false;
    }
    parts_fine(list, &table)
}
