// The calls of a list and a table. `given` holds the line's numbers after the word: D LIST TABLE, and what follows; `dates`
// are the flags of D.
ghost use Rattle.std.specs.Prelude.{◌+◌, ◌-◌, ◌*◌, ◌++◌, ◌≡◌, length};
ghost use Rattle.ranges.specs.Refusals.{number_of};
ghost use Rattle.lists.specs.Rules.{lent};
ghost use Rattle.words.specs.Limits.{answer_most};
ghost use Rattle.phrases.specs.Few.{PutFew};
ghost use Rattle.phrases.specs.Said.{all_spaced, count_said};
ghost use Rattle.words.specs.Parts.{TableTo};
ghost use Rattle.words.specs.Words.{following, build_said, lookup_said, audit_said, report_said, table_said, tabled_from, tabled_said};

use crate::limits::TABLE_MOST;
use crate::part::{header_of, list_in, narrow, table_ends};
use auditing::audit::audit;
use lists::shape::RuleList;
use lookup::lookup::lookup;
use phrases::say::{put_bad, put_count, put_looked, put_part, put_table, put_verdict};
use ranges::refusal::Refusal;
use sorting::build::build;
use tables::report::report;
use text::put::Out;

// The calls of a list and a table.
#[derive(Clone, Copy)]
pub enum TableWord {
    Build,
    Lookup,
    Audit,
    Report,
}

// Puts a count or the refusal, a word, and then the numbers that the library left.
pub(crate) fn put_counted(
    count: Result<usize, Refusal>,
    word: &[u8],
    numbers: &[u16],
    out: &mut Out,
)
    ensures { PutFew (70 + length word.now + 21 * length numbers.now) out.old (count_said number_of count ++ word.now ++ all_spaced numbers.now) out.new }
{
    put_count(count, out);
    out.text(word);
    put_table(numbers, out);
}

// build D LIST TABLE: puts the number of partitions, or the refusal, and then the table's numbers afterwards.
fn put_build(list: &RuleList, table: &mut [u16], out: &mut Out)
    ensures { PutFew (76 + 21 * length table.old) out.old (build_said (lent list.now) table.old) out.new }
{
    let count = build(list, table);
    put_counted(count, b" table", table, out);
}

// lookup D LIST TABLE HEADER: puts the first match, or none, the tests made, and whether the match is at an edge, or the
// refusal.
fn put_lookup(list: &RuleList, table: &[u16], header: [u32; 8], out: &mut Out)
    ensures { PutFew 70 out.old (lookup_said (lent list.now) table.now header) out.new }
{
    let looked = lookup(list, table, header);
    put_looked(looked, out);
}

// audit D LIST TABLE: puts yes or no, or the refusal.
fn put_audit(list: &RuleList, table: &[u16], out: &mut Out)
    ensures { PutFew 70 out.old (audit_said (lent list.now) table.now) out.new }
{
    let verdict = audit(list, table);
    put_verdict(verdict, out);
}

// report D LIST TABLE P: puts a partition's size and its smallest rule number, or the refusal.
fn put_report(list: &RuleList, table: &[u16], part: u32, out: &mut Out)
    ensures { PutFew 70 out.old (report_said (lent list.now) table.now part) out.new }
{
    let reported = report(list, table, part as usize);
    put_part(reported, out);
}

// Says how many numbers follow the table.
fn numbers_after(word: TableWord) -> usize
    ensures { result ≡ following word }
{
    match word {
        TableWord::Build | TableWord::Audit => 0,
        TableWord::Lookup => 8,
        TableWord::Report => 1,
    }
}

// Puts what a call answers, given its list, its table and the numbers that follow. (A `match`: each arm calls another function
// with other arguments, so closures in a table would be no plainer.)
fn put_with(word: TableWord, list: &RuleList, table: &mut [u16], rest: &[u32], out: &mut Out)
    requires { length rest.now ≡ following word }
    ensures { PutFew (76 + 21 * length table.old) out.old (table_said word (lent list.now) table.old rest.now) out.new }
{
    match word {
        TableWord::Build => put_build(list, table, out),
        TableWord::Lookup => put_lookup(list, table, header_of(rest), out),
        TableWord::Audit => put_audit(list, table, out),
        TableWord::Report => put_report(list, table, rest[0], out),
    }
}

// Puts the same where the list ends at place e and the table at place t; the table's numbers are as they stand in the line.
#[tactic(auto, using(crate::proofs::Longest::table_most_lem))]
fn put_tabled(word: TableWord, dates: u32, given: &[u32], e: usize, t: usize, out: &mut Out)
    requires { TableTo given.now (following word) e t }
    ensures { PutFew (answer_most - 1) out.old (tabled_from word dates given.now e t) out.new }
{
    let from = e + 1;
    let numbers = &given[from..t];
    let mut room = [0u16; TABLE_MOST];
    let table = &mut room[..numbers.len()];
    narrow(numbers, table);
    put_with(word, &list_in(dates, given, e), table, &given[t..], out);
}

// Puts what a call of a list and a table answers.
pub fn call_table(word: TableWord, dates: u32, given: &[u32], out: &mut Out)
    ensures { PutFew (answer_most - 1) out.old (tabled_said word dates given.now) out.new }
{
    let Some((e, t)) = table_ends(given, numbers_after(word)) else {
        return put_bad(out);
    };
    put_tabled(word, dates, given, e, t, out);
}
