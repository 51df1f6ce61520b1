// Tables: choose, lay out, build, lookup, audit, report.
ghost use Rattle.std.specs.Prelude.{◌≡◌};
ghost use Rattle.ranges.specs.Refusals.{says_count};
ghost use Rattle.sorting.specs.Build.{build_of, table_after};
ghost use Rattle.sorting.specs.Brought.{choose_of, run_after, lay_out_of, laid_after};
ghost use Rattle.auditing.specs.Audit.{audit_of, says_verdict};
ghost use Rattle.tables.specs.Report.{report_of, says_part};
ghost use Rattle.lookup.specs.Lookup.{lookup_of};
ghost use Rattle.interface.specs.Answers.{Told, rules_of, says_in_place};

use crate::answer::{put_count, put_looked, put_part, put_verdict};
use crate::list::rules_of;
use auditing::audit::audit;
use lookup::lookup::lookup;
use sorting::build::build;
use sorting::choose::choose;
use sorting::lay_out::lay_out;
use tables::report::report;

// Chooses partitions for a list: writes each rule's first-fit partition number into the run and answers b, the number of
// partitions. A refusal leaves the run as lent.
#[unsafe(no_mangle)]
pub extern "C" fn cuy_choose(
    d: usize,
    dates: u32,
    list: &[u32],
    run: &mut [u16],
    answer: &mut [u64; 4],
) -> u32
    ensures told { Told 1 (says_count (choose_of (rules_of d dates list.now) run.old)) result answer.new }
    ensures run_after { run.new ≡ run_after (rules_of d dates list.now) run.old }
{
    put_count(choose(&rules_of(d, dates, list), run), answer)
}

// Lays a table out by a choice of partitions: writes every number of it and answers b, the number of partitions. A refusal
// leaves the table as lent.
#[unsafe(no_mangle)]
pub extern "C" fn cuy_lay_out(
    d: usize,
    dates: u32,
    list: &[u32],
    run: &[u16],
    table: &mut [u16],
    answer: &mut [u64; 4],
) -> u32
    ensures told { Told 1 (says_count (lay_out_of (rules_of d dates list.now) run.now table.old)) result answer.new }
    ensures table_after { table.new ≡ laid_after (rules_of d dates list.now) run.now table.old }
{
    put_count(lay_out(&rules_of(d, dates, list), run, table), answer)
}

// Builds the table of a list, which is the two in turn: writes every number of it and answers b, the number of partitions. A refusal leaves the
// table as lent.
#[unsafe(no_mangle)]
pub extern "C" fn cuy_build(
    d: usize,
    dates: u32,
    list: &[u32],
    table: &mut [u16],
    answer: &mut [u64; 4],
) -> u32
    ensures told { Told 1 (says_count (build_of (rules_of d dates list.now) table.old)) result answer.new }
    ensures table_after { table.new ≡ table_after (rules_of d dates list.now) table.old }
{
    put_count(build(&rules_of(d, dates, list), table), answer)
}

// Looks a header up in a table: answers 1 and the first match, or 0 and 0 where no rule fits, the number of tests, and 1
// where a field of the match is at an end of its range, else 0.
#[unsafe(no_mangle)]
pub extern "C" fn cuy_lookup(
    d: usize,
    dates: u32,
    list: &[u32],
    table: &[u16],
    header: &[u32; 8],
    answer: &mut [u64; 7],
) -> u32
    ensures { Told 4 (says_in_place (lookup_of (rules_of d dates list.now) table.now header.now)) result answer.new }
{
    put_looked(lookup(&rules_of(d, dates, list), table, *header), answer)
}

// Audits a table: answers 1 where some run of partition numbers makes cuy_lay_out write this table for this list, else 0.
#[unsafe(no_mangle)]
pub extern "C" fn cuy_audit(
    d: usize,
    dates: u32,
    list: &[u32],
    table: &[u16],
    answer: &mut [u64; 4],
) -> u32
    ensures { Told 1 (says_verdict (audit_of (rules_of d dates list.now) table.now)) result answer.new }
{
    put_verdict(audit(&rules_of(d, dates, list), table), answer)
}

// Reports on a partition of a table: answers its size and its smallest rule number, as the table stores it.
#[unsafe(no_mangle)]
pub extern "C" fn cuy_report(
    d: usize,
    dates: u32,
    list: &[u32],
    table: &[u16],
    partition: usize,
    answer: &mut [u64; 5],
) -> u32
    ensures { Told 2 (says_part (report_of (rules_of d dates list.now) table.now partition)) result answer.new }
{
    put_part(report(&rules_of(d, dates, list), table, partition), answer)
}
