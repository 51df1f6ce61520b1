// The refusals of a run of partition numbers that someone brings: 15, 16, 17 and 18.
ghost use Rattle.std.specs.Prelude.{◌≡◌, false, ◌≤◌, ◌<◌, length, get_or};
ghost use Rattle.ranges.specs.Numbers.{all};
ghost use Rattle.ranges.specs.Refusals.{none};
ghost use Rattle.lists.specs.Limits.{most_rules};
ghost use Rattle.lists.specs.Rules.{lent, rules_in};
ghost use Rattle.lists.specs.Faults.{list_fault};
ghost use Rattle.sorting.specs.FirstFit.{part_of, free};
ghost use Rattle.sorting.specs.Asked.{TwoRules, Numbered, Seen, Fitting};
ghost use Rattle.sorting.specs.Brought.{length_fault, numbers_fit, no_gap, is_apart, no_clash, run_fault};

use crate::count_parts::parts_in;
use lists::shape::{MOST_RULES, RuleList, rules_in};
use ordering::compare::rules_clash;
use ranges::refusal::{Cause, Refusal, refuse};

// Refuses a run by 15 where it does not have one number for each rule of the list.
#[tactic(auto, unfolding(crate::specs::Brought::length_fault))]
pub(crate) fn length_fault(list: &RuleList, run: &[u16]) -> Result<(), Refusal>
    ensures { result ≡ length_fault (lent list.now) run.now }
{
    if run.len() != rules_in(list) {
        return Err(refuse(Cause::BadRunLength));
    }
    Ok(())
}

// Says whether each number of a run is below its length.
fn numbers_fit(run: &[u16]) -> bool
    requires { length run.now ≤ most_rules }
    ensures { result ≡ numbers_fit (length run.now) run.now }
{
    let n = run.len() as u16;
    run.iter().all(|q| *q < n)
}

// Marks the numbers that a run has.
fn mark_used(run: &[u16], marks: &mut [bool; MOST_RULES])
    requires { Fitting run.now × Seen (part_of run.now) 0 marks.old }
    ensures { Seen (part_of run.now) (length run.now) marks.new }
{
    for q in run {
        marks[*q as usize] = true;
    }
}

// Says whether each of the numbers below b has a mark.
fn all_marked(marks: &[bool; MOST_RULES], b: u16) -> bool
    requires { b ≤ most_rules }
    ensures { result ≡ all b (λ q. get_or marks.now q false) }
{
    marks[..b as usize].iter().all(|m| *m)
}

// Says whether a run has each number below its largest.
fn no_gap(run: &[u16]) -> bool
    requires { Fitting run.now }
    ensures { result ≡ no_gap (length run.now) run.now }
{
    let b = parts_in(run);
    let mut marks = [false; MOST_RULES];
    mark_used(run, &mut marks);
    all_marked(&marks, b)
}

// Says whether rules j and i share no partition or do not clash.
fn is_apart(list: &RuleList, run: &[u16], i: u16, j: u16) -> bool
    requires { Numbered (lent list.now) run.now × TwoRules (lent list.now) j i }
    ensures { result ≡ is_apart (lent list.now) run.now i j }
{
    if run[j as usize] != run[i as usize] {
        return true;
    }
    !rules_clash(list, j, i)
}

// Says whether rule i clashes with no earlier rule of its partition.
fn fits_in(list: &RuleList, run: &[u16], i: u16) -> bool
    requires { Numbered (lent list.now) run.now × (i < rules_in (lent list.now)) }
    ensures { result ≡ free (lent list.now) run.now i (part_of run.now i) }
{
    for j in 0..i {
        if !is_apart(list, run, i, j) {
            return false;
        }
    }
    true
}

// Says whether no rule clashes with an earlier one of its partition.
fn no_clash(list: &RuleList, run: &[u16]) -> bool
    requires { Numbered (lent list.now) run.now }
    ensures { result ≡ no_clash (lent list.now) run.now }
{
    let n = run.len() as u16;
    for i in 0..n {
        if !fits_in(list, run, i) {
            return false;
        }
    }
    true
}

// Refuses a run by the first of 15, 16, 17 and 18 that applies, for a list that meets none of 1 to 4.
#[tactic(auto, unfolding(crate::specs::Brought::run_fault))]
pub(crate) fn run_fault(list: &RuleList, run: &[u16]) -> Result<(), Refusal>
    requires { list_fault (lent list.now) ≡ none }
    ensures { result ≡ run_fault (lent list.now) run.now }
{
    length_fault(list, run)?;
    if !numbers_fit(run) {
        return Err(refuse(Cause::BadPartitionNumber));
    }
    if !no_gap(run) {
        return Err(refuse(Cause::EmptyPartition));
    }
    if !no_clash(list, run) {
        return Err(refuse(Cause::ClashInPartition));
    }
    Ok(())
}
