// The choice of partitions: first fit, by marks.
ghost use Rattle.std.specs.Prelude.{◌≡◌, ◌<◌};
ghost use Rattle.lists.specs.Limits.{most_rules};
ghost use Rattle.lists.specs.Rules.{lent};
ghost use Rattle.sorting.specs.FirstFit.{Chosen};
ghost use Rattle.sorting.specs.Asked.{TwoRules, Numbered};
ghost use Rattle.sorting.specs.Marks.{mark_of, stamped, unstamped, Marking};
ghost use Rattle.sorting.specs.Brought.{choose_fault, ChosenInto};

use crate::count_parts::parts_in;
use crate::run_fault::length_fault;
use lists::check::list_fault;
use lists::shape::{MOST_RULES, RuleList};
use ordering::compare::rules_clash;
use ranges::refusal::Refusal;

// Gives the stamp of rule j's partition, which was old, once rule i is held against rule j. Where the partition is
// taken already, the two rules are not compared.
fn mark_of(list: &RuleList, i: u16, j: u16, old: u16) -> u16
    requires { TwoRules (lent list.now) j i }
    ensures { result ≡ mark_of (lent list.now) i j old }
{
    if old == i + 1 {
        return old;
    }
    if rules_clash(list, j, i) {
        return i + 1;
    }
    old
}

// Stamps with i + 1 each partition in which rule i clashes with a member among the rules before it, whose partition
// numbers are run; the other stamps stay. Here and in `sort_out` the list is a copy of its own: where the loop reads it through the
// reference, a build takes up to 1.2 times as long.
fn mark(list: &RuleList, run: &[u16], i: u16, stamps: &mut [u16; MOST_RULES])
    requires { Marking (lent list.now) run.now i stamps.old }
    ensures { stamps.new ≡ stamped (lent list.now) run.now i stamps.old }
{
    let list = *list;
    for j in 0..i {
        let q = run[j as usize] as usize;
        stamps[q] = mark_of(&list, i, j, stamps[q]);
    }
}

// Gives the lowest of the partitions 0 to i that does not have rule i's stamp, and i + 1 where there is none. No `Option`: the i rules
// before leave one of the i + 1 partitions free, so none would be an arm that no call reaches.
fn first_free(i: u16, stamps: &[u16; MOST_RULES]) -> u16
    requires { i < most_rules }
    ensures { result ≡ unstamped i stamps.now }
{
    for q in 0..i + 1 {
        if stamps[q as usize] != i + 1 {
            return q;
        }
    }
    i + 1
}

// Writes the first-fit partition number of each rule into run and returns how many partitions that opens. The numbers are
// chosen in a run of its own: where the lent one is read in the loop, a build takes up to 1.06 times as long.
pub(crate) fn first_fit(list: &RuleList, run: &mut [u16]) -> u16
    requires { Numbered (lent list.now) run.old }
    ensures { Chosen (lent list.now) run.new result }
{
    let n = run.len() as u16;
    let mut stamps = [0u16; MOST_RULES];
    let mut chosen = [0u16; MOST_RULES];
    for i in 0..n {
        mark(list, &chosen[..i as usize], i, &mut stamps);
        chosen[i as usize] = first_free(i, &stamps);
    }
    run.copy_from_slice(&chosen[..n as usize]);
    parts_in(run)
}

// Refuses a list and a run by the first of 1, 2, 3, 4 and 15 that applies.
#[tactic(auto, unfolding(crate::specs::Brought::choose_fault))]
fn choose_fault(list: &RuleList, run: &[u16]) -> Result<(), Refusal>
    ensures { result ≡ choose_fault (lent list.now) run.now }
{
    list_fault(list)?;
    length_fault(list, run)
}

// Chooses partitions for a list: writes each rule's first-fit partition number into the run and gives b, how many
// partitions that opens; or gives the first of the refusals 1, 2, 3, 4 and 15 that applies, and leaves the run as lent.
pub fn choose(list: &RuleList, run: &mut [u16]) -> Result<usize, Refusal>
    ensures { ChosenInto (lent list.now) run.old run.new result }
{
    choose_fault(list, run)?;
    Ok(first_fit(list, run) as usize)
}
