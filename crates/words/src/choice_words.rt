// The calls of a list and a choice of partitions. `given` holds the line's numbers after the word: D LIST RUN, and for layout
// TABLE; `dates` are the flags of D.
ghost use Rattle.std.specs.Prelude.{◌+◌, ◌-◌, ◌*◌, length};
ghost use Rattle.lists.specs.Rules.{lent};
ghost use Rattle.phrases.specs.Few.{PutFew};
ghost use Rattle.words.specs.Limits.{list_most, choice_most, table_most, answer_most};
ghost use Rattle.words.specs.Parts.{RunTo, NarrowTo, Narrow};
ghost use Rattle.words.specs.Words.{chosen_said, choose_from, laid_said, layout_after, layout_from, choice_said};

use crate::limits::{CHOICE_MOST, LIST_MOST, TABLE_MOST};
use crate::part::{last_end, list_in, narrow, narrow_end, run_end};
use crate::table_words::put_counted;
use lists::shape::RuleList;
use phrases::say::put_bad;
use sorting::choose::choose;
use sorting::lay_out::lay_out;
use text::put::Out;

// The calls of a list and a choice of partitions.
#[derive(Clone, Copy)]
pub enum ChoiceWord {
    Choose,
    Layout,
}

// Puts how many partitions first fit opens, or the refusal, and then the run's numbers afterwards. The library writes the run, whose
// numbers before are as they stand in the line.
fn put_choice(list: &RuleList, numbers: &[u32], out: &mut Out)
    requires { Narrow choice_most numbers.now }
    ensures { PutFew (74 + 21 * length numbers.now) out.old (chosen_said (lent list.now) numbers.now) out.new }
{
    let mut room = [0u16; CHOICE_MOST];
    let run = &mut room[..numbers.len()];
    narrow(numbers, run);
    let count = choose(list, run);
    put_counted(count, b" run", run, out);
}

// choose D LIST RUN: puts the number of partitions, or the refusal, and then the run's numbers afterwards, where the list ends at place e.
#[tactic(auto, using(crate::proofs::Parts::last_told, crate::proofs::Longest::table_most_lem))]
fn choose_from(dates: u32, given: &[u32], e: usize, out: &mut Out)
    requires { RunTo list_most given.now 1 e }
    ensures { PutFew (answer_most - 1) out.old (choose_from dates given.now e) out.new }
{
    let Some(t) = last_end(CHOICE_MOST, given, e) else {
        return put_bad(out);
    };
    let from = e + 1;
    put_choice(&list_in(dates, given, e), &given[from..t], out);
}

// Puts how many partitions a choice has, or the refusal, and then the table's numbers afterwards. The library writes the table, whose
// numbers before are as they stand in the line.
#[tactic(auto, using(crate::proofs::Longest::table_most_lem))]
fn put_laid(list: &RuleList, run: &[u16], numbers: &[u32], out: &mut Out)
    requires { Narrow table_most numbers.now }
    ensures { PutFew (76 + 21 * length numbers.now) out.old (laid_said (lent list.now) run.now numbers.now) out.new }
{
    let mut room = [0u16; TABLE_MOST];
    let table = &mut room[..numbers.len()];
    narrow(numbers, table);
    let count = lay_out(list, run, table);
    put_counted(count, b" table", table, out);
}

// Puts the same with the run's numbers, too, as they stand in the line.
fn put_layout(list: &RuleList, chosen: &[u32], numbers: &[u32], out: &mut Out)
    requires { Narrow choice_most chosen.now × Narrow table_most numbers.now }
    ensures { PutFew (76 + 21 * length numbers.now) out.old (laid_said (lent list.now) chosen.now numbers.now) out.new }
{
    let mut room = [0u16; CHOICE_MOST];
    let run = &mut room[..chosen.len()];
    narrow(chosen, run);
    put_laid(list, run, numbers, out);
}

// Puts what layout answers where the list ends at place e and the run at place t.
#[tactic(auto, using(crate::proofs::Parts::last_told, crate::proofs::Parts::narrow_asked, crate::proofs::Longest::table_most_lem))]
fn layout_after(dates: u32, given: &[u32], e: usize, t: usize, out: &mut Out)
    requires { RunTo list_most given.now 1 e × NarrowTo choice_most given.now e t }
    ensures { PutFew (answer_most - 1) out.old (layout_after dates given.now e t) out.new }
{
    let Some(u) = last_end(TABLE_MOST, given, t) else {
        return put_bad(out);
    };
    let from = e + 1;
    let next = t + 1;
    put_layout(
        &list_in(dates, given, e),
        &given[from..t],
        &given[next..u],
        out,
    );
}

// layout D LIST RUN TABLE: puts the number of partitions, or the refusal, and then the table's numbers afterwards, where the list ends at
// place e.
fn layout_from(dates: u32, given: &[u32], e: usize, out: &mut Out)
    requires { RunTo list_most given.now 1 e }
    ensures { PutFew (answer_most - 1) out.old (layout_from dates given.now e) out.new }
{
    let Some(t) = narrow_end(CHOICE_MOST, given, e) else {
        return put_bad(out);
    };
    layout_after(dates, given, e, t, out);
}

// Puts what a call of a list and a choice of partitions answers. (A `match`: two
// arms, with the same arguments, which a closure would have to be handed from outside all the same.)
#[tactic(auto, using(crate::proofs::Parts::run_told), unfolding(crate::specs::Words::choose_said, crate::specs::Words::layout_said))]
pub fn call_choice(word: ChoiceWord, dates: u32, given: &[u32], out: &mut Out)
    ensures { PutFew (answer_most - 1) out.old (choice_said word dates given.now) out.new }
{
    let Some(e) = run_end(LIST_MOST, given, 1) else {
        return put_bad(out);
    };
    match word {
        ChoiceWord::Choose => choose_from(dates, given, e, out),
        ChoiceWord::Layout => layout_from(dates, given, e, out),
    }
}
