// The answer to a line that has been heard whole.
ghost use Rattle.std.specs.Prelude.{◌-◌, ◌≡◌};
ghost use Rattle.words.specs.Limits.{answer_most};
ghost use Rattle.phrases.specs.Few.{PutFew};
ghost use Rattle.hearing.specs.Lines.{heard};
ghost use Rattle.calls.specs.Answers.{word_said, word_left, flagged_said, flagged_left, is_call, answer_said, answer_left};
ghost use Rattle.calls.specs.Replies.{line_said};

use crate::word::{Word, flags_fit, word_of};
use hearing::flags::{Flags, dates_of, flags_end};
use hearing::line::Line;
use phrases::say::put_bad;
use text::put::Out;
use text::row::{Row, row_next};
use words::choice_words::call_choice;
use words::list_words::{call_check, call_independent, call_scan};
use words::prefix_words::{call_p2r, call_r2p, call_side};
use words::table_words::call_table;

// Puts what a call answers, given the flags of D and the line's numbers after its name. One call, r2p, writes among them.
// (A `match`: each arm calls another function with other arguments, so closures in a table would be no plainer.)
#[tactic(auto, using(phrases::proofs::Few::few_more))]
fn put_word(word: Word, dates: u32, given: &mut [u32], out: &mut Out)
    ensures put_few { PutFew (answer_most - 1) out.old (word_said word dates given.old) out.new }
    ensures given_after { given.new ≡ word_left word given.old }
{
    match word {
        Word::Check => call_check(dates, given, out),
        Word::Scan => call_scan(dates, given, out),
        Word::Independent => call_independent(dates, given, out),
        Word::Choice(call) => call_choice(call, dates, given, out),
        Word::Table(call) => call_table(call, dates, given, out),
        Word::Side => call_side(dates, given, out),
        Word::P2r => call_p2r(given, out),
        Word::R2p => call_r2p(given, out),
        Word::Unknown => put_bad(out),
    }
}

// Puts the same, unless the call may not have such flags.
#[tactic(auto, using(phrases::proofs::Few::few_more), unfolding(crate::specs::Answers::flagged_said, crate::specs::Answers::flagged_left))]
fn put_flagged(word: Word, flags: Flags, given: &mut [u32], out: &mut Out)
    ensures put_few { PutFew (answer_most - 1) out.old (flagged_said word flags given.old) out.new }
    ensures given_after { given.new ≡ flagged_left word flags given.old }
{
    if !flags_fit(word, flags) {
        return put_bad(out);
    }
    put_word(word, dates_of(flags), given, out);
}

// Says of a line whose word and last number have ended whether it is a call: every number stands, and there was room for all
// of them and for the word.
#[tactic(auto, unfolding(crate::specs::Answers::is_call))]
fn is_call(length: usize, name: &[u8], row: Row, numbers: &[u32]) -> bool
    ensures { result ≡ is_call length name.now row numbers.now }
{
    row.bad.is_none() && row.cells as usize <= numbers.len() && length <= name.len()
}

// Puts the answer to a line, without its LF. The line's end ends its last number, which goes to its place first, and the flags.
#[tactic(auto, using(phrases::proofs::Few::few_more), unfolding(crate::specs::Answers::is_call, crate::specs::Answers::answer_said, crate::specs::Answers::answer_left))]
fn put_answer(line: Line, name: &[u8], numbers: &mut [u32], out: &mut Out)
    ensures put_few { PutFew (answer_most - 1) out.old (answer_said (heard line name.now numbers.old)) out.new }
    ensures numbers_after { numbers.new ≡ answer_left (heard line name.now numbers.old) }
{
    if !line.named {
        return put_bad(out);
    }
    let row = row_next(line.row, 0, numbers);
    if !is_call(line.length, name, row, numbers) {
        return put_bad(out);
    }
    let count = row.cells as usize;
    let word = word_of(&name[..line.length]);
    let flags = flags_end(line.flags);
    put_flagged(word, flags, &mut numbers[..count], out);
}

// Puts the answer to a line, with its LF.
pub fn answer(line: Line, name: &[u8], numbers: &mut [u32], out: &mut Out)
    ensures put_few { PutFew answer_most out.old (line_said (heard line name.now numbers.old)) out.new }
    ensures numbers_after { numbers.new ≡ answer_left (heard line name.now numbers.old) }
{
    put_answer(line, name, numbers, out);
    out.byte(b'\n');
}
