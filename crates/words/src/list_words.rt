// The calls of lists. `given` holds the line's numbers after the word: D LIST, and what follows; `dates` are the flags of D.
// A function for each, and not one for all: they share their first lines alone, and differ in the call and in the text of its answer.
ghost use Rattle.phrases.specs.Few.{PutFew};
ghost use Rattle.words.specs.Words.{check_said, scan_said, independent_said};

use crate::part::{header_of, list_end, list_in};
use lists::check::check_list;
use lists::independence::independence;
use lists::scan::plain_scan;
use phrases::say::{put_bad, put_count, put_match, put_pair};
use text::put::Out;

// check D LIST: puts the number of rules, or the refusal.
#[tactic(auto, using(crate::proofs::Parts::list_told))]
pub fn call_check(dates: u32, given: &[u32], out: &mut Out)
    ensures { PutFew 70 out.old (check_said dates given.now) out.new }
{
    let Some(e) = list_end(given, 0) else {
        return put_bad(out);
    };
    let count = check_list(&list_in(dates, given, e));
    put_count(count, out);
}

// scan D LIST HEADER: puts the first match, or none, or the refusal.
#[tactic(auto, using(crate::proofs::Parts::list_told))]
pub fn call_scan(dates: u32, given: &[u32], out: &mut Out)
    ensures { PutFew 70 out.old (scan_said dates given.now) out.new }
{
    let Some(e) = list_end(given, 8) else {
        return put_bad(out);
    };
    let last = e + 8;
    let header = header_of(&given[e..last]);
    let found = plain_scan(&list_in(dates, given, e), header);
    put_match(found, out);
}

// independent D LIST: puts yes, or no and the least pair of rules that one header fits, or the refusal.
#[tactic(auto, using(crate::proofs::Parts::list_told))]
pub fn call_independent(dates: u32, given: &[u32], out: &mut Out)
    ensures { PutFew 70 out.old (independent_said dates given.now) out.new }
{
    let Some(e) = list_end(given, 0) else {
        return put_bad(out);
    };
    let pair = independence(&list_in(dates, given, e));
    put_pair(pair, out);
}
