// Lists: check, plain scan, order independence.
ghost use Rattle.std.specs.Prelude.{◌≡◌};
ghost use Rattle.ranges.specs.Refusals.{says_count};
ghost use Rattle.lists.specs.Rules.{lent};
ghost use Rattle.lists.specs.Check.{check_of};
ghost use Rattle.lists.specs.Scan.{says_match, scan_of};
ghost use Rattle.lists.specs.Independence.{says_pair, independence_of};
ghost use Rattle.interface.specs.Answers.{Told, rules_of};

use crate::answer::{put_count, put_match, put_pair};
use lists::check::check_list;
use lists::independence::independence;
use lists::scan::plain_scan;
use lists::shape::{RuleList, Shape};

// Makes the list of rules that a caller lends: d fields a rule, and the flags that say which of them are dates.
pub(crate) fn rules_of(d: usize, dates: u32, list: &[u32]) -> RuleList
    ensures { lent result ≡ rules_of d dates list.now }
{
    RuleList {
        shape: Shape { d, dates },
        numbers: list,
    }
}

// Checks a list: answers n, the number of its rules.
#[unsafe(no_mangle)]
pub extern "C" fn cuy_check(d: usize, dates: u32, list: &[u32], answer: &mut [u64; 4]) -> u32
    ensures { Told 1 (says_count (check_of (rules_of d dates list.now))) result answer.new }
{
    put_count(check_list(&rules_of(d, dates, list)), answer)
}

// Scans a list plainly: answers 1 and the first match, or 0 and 0 where no rule fits the header.
#[unsafe(no_mangle)]
pub extern "C" fn cuy_plain_scan(
    d: usize,
    dates: u32,
    list: &[u32],
    header: &[u32; 8],
    answer: &mut [u64; 5],
) -> u32
    ensures { Told 2 (says_match (scan_of (rules_of d dates list.now) header.now)) result answer.new }
{
    put_match(plain_scan(&rules_of(d, dates, list), *header), answer)
}

// Tests a list for order independence: answers 1, 0 and 0 where no header fits two different rules, else 0 and the
// least pair that some header fits.
#[unsafe(no_mangle)]
pub extern "C" fn cuy_independence(d: usize, dates: u32, list: &[u32], answer: &mut [u64; 6]) -> u32
    ensures { Told 3 (says_pair (independence_of (rules_of d dates list.now))) result answer.new }
{
    put_pair(independence(&rules_of(d, dates, list)), answer)
}
