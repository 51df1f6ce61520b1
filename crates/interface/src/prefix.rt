// Prefixes and ranges.
ghost use Rattle.std.specs.Prelude.{◌≡◌};
ghost use Rattle.ranges.specs.Refusals.{says_count};
ghost use Rattle.ranges.specs.Prefixes.{says_bounds, bounds_of};
ghost use Rattle.ranges.specs.Blocks.{expand_of, run_after};
ghost use Rattle.interface.specs.Answers.{Told};

use crate::answer::{put_bounds, put_count};
use ranges::expand::range_to_prefixes;
use ranges::prefix::prefix_to_range;

// Turns a prefix of a width into its range: answers low and high, both counted.
#[unsafe(no_mangle)]
pub extern "C" fn cuy_prefix_to_range(
    width: u32,
    value: u32,
    length: u32,
    answer: &mut [u64; 5],
) -> u32
    ensures { Told 2 (says_bounds (bounds_of width value length)) result answer.new }
{
    put_bounds(prefix_to_range(width, value, length), answer)
}

// Writes the prefixes of the range low to high as pairs of value and length at the front of the lent run, and answers
// how many. A refusal leaves the run as lent.
#[unsafe(no_mangle)]
pub extern "C" fn cuy_range_to_prefixes(
    width: u32,
    low: u32,
    high: u32,
    run: &mut [u32],
    answer: &mut [u64; 4],
) -> u32
    ensures told { Told 1 (says_count (expand_of width low high run.old)) result answer.new }
    ensures run_after { run.new ≡ run_after width low high run.old }
{
    put_count(range_to_prefixes(width, low, high, run), answer)
}
