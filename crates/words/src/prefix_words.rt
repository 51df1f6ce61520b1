// The calls of ranges and prefixes. `given` holds the line's numbers after the word.
ghost use Rattle.std.specs.Prelude.{◌+◌, ◌-◌, ◌*◌, ◌≡◌, length};
ghost use Rattle.ranges.specs.Blocks.{run_after};
ghost use Rattle.words.specs.Limits.{answer_most};
ghost use Rattle.phrases.specs.Few.{PutFew};
ghost use Rattle.words.specs.Words.{side_said, p2r_said, expanded_said, r2p_said, r2p_left};

use crate::limits::RUN_MOST;
use crate::part::shape_in;
use lists::range::field_range;
use phrases::say::{put_all, put_bad, put_bounds, put_count, put_spot};
use ranges::expand::range_to_prefixes;
use ranges::prefix::prefix_to_range;
use ranges::spot::spot_of;
use text::put::Out;

// side D FIELD LOW HIGH NUMBER: puts where the number lies as against the ends of the range that a rule with this low and
// high has in the field, which is one of dates where D's flag says so, whatever D is.
#[tactic(auto, unfolding(crate::specs::Words::side_said))]
pub fn call_side(dates: u32, given: &[u32], out: &mut Out)
    ensures { PutFew 70 out.old (side_said dates given.now) out.new }
{
    if given.len() != 5 {
        return put_bad(out);
    }
    let range = field_range(shape_in(dates, given), given[1], given[2], given[3]);
    let spot = spot_of(range, given[4]);
    put_spot(spot, out);
}

// p2r VALUE LENGTH WIDTH: puts the prefix's low and high end, or the refusal.
#[tactic(auto, unfolding(crate::specs::Words::p2r_said))]
pub fn call_p2r(given: &[u32], out: &mut Out)
    ensures { PutFew 70 out.old (p2r_said given.now) out.new }
{
    if given.len() != 3 {
        return put_bad(out);
    }
    let bounds = prefix_to_range(given[2], given[0], given[1]);
    put_bounds(bounds, out);
}

// Puts how many prefixes a range has, or the refusal, and then the run's numbers afterwards; the library writes the run.
fn put_expanded(width: u32, low: u32, high: u32, run: &mut [u32], out: &mut Out)
    ensures put_few { PutFew (74 + 21 * length run.old) out.old (expanded_said width low high run.old) out.new }
    ensures run_after { run.new ≡ run_after width low high run.old }
{
    let count = range_to_prefixes(width, low, high, run);
    put_count(count, out);
    out.text(b" run");
    put_all(run, out);
}

// r2p LOW HIGH WIDTH RUN: puts how many prefixes the range has, or the refusal, and the run afterwards. The run is
// written where it stands in the line's numbers; where the answer is bad, they stay.
pub fn call_r2p(given: &mut [u32], out: &mut Out)
    ensures put_few { PutFew (answer_most - 1) out.old (r2p_said given.old) out.new }
    ensures given_after { given.new ≡ r2p_left given.old }
{
    if given.len() < 4 {
        return put_bad(out);
    }
    let k = given[3] as usize;
    if RUN_MOST < k {
        return put_bad(out);
    }
    if given.len() != 4 + k {
        return put_bad(out);
    }
    let width = given[2];
    let low = given[0];
    let high = given[1];
    put_expanded(width, low, high, &mut given[4..], out);
}
