// A range as prefixes: from the low end, always the largest aligned block that stays in the range.
ghost use Rattle.std.specs.Prelude.{◌≡◌, ◌*◌, ◌^◌, ◌≤◌, length};
ghost use Rattle.ranges.specs.Blocks.{Ranged, block_of, prefixes_of, range_fault, expand_of, written, run_after};

use crate::prefix::low_ones;
use crate::refusal::{Cause, Refusal, refuse};

// Gives the exponent t of the largest aligned block of 2^t numbers that starts at low and stays in low to high: the
// smaller of two counts. Low is aligned to as many bits as it has trailing zeros, 0 to all 64; the largest power of two
// within the numbers that are left is 63 less the leading zeros of how many they are. There may be 2^32 of them, so
// both are counted in 64 bits.
fn largest_block(width: u32, low: u64, high: u64) -> u32
    requires { Ranged width low high }
    ensures { result ≡ block_of width low high }
{
    let aligned = u64::trailing_zeros(low);
    let within = 63 - u64::leading_zeros(high - low + 1);
    if within < aligned {
        return within;
    }
    aligned
}

// Gives how many numbers a block of exponent t has, for t of 0 to 32.
fn block_size(t: u32) -> u64
    requires { t ≤ 32 }
    ensures { result ≡ 2 ^ t }
{
    1u64 << t
}

// Counts the prefixes of the range low to high.
fn count_prefixes(width: u32, low: u64, high: u64) -> usize
    requires { Ranged width low high }
    ensures { result ≡ length (prefixes_of width low high) }
{
    let mut next = low;
    let mut count: usize = 0;
    while next <= high {
        let t = largest_block(width, next, high);
        next += block_size(t);
        count += 1;
    }
    count
}

// Writes the prefixes of the range low to high as pairs at the front of a run with room for them; what lies past
// the last pair stays.
fn write_prefixes(width: u32, low: u64, high: u64, out: &mut [u32])
    requires ranged { Ranged width low high }
    requires room { length (prefixes_of width low high) * 2 ≤ length out.old }
    ensures { out.new ≡ written (prefixes_of width low high) out.old }
{
    let mut at = low;
    let mut k: usize = 0;
    while at <= high {
        let t = largest_block(width, at, high);
        out[k] = at as u32;
        out[k + 1] = width - t;
        at += block_size(t);
        k += 2;
    }
}

// Refuses a range by the first of 9 and 11 that applies.
fn range_fault(width: u32, low: u32, high: u32) -> Result<(), Refusal>
    ensures { result ≡ range_fault width low high }
{
    if width < 1 {
        return Err(refuse(Cause::BadWidth));
    }
    if 32 < width {
        return Err(refuse(Cause::BadWidth));
    }
    if high < low {
        return Err(refuse(Cause::BadRange));
    }
    if low_ones(width) < high {
        return Err(refuse(Cause::BadRange));
    }
    Ok(())
}

// Writes the prefixes of the range low to high as pairs of value and length at the front of the lent run, and
// answers how many. Refuses, in this order and leaving the run as lent: with 9 a width that is not 1 to 32; with 11
// a range with low > high, or whose high needs more bits; with 12, at how many are needed, a run with too few
// places, two numbers each.
pub fn range_to_prefixes(width: u32, low: u32, high: u32, out: &mut [u32]) -> Result<usize, Refusal>
    ensures value { result ≡ expand_of width low high out.old }
    ensures out_after { out.new ≡ run_after width low high out.old }
{
    range_fault(width, low, high)?;
    let needed = count_prefixes(width, low as u64, high as u64);
    if out.len() / 2 < needed {
        return Err(Refusal {
            cause: Cause::TooLittleRoom,
            at: needed,
            then: 0,
        });
    }
    write_prefixes(width, low as u64, high as u64, out);
    Ok(needed)
}
