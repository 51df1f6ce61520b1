// A prefix as a range: shifts and masks.
ghost use Rattle.std.specs.Prelude.{◌≡◌, ◌-◌, ◌^◌, ◌≤◌};
ghost use Rattle.ranges.specs.Prefixes.{bounds_of};

use crate::refusal::{Cause, Refusal, refuse};

// The low and the high end of a prefix, both counted.
#[derive(Clone, Copy, PartialEq, Eq)]
pub struct Bounds {
    pub low: u32,
    pub high: u32,
}

// Gives the number whose k lowest bits are set, for k of 0 to 32.
// A shift by 32 has no meaning, so k = 32, the prefix of length 0 at width 32, is a case of its own.
pub(crate) fn low_ones(k: u32) -> u32
    requires { k ≤ 32 }
    ensures { result ≡ 2 ^ k - 1 }
{
    if k == 32 {
        return 4294967295;
    }
    (1u32 << k) - 1
}

// Turns a prefix of a width into its low and high end; refuses with 9 a width that is not 1 to 32, then with 10 a
// length above the width, a value that needs more bits, or a bit set below the prefix.
pub fn prefix_to_range(width: u32, value: u32, length: u32) -> Result<Bounds, Refusal>
    ensures { result ≡ bounds_of width value length }
{
    if width < 1 {
        return Err(refuse(Cause::BadWidth));
    }
    if 32 < width {
        return Err(refuse(Cause::BadWidth));
    }
    if width < length {
        return Err(refuse(Cause::BadPrefix));
    }
    if low_ones(width) < value {
        return Err(refuse(Cause::BadPrefix));
    }
    let below = low_ones(width - length);
    if value & below != 0 {
        return Err(refuse(Cause::BadPrefix));
    }
    Ok(Bounds {
        low: value,
        high: value | below,
    })
}
