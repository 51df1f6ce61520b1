// The flags of D, as far as their bytes have come: D:FFFFFFFF, eight characters 0 or 1, the first for field 0.
ghost use Rattle.std.specs.Prelude.{◌≡◌, ◌≤◌};
ghost use Rattle.hearing.specs.Flags.{next_flag, flag_with, flags_with, has_colon, flags_ended, dates_of};

// How many flags there are.
const FLAGS: u32 = 8;

// What has come of the flags.
#[derive(Clone, Copy)]
pub enum Flags {
    // No colon: there are none.
    Without,
    // A colon, and so many flags; those that are set, as a number.
    Read { count: u32, dates: u32 },
    // More than there are, or a byte that is neither 0 nor 1.
    Bad,
}

// Gives the flags as a number with one more, 1 where it is set, else 0. It moves those before it down by a bit and comes to stand
// in the eighth: so of eight the first stands lowest.
fn next_flag(dates: u32, flag: u32) -> u32
    requires { flag ≤ 1 }
    ensures { result ≡ next_flag dates flag }
{
    dates / 2 + flag * 128
}

// Gives the flags with one byte more, which has to be 0 or 1, where there are not eight yet.
#[tactic(auto, unfolding(crate::specs::Flags::flag_with))]
fn flag_byte(count: u32, dates: u32, byte: u8) -> Flags
    ensures { result ≡ flag_with count dates byte }
{
    match byte {
        b'0' | b'1' if count < FLAGS => Flags::Read {
            count: count + 1,
            dates: next_flag(dates, (byte - b'0') as u32),
        },
        _ => Flags::Bad,
    }
}

// Gives the flags with one byte more; where no colon has come, nothing changes.
pub(crate) fn flags_byte(flags: Flags, byte: u8) -> Flags
    ensures { result ≡ flags_with flags byte }
{
    match flags {
        Flags::Read { count, dates } => flag_byte(count, dates, byte),
        Flags::Without | Flags::Bad => flags,
    }
}

// Says whether a colon has come.
pub(crate) fn has_colon(flags: Flags) -> bool
    ensures { result ≡ has_colon flags }
{
    !matches!(flags, Flags::Without)
}

// Ends the flags: fewer than eight are bad.
#[tactic(auto, unfolding(crate::specs::Flags::all_read))]
pub fn flags_end(flags: Flags) -> Flags
    ensures { result ≡ flags_ended flags }
{
    match flags {
        Flags::Read { count, .. } if count != FLAGS => Flags::Bad,
        _ => flags,
    }
}

// Gives the flags that are set, as a number, bit f for field f; 0 where there are none.
pub fn dates_of(flags: Flags) -> u32
    ensures { result ≡ dates_of flags }
{
    match flags {
        Flags::Read { dates, .. } => dates,
        Flags::Without | Flags::Bad => 0,
    }
}
