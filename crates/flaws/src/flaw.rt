// What can be wrong with a rules file, and where.
ghost use Rattle.std.specs.Prelude.{◌≡◌};
ghost use Rattle.flaws.specs.Numbered.{number_of_flaw};

use ranges::refusal::Cause;

// The first flaw of a rules file. Lines and cells count from 1, cells as the reader counts them; rules and fields from
// 0, as 01 has them.
#[derive(Clone, Copy)]
pub enum Flaw {
    // The file has no line.
    NoLine,
    // A cell is no plain number from 0 to 4294967295.
    NotNumber {
        line: u32,
        cell: u32,
    },
    // The same, on a line in which an LF stands that no CR precedes.
    LoneFeed,
    // A line hasn't as many cells as the first.
    OtherWidth {
        line: u32,
        cells: u32,
        width: u32,
    },
    // The first line has an odd number of cells.
    OddWidth {
        cells: u32,
    },
    // The first line has more cells than eight fields have.
    TooWide {
        cells: u32,
    },
    // There is a line 1,025.
    TooManyRules,
    // A rule's low is above its high.
    LowAboveHigh {
        rule: u16,
        field: u16,
        low: u32,
        high: u32,
    },
}

// Gives the number that 01 refuses a flaw by; 0 where there is none.
pub fn flaw_number(flaw: Option<Flaw>) -> u32
    ensures { result ≡ number_of_flaw flaw }
{
    let Some(flaw) = flaw else {
        return 0;
    };
    let cause = match flaw {
        Flaw::NoLine | Flaw::TooWide { .. } => Cause::BadFields,
        Flaw::NotNumber { .. } | Flaw::LoneFeed | Flaw::OtherWidth { .. } | Flaw::OddWidth { .. } =>
            Cause::BadLine,
        Flaw::TooManyRules => Cause::TooManyRules,
        Flaw::LowAboveHigh { .. } => Cause::LowAboveHigh,
    };
    cause.number()
}
