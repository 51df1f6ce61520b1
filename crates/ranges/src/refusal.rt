// Refusals: the rows of 01's table and of 02's requests, and what is refused by one.
ghost use Rattle.std.specs.Prelude.{◌≡◌};
ghost use Rattle.ranges.specs.Refusals.{number_of, refusing};

use crate::reason::Reason;

// Why a call is refused, each by its row's number. 13 and 14 are W1's.
#[derive(Clone, Copy, PartialEq, Eq)]
pub enum Cause {
    // 01, Refusal numbers: d is not 1 to 8.
    BadFields = 1,
    // The list's length is no multiple of 2d.
    BadLength = 2,
    // More than 1,024 rules.
    TooManyRules = 3,
    // Some low > high; of a date, some low ≥ high (02, W8).
    LowAboveHigh = 4,
    // The table's length is not exactly 4 + 3n + 2nd.
    BadTableLength = 5,
    // A broken table.
    BrokenTable = 6,
    // The partition number is b or more.
    NoSuchPartition = 7,
    // A CSV line is not as stated.
    BadLine = 8,
    // The width is not 1 to 32.
    BadWidth = 9,
    // The prefix is longer than the width, its value needs more bits, or a bit below it is set.
    BadPrefix = 10,
    // The range has low > high, or high needs more than width bits.
    BadRange = 11,
    // Fewer places lent than there are results.
    TooLittleRoom = 12,
    // 02, W4: the run of partition numbers is not n long.
    BadRunLength = 15,
    // Some partition number is not below n.
    BadPartitionNumber = 16,
    // A number below the largest one used has no rule.
    EmptyPartition = 17,
    // Two rules of one partition clash.
    ClashInPartition = 18,
}

impl Cause {
    // Gives the row's number.
    pub fn number(self) -> u32
        ensures { result ≡ number_of self }
    {
        self as u32
    }
}

// Of a cause its row's number is said.
impl Reason for Cause {
    ghost its_number = { number_of };

    fn its_number(self) -> u32 {
        self.number()
    }
}

// A refusal: its cause, one of the rows' or, where the type says so, another or any number, and its place of two numbers.
#[derive(Clone, Copy, PartialEq, Eq)]
pub struct Refusal<C = Cause> {
    pub cause: C,
    pub at: usize,
    pub then: usize,
}

// Makes the refusal for a cause or of any number, with place 0.
pub fn refuse<C>(cause: C) -> Refusal<C>
    ensures { result ≡ refusing cause 0 0 }
{
    Refusal {
        cause,
        at: 0,
        then: 0,
    }
}

// Makes the refusal of a number, which need be no row's, with place 0.
pub fn refuse_number(number: u32) -> Refusal<u32>
    ensures { result ≡ refusing number 0 0 }
{
    refuse(number)
}
