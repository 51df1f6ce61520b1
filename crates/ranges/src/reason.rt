// Why a call is refused, as a number. For the rows' causes see `refusal`.
ghost use Rattle.std.specs.Prelude.{◌≡◌, ℕ};

// What refuses a call: one of the rows' causes, or a number, which need be no row's.
pub trait Reason {
    ghost its_number: { Self → ℕ };

    // Gives the number that is said of it.
    fn its_number(self) -> u32
        ensures { result ≡ its_number self };
}

// Of a number itself is said, whatever it is.
impl Reason for u32 {
    ghost its_number = { λ number. number };

    fn its_number(self) -> u32 {
        self
    }
}
