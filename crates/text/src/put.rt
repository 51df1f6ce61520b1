// Bytes put at a place of a lent run. What does not fit is left out, so that no place is ever past the run's end that was
// not so before: a caller who needs every byte makes room first.
ghost use Rattle.std.specs.Prelude.{[], ◌∷◌};
ghost use Rattle.text.specs.Decimals.{decimal_of};
ghost use Rattle.text.specs.Puts.{Put, Puts};

// A lent run of bytes, and the place in it where the next one goes.
#[derive(Drop)]
pub struct Out<'a> {
    pub bytes: &'a mut [u8],
    pub at: usize,
}

// Puts one byte at a place, where there is one, and answers the next place.
fn put_byte(byte: u8, out: &mut [u8], at: usize) -> usize
    ensures { Put out.old at (byte ∷ []) out.new result }
{
    if at < out.len() {
        out[at] = byte;
        return at + 1;
    }
    at
}

impl Out<'_> {
    // Puts one byte, where there is a place.
    pub fn byte(&mut self, byte: u8)
        ensures { Puts self.old (byte ∷ []) self.new }
    {
        self.at = put_byte(byte, self.bytes, self.at);
    }

    // Puts bytes, as far as there are places.
    pub fn text(&mut self, text: &[u8])
        ensures { Puts self.old text.now self.new }
    {
        let mut at = self.at;
        for i in 0..text.len() {
            at = put_byte(text[i], self.bytes, at);
        }
        self.at = at;
    }

    // Puts a number's decimal digits, as far as there are places.
    #[tactic(auto, using(crate::proofs::Decimals::decimal_one))]
    pub fn number(&mut self, n: u64)
        ensures { Puts self.old (decimal_of n) self.new }
    {
        if n < 10 {
            self.byte(b'0' + n as u8);
        } else {
            self.number(n / 10);
            self.byte(b'0' + (n % 10) as u8);
        }
    }
}
