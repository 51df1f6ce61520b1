// Words compared.
ghost use Rattle.std.specs.Prelude.{◌≡◌};
ghost use Rattle.ranges.specs.Numbers.{same_list};

// Says whether two runs hold the same bytes in the same order. (docs/PROMISES.md names it; its contract is in the definitions'
// own word, `same_list`, and a text of any length can be handed to it, where `==` wants one type on both sides.)
pub fn same(one: &[u8], other: &[u8]) -> bool
    ensures { result ≡ same_list one.now other.now }
{
    one == other
}
