// How many partitions a run of partition numbers opens.
ghost use Rattle.std.specs.Prelude.{◌≡◌, ℕ, ◌<◌, length};
ghost use Rattle.lists.specs.Limits.{most_rules};
ghost use Rattle.sorting.specs.FirstFit.{parts, part_of};

// Counts how many partitions a run of partition numbers opens: one more than the largest, 0 where there is none.
pub(crate) fn parts_in(run: &[u16]) -> u16
    requires { (i : ℕ) → i < length run.now → part_of run.now i < most_rules }
    ensures { result ≡ parts run.now (length run.now) }
{
    let mut b: u16 = 0;
    for q in run {
        b = b.max(*q + 1);
    }
    b
}
