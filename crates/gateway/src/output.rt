// Answers out.
ghost use Rattle.programs.specs.Output.{ShortTold};

use programs::output;
use programs::streams::Streams;

// Writes the first bytes of a run to standard output, as many as stand before a place, and answers whether that went
// well; where it did not, says so on standard error.
pub(crate) fn write_out(streams: Streams, out: &[u8], at: usize) -> bool
    ensures { ShortTold out.now at result }
{
    output::write_out(streams, b"gateway: write", out, at)
}
