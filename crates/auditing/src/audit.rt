// The audit: whether a table is one that some choice of partitions makes.
ghost use Rattle.std.specs.Prelude.{◌≡◌};
ghost use Rattle.lists.specs.Rules.{lent};
ghost use Rattle.auditing.specs.Audit.{audit_of};

use crate::checks::is_laid;
use lists::shape::RuleList;
use ranges::refusal::Refusal;
use sorting::build::build_fault;

// Audits a table: says yes exactly when some run of partition numbers makes `lay_out` write this table for this list, else
// no; or gives the first of the refusals 1, 2, 3, 4 and 5 that applies.
pub fn audit(list: &RuleList, table: &[u16]) -> Result<bool, Refusal>
    ensures { result ≡ audit_of (lent list.now) table.now }
{
    build_fault(list, table)?;
    Ok(is_laid(list, table))
}
