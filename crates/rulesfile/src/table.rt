// What becomes of the rules once their file has ended: their list's table, or a flaw.
ghost use Rattle.std.specs.Prelude.{◌≡◌, ◌/◌, ◌<◌, min, get_or};
ghost use Rattle.std.specs.Result.{result_err};
ghost use Rattle.lists.specs.Rules.{lent, shape_of};
ghost use Rattle.sorting.specs.Build.{build_of, table_after};
ghost use Rattle.rulesfile.specs.Flaws.{flaw_at, refused_flaw};
ghost use Rattle.rulesfile.specs.Tabled.{length_read, room_read, Tabled};

use crate::file::RulesSoFar;
use flaws::flaw::Flaw;
use lists::shape::{RuleList, Shape, offset_of, shape_of};
use ranges::refusal::Refusal;
use sorting::build::build;
use tables::layout::table_length;

// Gives the shape of the list: half as many fields as a line has cells.
pub fn rules_shape(rules: RulesSoFar) -> Shape
    ensures { result ≡ shape_of (rules.width / 2) }
{
    shape_of(rules.width as usize / 2)
}

// Says how many numbers of the list the lines have brought, no more than it has.
pub fn rules_length(rules: RulesSoFar, list: &[u32]) -> usize
    ensures { result ≡ length_read rules list.now }
{
    (rules.lines as usize * rules.width as usize).min(list.len())
}

// Says how many numbers of a run the rules' table takes, no more than it has.
pub fn rules_room(rules: RulesSoFar, table: &[u16]) -> usize
    ensures { result ≡ room_read rules table.now }
{
    table_length(rules.lines, rules.width / 2).min(table.len())
}

// Gives the number at a place of a list, and 0 past its end.
fn number_at(list: &[u32], at: usize) -> u32
    ensures { result ≡ get_or list.now at 0 }
{
    list.get(at).copied().unwrap_or(0)
}

// Gives the flaw of a rule whose low is above its high, in a field.
#[tactic(auto, unfolding(lists::specs::Rules::low_of, lists::specs::Rules::high_of, lists::specs::Rules::offset_of))]
fn void_flaw(list: &RuleList, x: Refusal) -> Flaw
    requires d_bound { list.now.shape.d < 65536 }
    requires place_fits { (x.at < 65536) × (x.then < 65536) }
    ensures { result ≡ flaw_at (lent list.now) x }
{
    let rule = x.at as u16;
    let field = x.then as u16;
    let at = offset_of(list.shape.d as u16, rule, field);
    Flaw::LowAboveHigh {
        rule,
        field,
        low: number_at(list.numbers, at),
        high: number_at(list.numbers, at + 1),
    }
}

// Builds the table of a list, or finds its flaw: low > high, the only one that a list of lines without flaw can have,
// where there is room for its table. Any other refusal is given as that flaw too.
fn build_list(list: &RuleList, table: &mut [u16]) -> Result<(), Flaw>
    requires { list.now.shape.d < 65536 }
    ensures { (result_err result ≡ refused_flaw (lent list.now) (build_of (lent list.now) table.old))
        × (table.new ≡ table_after (lent list.now) table.old) }
{
    match build(list, table) {
        Ok(_) => Ok(()),
        Err(x) => Err(void_flaw(list, x)),
    }
}

// Builds the table of the rules once their file has ended, at the front of a run; or finds the first flaw of their lines;
// or that there is no line; or low > high, where the build refuses the list. Where there is a flaw the run stays as lent.
#[tactic(auto, unfolding(crate::specs::Tabled::tabled_flaw, crate::specs::Tabled::tabled_after))]
pub fn rules_table(rules: RulesSoFar, list: &[u32], table: &mut [u16]) -> Result<(), Flaw>
    ensures { Tabled rules list.now table.old result table.new }
{
    if let Some(flaw) = rules.flaw {
        return Err(flaw);
    }
    if rules.lines == 0 {
        return Err(Flaw::NoLine);
    }
    let k = rules_length(rules, list);
    let t = rules_room(rules, table);
    let list = RuleList {
        shape: rules_shape(rules),
        numbers: &list[..k],
    };
    build_list(&list, &mut table[..t])
}
