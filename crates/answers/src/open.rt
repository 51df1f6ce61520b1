// What is printed once the rules have been read, before any header: their refusal, or the first line.
ghost use Rattle.answers.specs.Opened.{OpenedWith};

use crate::say::{put_head, put_refused};
use flaws::flaw::{Flaw, flaw_number};
use rulesfile::file::RulesSoFar;
use rulesfile::table::rules_table;
use text::put::Out;

// What the table's building came to, and the next place for output.
#[derive(Clone, Copy)]
pub struct Opened {
    pub built: Result<(), Flaw>,
    pub at: usize,
}

// Builds the table of the rules, and puts the line rule,tests, or refused,NUMBER where they have a flaw, at the front of
// the run.
pub fn open_rules(rules: RulesSoFar, list: &[u32], table: &mut [u16], out: &mut [u8]) -> Opened
    ensures { OpenedWith rules list.now table.old out.old result table.new out.new }
{
    let built = rules_table(rules, list, table);
    let mut line = Out { bytes: out, at: 0 };
    match built {
        Ok(()) => put_head(&mut line),
        Err(flaw) => put_refused(flaw_number(Some(flaw)), &mut line),
    }
    Opened { built, at: line.at }
}
