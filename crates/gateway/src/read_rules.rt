// The rules file, read piece by piece to its end or to its first flaw: read, hand on.
ghost use Rattle.gateway.specs.Serving.{RulesEnded, RulesReadFrom};

use crate::input::{NoBytes, Source, open_input, read_some};
use programs::streams::Streams;
use rulesfile::file::{RulesFile, RulesSoFar, rules_end, rules_piece, rules_start};
use std::fs::{File, Files};

// The rules of a file, and whether what is wrong with it has been said: one that can't be opened or is a folder counts as
// empty.
#[derive(Clone, Copy)]
pub struct RulesRead {
    pub rules: RulesSoFar,
    pub told: bool,
}

// Ends the file, after a read that brought no bytes; none where it can't be read further.
fn end_rules(why: NoBytes, file: RulesFile, list: &mut [u32]) -> Option<RulesRead>
    ensures { RulesEnded why file list.old result list.new }
{
    let told = match why {
        NoBytes::End => false,
        NoBytes::Folder => true,
        NoBytes::Failed => return None,
    };
    let rules = rules_end(file, list);
    Some(RulesRead { rules, told })
}

// Reads the rules file to its end, or to its first flaw; none where it can't be read further, and that has been said. A
// proved loop has to end, and nothing says that a file does: so it has turns, as many as no run uses up.
fn rules_all(
    streams: Streams,
    source: &mut Source,
    path: &[u8],
    bytes: &mut [u8],
    list: &mut [u32],
) -> Option<RulesRead>
    ensures { RulesReadFrom list.old result list.new }
{
    let start = rules_start();
    let mut file = start;
    for _ in 0..u64::MAX {
        let n = match read_some(streams, source, path, bytes) {
            Ok(n) => n,
            Err(why) => return end_rules(why, file, list),
        };
        file = rules_piece(file, &bytes[..n], list);
        if file.rules.flaw.is_some() {
            let rules = rules_end(file, list);
            return Some(RulesRead { rules, told: false });
        }
    }
    None
}

// Reads the rules; a file that can't be opened counts as empty.
pub(crate) fn read_rules(
    files: &impl Files<File = File>,
    streams: Streams,
    path: &[u8],
    bytes: &mut [u8],
    list: &mut [u32],
) -> Option<RulesRead>
    ensures { RulesReadFrom list.old result list.new }
{
    let Some(mut source) = open_input(files, streams, path) else {
        let rules = rules_end(rules_start(), list);
        return Some(RulesRead { rules, told: true });
    };
    rules_all(streams, &mut source, path, bytes, list)
}
