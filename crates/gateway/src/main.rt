// Layer 5: the gateway's program, 01's section 'The program'. Reads a list of rules and headers from two files of CSV
// lines, looks each header up and prints the number of the first rule that fits it and how many range tests that took.
//
//     gateway                     reads rules.csv and headers.csv of the current folder
//     gateway RULES HEADERS       reads the files named; - names standard input, once
//     gateway --help              says this
//     gateway --status ..         any of these, and tells its exit status (the crate `programs`)
//
// Standard output has what 01 fixes. What is wrong with a file, and where, is one line on standard error. The status is 0
// where the rules stand and every header line was answered, 1 where the rules are refused or a file can't be read or the
// answers can't be written, 2 for wrong use.
//
// A file is read in pieces, cut anywhere, through a state held by value: nothing of a file is kept but the list, of at
// most `MOST_NUMBERS`, and that state. The rules are read by the crate `rulesfile`; their table is built once, and their
// refusal or the first line is put by the crate `answers`; then each header line is one lookup (`headers`).
//
// What is proved. Each function on slices, of those crates and of `headers`, meets its contract; `proofs/Theorems.antt`
// puts them together: however the two files are cut into pieces, what is put is `program_of` of their bytes, and what is
// said of them is their first flaw. What opens, reads and writes (`input`, `output`, `read_rules`, `answer_headers`,
// `serve` and this one) reads, hands on and writes: docs/PROMISES.md says of it, sentence by sentence, what is proved and
// what is tested.
#![tactic(auto)]

mod answer_headers;
mod headers;
mod input;
mod output;
mod read_rules;
mod serve;

ghost use Rattle.std.specs.Prelude.{◌≡◌};
ghost use Rattle.ranges.specs.Numbers.{◌and◌};
ghost use Rattle.gateway.specs.Serving.{is_stdin};

use input::is_stdin;
use lists::shape::MOST_NUMBERS;
use programs::output::{say_bytes, say_error, write_text};
use programs::start::{Start, is_own, own_word, started};
use programs::status::{Ended, end_program, ended_by};
use programs::streams::Streams;
use serve::serve_files;
use std::cell::Cell;
use std::env::Env;
use std::fs::{File, Files};
use std::io::Error;
use std::process::ExitCode;
use tables::layout::MOST_TABLE;

// Lends the runs that the work needs, room for the longest list and for the longest table, and says whether the job was
// done.
fn run(
    files: &impl Files<File = File>,
    streams: Streams,
    rules_path: &[u8],
    headers_path: &[u8],
) -> bool {
    let mut bytes = [0u8; 65536];
    let mut list = [0u32; MOST_NUMBERS];
    let mut table = [0u16; MOST_TABLE];
    let mut header = [0u32; 8];
    let mut out = [0u8; 65536];
    serve_files(
        files,
        streams,
        rules_path,
        headers_path,
        &mut bytes,
        &mut list,
        &mut table,
        &mut header,
        &mut out,
    )
}

// Does the work on the two files that the own words name.
fn run_named(rt: &(impl Env + Files<File = File>), streams: Streams, asked: bool) -> Ended {
    let mut rules_path = [0u8; 4096];
    let r = match own_word(rt, asked, 0, &mut rules_path) {
        Ok(n) => n,
        Err(error) => return misnamed(streams, b"gateway: first argument", error),
    };
    let mut headers_path = [0u8; 4096];
    let h = match own_word(rt, asked, 1, &mut headers_path) {
        Ok(n) => n,
        Err(error) => return misnamed(streams, b"gateway: second argument", error),
    };
    if names_twice(&rules_path[..r], &headers_path[..h]) {
        say_bytes(
            streams,
            b"gateway: standard input can be named once, for the rules or for the headers\n",
        );
        return Ended::Misused;
    }
    ended_by(run(rt, streams, &rules_path[..r], &headers_path[..h]))
}

// Says of an own word that it can't be had.
fn misnamed(streams: Streams, what: &[u8], error: Error) -> Ended {
    say_error(streams, what, error);
    Ended::Misused
}

// Says whether two names are both that of standard input.
fn names_twice(one: &[u8], other: &[u8]) -> bool
    ensures { result ≡ (is_stdin one.now and is_stdin other.now) }
{
    is_stdin(one) && is_stdin(other)
}

// Does what the own words ask for.
fn run_words(rt: &(impl Env + Files<File = File>), streams: Streams, start: Start) -> Ended {
    let asked = start.asked;
    let words = start.words;
    if words == 0 {
        return ended_by(run(rt, streams, b"rules.csv", b"headers.csv"));
    }
    if words == 2 {
        return run_named(rt, streams, asked);
    }
    if words == 1 {
        if is_own(rt, asked, 0, b"--help") {
            return ended_by(write_text(
                streams,
                b"gateway: write",
                b"\
usage: gateway [RULES HEADERS]\n\
Reads rules.csv and headers.csv of the current folder, or the two files named (- is standard input), and prints\n\
rule,tests and for each header line the first rule that fits and the number of range tests.\n\
What is wrong with a file, and where, is said on standard error.\n\
Exit status, by ./run or as installed: 0 where every header line was answered, 1 where the rules are refused or\n\
something can't be read or written, 2 for wrong use.\n",
            ));
        }
    }
    say_bytes(
        streams,
        b"usage: gateway [RULES HEADERS] | gateway --help\n",
    );
    Ended::Misused
}

fn main(rt: HostRuntime) -> ExitCode {
    let gone = Cell::new(false);
    let streams = Streams {
        input: rt.stdin(),
        output: rt.stdout(),
        error: rt.stderr(),
        gone: &gone,
    };
    let start = started(&rt);
    let ended = run_words(&rt, streams, start);
    end_program(&rt, streams, start.asked, ended)
}
