// One library call a line: reads lines from standard input and answers each with one line on standard output, so that
// scripts and other languages can try every operation.
//
//     calls                       answers each line with one line
//     calls --help                says the words, and what each answers
//     calls --status ..           either of these, and tells its exit status (the crate `programs`)
//
// The text of --help, below, is the protocol. The status is 0 where all lines were read and answered, refusals and bad lines
// among them, 1 where something can't be read or written, 2 for wrong use.
//
// A line may be of any length and may come in pieces: it is heard byte by byte (the crate `hearing`), its numbers go to a lent
// run, and once it has ended its word decides what is made of them (`word`, `answer`). What each word answers is the crate
// `words`: it finds the parts of the line's numbers, calls the library, and puts the answer's text into the run of bytes
// that is written out. So input comes to answers on slices, and that is proved (`reply`); only `read` and `write` are
// the system's (`serve`).
#![tactic(auto)]

mod answer;
mod reply;
mod serve;
mod word;

use programs::output::{say_bytes, write_text};
use programs::start::{Start, is_own, started};
use programs::status::{Ended, end_program, ended_by};
use programs::streams::Streams;
use serve::serve_all;
use std::cell::Cell;
use std::env::Env;
use std::process::ExitCode;
use words::limits::{LINE_ROOM, NAME_ROOM, OUT_ROOM};

// Lends the runs that the work needs, and says whether all was read and answered.
fn run(streams: Streams) -> bool {
    let mut bytes = [0u8; 65536];
    let mut name = [0u8; NAME_ROOM];
    let mut numbers = [0u32; LINE_ROOM];
    let mut out = [0u8; OUT_ROOM];
    serve_all(streams, &mut bytes, &mut name, &mut numbers, &mut out)
}

// Prints the words, and says whether that went well.
fn say_words(streams: Streams) -> bool {
    write_text(
        streams,
        b"calls: write",
        b"\
usage: calls\n\
Reads lines from standard input and answers each with one line:\n\
\n\
check D LIST                 ok N\n\
scan D LIST HEADER           ok RULE | ok none\n\
choose D LIST RUN            ok B | refused ..       and then, either way, run and the run's numbers\n\
layout D LIST RUN TABLE      ok B | refused ..       and then, either way, table and the table's numbers\n\
build D LIST TABLE           ok B | refused ..       and then, either way, table and the table's numbers\n\
lookup D LIST TABLE HEADER   ok RULE TESTS edge | ok RULE TESTS plain | ok none TESTS plain\n\
audit D LIST TABLE           ok yes | ok no\n\
report D LIST TABLE P        ok SIZE SMALLEST\n\
independent D LIST           ok yes | ok no I J\n\
side D FIELD LOW HIGH NUMBER ok below | ok low | ok between | ok high | ok both | ok above\n\
p2r VALUE LENGTH WIDTH       ok LOW HIGH\n\
r2p LOW HIGH WIDTH RUN       ok COUNT | refused ..   and then, either way, run and the run's numbers\n\
any refusal                  refused NUMBER FIRST SECOND\n\
anything else                bad\n\
\n\
Words are parted by single blanks, and LF ends a line; what follows the last LF, if anything, is a line too. LIST, TABLE\n\
and RUN are a length, at most 16500, 19500 and 1100 (r2p: 200), and then that many numbers; HEADER is eight numbers. Numbers\n\
are plain decimals without leading zeros, 0 to 4294967295, those of a table and of a choose's or layout's run to 65535.\n\
\n\
D is the number of fields, or that and flags, D:FFFFFFFF: eight characters 0 or 1, the first for field 0, the next for field\n\
1, and so on. 1 says that the field is a date: its ranges hold LOW to before HIGH, where others hold HIGH too. Flags from\n\
field D on alter nothing.\n\
\n\
A lookup says edge where in one field or more the header's number is the first or the last that the rule's range holds, else\n\
plain. side says where NUMBER lies as against these two of the range LOW to HIGH in FIELD, whatever D is: both is where it\n\
is the only one.\n\
\n\
Exit status, by ./run or as installed: 0 where all lines were read and answered, 1 where something can't be read or\n\
written, 2 for wrong use.\n",
    )
}

// Does what the own words ask for.
fn run_words(env: &impl Env, streams: Streams, start: Start) -> Ended {
    let asked = start.asked;
    let words = start.words;
    if words == 0 {
        return ended_by(run(streams));
    }
    if words == 1 && is_own(env, asked, 0, b"--help") {
        return ended_by(say_words(streams));
    }
    say_bytes(
        streams,
        b"usage: calls | calls --help   (lines are read from standard input)\n",
    );
    Ended::Misused
}

fn main(rt: HostRuntime) -> ExitCode {
    let gone = Cell::new(false);
    let streams = Streams {
        input: rt.stdin(),
        output: rt.stdout(),
        error: rt.stderr(),
        gone: &gone,
    };
    let start = started(&rt);
    let ended = run_words(&rt, streams, start);
    end_program(&rt, streams, start.asked, ended)
}
