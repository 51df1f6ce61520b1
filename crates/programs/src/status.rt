// The exit status that a program tells.
ghost use Rattle.std.specs.Prelude.{◌≡◌, Bool};
ghost use Rattle.std.specs.Process.{exit_status};
ghost use Rattle.programs.specs.Status.{ended_of, digit_of, left_with};

use crate::streams::Streams;
use std::fs::{Files, OpenOptions};
use std::io::Write;
use std::process::ExitCode;

// How a program has ended.
#[derive(Clone, Copy)]
pub enum Ended {
    // The job was done.
    Done,
    // Something was refused as a whole, or could not be read or written.
    Failed,
    // The program was not called as it is to be.
    Misused,
}

// The name of the descriptor on which the status is told.
const STATUS_FILE: &str = "/dev/fd/9";

// Says how a program has ended whose job was done, or was not. (A function with a name and no `From`, as the next two:
// docs/PROMISES.md names them, and a bool or a number does not say what it stands for.)
pub fn ended_by(done: bool) -> Ended
    ensures { result ≡ ended_of done }
{
    if done {
        return Ended::Done;
    }
    Ended::Failed
}

// Gives the status as a digit.
pub fn status_digit(ended: Ended) -> u8
    ensures { result ≡ digit_of ended }
{
    match ended {
        Ended::Done => b'0',
        Ended::Failed => b'1',
        Ended::Misused => b'2',
    }
}

// What a process ends with whose output has no reader any more: the shell's number for one that the signal of a broken pipe
// ended.
const READER_GONE: u8 = 141;

// Gives what the process ends with, by whether the reader of what it writes has gone away.
pub fn process_status(gone: bool) -> u8
    ensures { result ≡ left_with gone }
{
    if gone {
        return READER_GONE;
    }
    0
}

// Ends a program: tells how it has ended, but nothing where the reader of what it writes has gone away, and answers what the
// process ends with. Whether the reader has gone away is the system's.
pub fn end_program(files: &impl Files, streams: Streams, asked: bool, ended: Ended) -> ExitCode
    ensures { (gone : Bool) × (exit_status result ≡ left_with gone) }
{
    let gone = streams.gone.get();
    if !gone {
        tell_status(files, asked, ended);
    }
    ExitCode::from(process_status(gone))
}

// Tells the status where that was asked for and there is someone to hear it.
pub fn tell_status(files: &impl Files, asked: bool, ended: Ended) {
    if asked {
        tell_digit(files, status_digit(ended));
    }
}

// Writes a digit to the descriptor; where that can't be done it can be told to nobody.
fn tell_digit(files: &impl Files, digit: u8) {
    if let Ok(mut file) = OpenOptions::new().append(true).open(files, STATUS_FILE) {
        let _ = file.write_all(&[digit]);
    }
}
