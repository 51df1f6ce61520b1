// The words that a program is started with. The first, --status, is not the program's own: it asks for the exit status to be
// told.
ghost use Rattle.std.specs.Io.{ReadsAtMost};

use std::env::{Env, FillError};
use std::io;

// Whether the exit status is to be told, and how many words are the program's own.
#[derive(Clone, Copy)]
pub struct Start {
    pub asked: bool,
    pub words: usize,
}

// The system's numbers of two errors: there is no such word, and a word that is longer than the run. (Numbers, since what is
// said of them is what the system says, and that may not change.)
const NO_WORD: i32 = 22;

const LONG_WORD: i32 = 36;

// Counts the words, the program's name among them.
fn word_count(env: &impl Env) -> usize {
    for i in 0..usize::MAX {
        if let Err(FillError::NotPresent) = env.arg(i, &mut []) {
            return i;
        }
    }
    usize::MAX
}

// Says how the program was started.
pub fn started(env: &impl Env) -> Start {
    let count = word_count(env);
    if count < 2 {
        return Start {
            asked: false,
            words: 0,
        };
    }
    if is_own(env, false, 0, b"--status") {
        return Start {
            asked: true,
            words: count - 2,
        };
    }
    Start {
        asked: false,
        words: count - 1,
    }
}

// Puts own word k, from 0, at the start of a run, and answers how many bytes it has, or why it can't be put there: there is
// none, or the run is too short.
pub fn own_word(env: &impl Env, asked: bool, k: u8, run: &mut [u8]) -> io::Result<usize>
    ensures { ReadsAtMost result run.new }
{
    let place = if asked {
        k as usize + 2
    } else {
        k as usize + 1
    };
    env.arg(place, run).map_err(|fault| match fault {
        FillError::NotPresent => io::Error::from_raw_os_error(NO_WORD),
        FillError::TooLong => io::Error::from_raw_os_error(LONG_WORD),
    })
}

// Says whether own word k is the one given.
pub fn is_own(env: &impl Env, asked: bool, k: u8, word: &[u8]) -> bool {
    let mut run = [0u8; 4096];
    match own_word(env, asked, k, &mut run) {
        Ok(n) => &run[..n] == word,
        Err(_) => false,
    }
}
