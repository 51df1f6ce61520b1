// The standard streams of a program.
use std::cell::Cell;
use std::io::{Stderr, Stdin, Stdout};

// The streams, and whether the reader of one that is written to has gone away.
#[derive(Clone, Copy)]
pub struct Streams<'a> {
    pub input: Stdin,
    pub output: Stdout,
    pub error: Stderr,
    pub gone: &'a Cell<bool>,
}
