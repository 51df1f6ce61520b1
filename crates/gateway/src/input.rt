// A file in: it is opened, and a piece of it is read into a run of bytes. What goes wrong is said on standard error.
ghost use Rattle.std.specs.Prelude.{true, ◌≡◌, Some, length};
ghost use Rattle.std.specs.Io.{ReadsAtMost};
ghost use Rattle.gateway.specs.Serving.{is_stdin, Readied};
ghost use Rattle.gateway.specs.declared.input.Source.TheVariants.{Standard};

use flaws::say::put_named;
use programs::bytes::same;
use programs::output::say_error;
use programs::streams::Streams;
use std::fs::{File, Files};
use std::io;
use std::io::{Error, ErrorKind, Read};
use std::str::from_utf8;
use text::put::Out;

// What a file is read from.
#[derive(Drop)]
pub enum Source {
    // Standard input.
    Standard,
    Opened(File),
}

// Why a read brought no bytes.
#[derive(Clone, Copy)]
pub enum NoBytes {
    // The file has ended.
    End,
    // It is a folder, and that has been said.
    Folder,
    // It can't be read, and that has been said.
    Failed,
}

// The system's number of an error: what should be text is none.
const NO_TEXT: i32 = 84;

// Says on standard error what the system found wrong with a file.
pub(crate) fn say_failed(streams: Streams, path: &[u8], error: Error) {
    let mut text = [0u8; 8192];
    let mut named = Out {
        bytes: &mut text,
        at: 0,
    };
    put_named(b"gateway", path, &mut named);
    let n = named.at;
    say_first(streams, &text, n, error);
}

// Says it of the first bytes of a run, as many as stand before a place.
fn say_first(streams: Streams, text: &[u8], n: usize, error: Error) {
    if let Some(said) = text.get(..n) {
        say_error(streams, said, error);
    }
}

// Says whether a name is that of standard input.
pub(crate) fn is_stdin(path: &[u8]) -> bool
    ensures { result ≡ is_stdin path.now }
{
    same(path, b"-")
}

// Opens a file to read, by its name; the library opens a file only where that is text in UTF-8.
fn open_file(files: &impl Files<File = File>, path: &[u8]) -> io::Result<File> {
    let name = from_utf8(path).map_err(|_| Error::from_raw_os_error(NO_TEXT))?;
    File::open(files, name)
}

// Opens a file to read, and answers what it is read from; where it can't be opened, says so.
pub(crate) fn open_input(
    files: &impl Files<File = File>,
    streams: Streams,
    path: &[u8],
) -> Option<Source>
    ensures { is_stdin path.now ≡ true → result ≡ Some Standard }
{
    if is_stdin(path) {
        return Some(Source::Standard);
    }
    match open_file(files, path) {
        Ok(file) => Some(Source::Opened(file)),
        Err(error) => {
            say_failed(streams, path, error);
            None
        }
    }
}

// Reads once from standard input or a file.
fn read_source(streams: Streams, source: &mut Source, bytes: &mut [u8]) -> io::Result<usize>
    ensures { ReadsAtMost result bytes.new }
{
    match source {
        Source::Standard => {
            let mut input = streams.input;
            input.read(bytes)
        }
        Source::Opened(file) => file.read(bytes),
    }
}

// Reads a piece of a file: how many bytes came, at least one, or why none did.
pub(crate) fn read_some(
    streams: Streams,
    source: &mut Source,
    path: &[u8],
    bytes: &mut [u8],
) -> Result<usize, NoBytes>
    ensures { Readied result (length bytes.new) }
{
    match read_source(streams, source, bytes) {
        Ok(0) => Err(NoBytes::End),
        Ok(n) => Ok(n),
        Err(error) => {
            say_failed(streams, path, error);
            if error.kind() == ErrorKind::IsADirectory {
                return Err(NoBytes::Folder);
            }
            Err(NoBytes::Failed)
        }
    }
}
