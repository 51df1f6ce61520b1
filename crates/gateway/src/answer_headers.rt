// The headers file, read piece by piece to its end, and the answers to its lines out: read, hand on, write.
ghost use Rattle.std.specs.Prelude.{◌≤◌, length, take};
ghost use Rattle.answers.specs.Said.{line_most};
ghost use Rattle.lists.specs.Rules.{lent};
ghost use Rattle.rulesfile.specs.Tabled.{list_read, room_read};
ghost use Rattle.gateway.specs.Serving.{TurnTook, HeadersOver, HeadersLost, HeadersEnded, HeadersReadFrom};

use crate::headers::{HeadersFile, headers_end, headers_piece, headers_start};
use crate::input::{NoBytes, Source, open_input, read_some};
use crate::output::write_out;
use answers::count::HeadersSoFar;
use lists::shape::RuleList;
use programs::streams::Streams;
use rulesfile::file::RulesSoFar;
use rulesfile::table::{rules_length, rules_room, rules_shape};
use std::fs::{File, Files};
use text::put::Out;

// Answers the lines that a piece ends, and writes the answers; none where they can't be written.
fn answer_piece(
    streams: Streams,
    file: HeadersFile,
    bytes: &[u8],
    list: &RuleList,
    table: &[u16],
    header: &mut [u32; 8],
    out: &mut [u8],
) -> Option<HeadersFile>
    requires { line_most ≤ length out.old }
    ensures { TurnTook (lent list.now) table.now file bytes.now header.old result header.new }
{
    let mut present = file;
    let mut rest = bytes;
    // (No `for`: how many bytes a turn takes is not known before it.)
    while !rest.is_empty() {
        let mut lines = Out { bytes: out, at: 0 };
        let next = headers_piece(present, rest, list, table, header, &mut lines);
        present = next.file;
        rest = &rest[next.used..];
        let at = lines.at;
        if !write_out(streams, out, at) {
            return None;
        }
    }
    Some(present)
}

// What reading the headers has come to. (Three outcomes, which no `Option` or `Result` has.)
#[derive(Clone, Copy)]
pub enum HeadersRead {
    // All of the file's lines.
    Are(HeadersSoFar),
    // The file can't be opened or read further, or is a folder, and that has been said: the lines so far.
    Stopped(HeadersSoFar),
    // What was answered can't be written, and that has been said.
    Failed,
}

// Leaves the file where it has come to.
fn stopped_at(file: HeadersFile) -> HeadersRead
    ensures { HeadersLost file result }
{
    let headers = file.headers;
    HeadersRead::Stopped(headers)
}

// Ends the file: answers a last line that no CRLF ends, and writes the answer.
fn end_answers(
    streams: Streams,
    file: HeadersFile,
    list: &RuleList,
    table: &[u16],
    header: &mut [u32; 8],
    out: &mut [u8],
) -> HeadersRead
    requires { line_most ≤ length out.old }
    ensures { HeadersOver (lent list.now) table.now file header.old result }
{
    let mut line = Out { bytes: out, at: 0 };
    let headers = headers_end(file, list, table, header, &mut line);
    let at = line.at;
    if write_out(streams, out, at) {
        return HeadersRead::Are(headers);
    }
    HeadersRead::Failed
}

// Ends the file, after a read that brought no bytes: a last line that no CRLF ends is answered, but not where the file
// can't be read further or is a folder.
fn end_headers(
    streams: Streams,
    why: NoBytes,
    file: HeadersFile,
    list: &RuleList,
    table: &[u16],
    header: &mut [u32; 8],
    out: &mut [u8],
) -> HeadersRead
    requires { line_most ≤ length out.old }
    ensures { HeadersEnded why (lent list.now) table.now file header.old result }
{
    match why {
        NoBytes::End => end_answers(streams, file, list, table, header, out),
        NoBytes::Folder => stopped_at(file),
        NoBytes::Failed => stopped_at(file),
    }
}

// Reads the headers file to its end and answers its lines; what was answered is written before the next read.
fn headers_all(
    streams: Streams,
    source: &mut Source,
    path: &[u8],
    list: &RuleList,
    table: &[u16],
    bytes: &mut [u8],
    header: &mut [u32; 8],
    out: &mut [u8],
) -> HeadersRead
    requires { line_most ≤ length out.old }
    ensures { HeadersReadFrom (lent list.now) table.now header.old result }
{
    let start = headers_start();
    let mut file = start;
    for _ in 0..u64::MAX {
        let n = match read_some(streams, source, path, bytes) {
            Ok(n) => n,
            Err(why) => return end_headers(streams, why, file, list, table, header, out),
        };
        match answer_piece(streams, file, &bytes[..n], list, table, header, out) {
            Some(next) => file = next,
            None => return HeadersRead::Failed,
        }
    }
    HeadersRead::Failed
}

// Answers each line of the headers file by the rules' list and table, at the front of what is lent; a file that can't be
// opened counts as empty.
pub(crate) fn answer_headers(
    files: &impl Files<File = File>,
    streams: Streams,
    rules: RulesSoFar,
    path: &[u8],
    bytes: &mut [u8],
    list: &[u32],
    table: &[u16],
    header: &mut [u32; 8],
    out: &mut [u8],
) -> HeadersRead
    requires { line_most ≤ length out.old }
    ensures { HeadersReadFrom (list_read rules list.now) (take (room_read rules table.now) table.now)
        header.old result }
{
    let Some(mut source) = open_input(files, streams, path) else {
        return stopped_at(headers_start());
    };
    let k = rules_length(rules, list);
    let t = rules_room(rules, table);
    let list = RuleList {
        shape: rules_shape(rules),
        numbers: &list[..k],
    };
    headers_all(
        streams,
        &mut source,
        path,
        &list,
        &table[..t],
        bytes,
        header,
        out,
    )
}
