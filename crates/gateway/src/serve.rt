// The whole job on two files: the rules are read and their table is built, then each header is answered.
ghost use Rattle.std.specs.Prelude.{◌≤◌, true, ◌≡◌, length, None};
ghost use Rattle.rulesfile.specs.Tabled.{tabled_flaw};
ghost use Rattle.answers.specs.Said.{line_most};

use crate::answer_headers::{HeadersRead, answer_headers};
use crate::output::write_out;
use crate::read_rules::{RulesRead, read_rules};
use answers::complain::put_headers_flaws;
use answers::count::HeadersSoFar;
use answers::open::open_rules;
use flaws::flaw::Flaw;
use flaws::say::put_complaint;
use programs::output::write_error;
use programs::streams::Streams;
use rulesfile::file::RulesSoFar;
use rulesfile::table::rules_shape;
use std::fs::{File, Files};

// Says on standard error what is wrong with the rules.
fn say_flaw(streams: Streams, flaw: Flaw, path: &[u8], out: &mut [u8]) {
    let at = put_complaint(Some(flaw), b"gateway", path, out);
    write_error(streams, out, at);
}

// Says on standard error which header lines were refused, where any was, for rules of d fields.
fn say_refused(streams: Streams, headers: HeadersSoFar, d: usize, path: &[u8], out: &mut [u8]) {
    if headers.refused.is_none() {
        return;
    }
    let at = put_headers_flaws(headers, d, path, out);
    write_error(streams, out, at);
}

// Answers the headers of rules whose table stands, says on standard error which of them were refused, and answers whether
// all were read and answered.
fn serve_headers(
    files: &impl Files<File = File>,
    streams: Streams,
    rules: RulesSoFar,
    path: &[u8],
    bytes: &mut [u8],
    list: &[u32],
    table: &[u16],
    header: &mut [u32; 8],
    out: &mut [u8],
) -> bool
    requires { line_most ≤ length out.old }
{
    let shape = rules_shape(rules);
    match answer_headers(files, streams, rules, path, bytes, list, table, header, out) {
        HeadersRead::Are(headers) => {
            say_refused(streams, headers, shape.d, path, out);
            true
        }
        HeadersRead::Stopped(headers) => {
            say_refused(streams, headers, shape.d, path, out);
            false
        }
        HeadersRead::Failed => false,
    }
}

// Does 01's job on rules that have been read: prints their refusal, or the answer to each header; and answers whether the
// job was done, which it is not where the rules have a flaw.
fn serve_rules(
    files: &impl Files<File = File>,
    streams: Streams,
    read: RulesRead,
    rules_path: &[u8],
    headers_path: &[u8],
    bytes: &mut [u8],
    list: &[u32],
    table: &mut [u16],
    header: &mut [u32; 8],
    out: &mut [u8],
) -> bool
    requires { line_most ≤ length out.old }
    ensures { result ≡ true → tabled_flaw read.rules list.now table.old ≡ None }
{
    let opened = open_rules(read.rules, list, table, out);
    if !write_out(streams, out, opened.at) {
        return false;
    }
    let Err(flaw) = opened.built else {
        return serve_headers(
            files,
            streams,
            read.rules,
            headers_path,
            bytes,
            list,
            table,
            header,
            out,
        );
    };
    if !read.told {
        say_flaw(streams, flaw, rules_path, out);
    }
    false
}

// Does 01's job on two files, and answers whether it was done.
pub(crate) fn serve_files(
    files: &impl Files<File = File>,
    streams: Streams,
    rules_path: &[u8],
    headers_path: &[u8],
    bytes: &mut [u8],
    list: &mut [u32],
    table: &mut [u16],
    header: &mut [u32; 8],
    out: &mut [u8],
) -> bool
    requires { line_most ≤ length out.old }
{
    let Some(read) = read_rules(files, streams, rules_path, bytes, list) else {
        return false;
    };
    serve_rules(
        files,
        streams,
        read,
        rules_path,
        headers_path,
        bytes,
        list,
        table,
        header,
        out,
    )
}
