// The headers file, as far as its bytes have come: each number that stands goes to its place in the lent header, and a
// line that has ended is answered.
ghost use Rattle.std.specs.Prelude.{◌≡◌, ◌+◌, ◌≤◌, length};
ghost use Rattle.lists.specs.Rules.{lent};
ghost use Rattle.answers.specs.Said.{line_most};
ghost use Rattle.gateway.specs.HeaderBytes.{no_headers, HeadersTook, HeadersPiece, HeadersEnd};

use answers::answer::{header_flaw, put_answer};
use answers::count::{HeadersSoFar, count_start, counted};
use answers::say::LINE_MOST;
use lists::shape::RuleList;
use text::line::{Reader, end_line, read_line, reader_start};
use text::put::Out;

// The headers file within a line, of which some bytes have come.
#[derive(Clone, Copy)]
pub struct HeadersFile {
    pub reader: Reader,
    pub headers: HeadersSoFar,
}

// The headers after some bytes more, and how many those were.
#[derive(Clone, Copy)]
pub struct Progress {
    pub file: HeadersFile,
    pub used: usize,
}

// Makes headers of which nothing has been read.
pub fn headers_start() -> HeadersFile
    ensures { result ≡ no_headers }
{
    HeadersFile {
        reader: reader_start(),
        headers: count_start(),
    }
}

// Reads bytes to the end of the present line, or all where it does not end in them; where it ends, its answer is put,
// and the header is cleared, so that the next line is read as the first.
fn headers_line(
    file: HeadersFile,
    bytes: &[u8],
    list: &RuleList,
    table: &[u16],
    header: &mut [u32; 8],
    out: &mut Out,
) -> Progress
    requires { out.old.at + line_most ≤ length out.old.bytes.now }
    ensures { HeadersTook (lent list.now) table.now file bytes.now header.old out.old result header.new out.new }
{
    let headers = file.headers;
    let read = read_line(file.reader, bytes, 0, header);
    let reader = read.reader;
    if !read.ended {
        return Progress {
            file: HeadersFile { reader, headers },
            used: read.used,
        };
    }
    let line = reader.line;
    let flaw = header_flaw(line, list.shape.d);
    put_answer(flaw, list, table, *header, out);
    *header = [0; 8];
    Progress {
        file: HeadersFile {
            reader: reader_start(),
            headers: counted(headers, flaw),
        },
        used: read.used,
    }
}

// Reads a piece of the file, cut anywhere, as long as there is room for another line of output: of some bytes at least
// one. (No index loop: a turn takes the bytes of a line, and how many were taken is answered.)
pub(crate) fn headers_piece(
    file: HeadersFile,
    bytes: &[u8],
    list: &RuleList,
    table: &[u16],
    header: &mut [u32; 8],
    out: &mut Out,
) -> Progress
    requires { out.old.at + line_most ≤ length out.old.bytes.now }
    ensures { HeadersPiece (lent list.now) table.now file bytes.now header.old out.old result header.new out.new }
{
    let mut present = file;
    let mut i = 0;
    while i < bytes.len() {
        let next = headers_line(present, &bytes[i..], list, table, header, out);
        present = next.file;
        i += next.used;
        if out.bytes.len() - LINE_MOST < out.at {
            return Progress {
                file: present,
                used: i,
            };
        }
    }
    Progress {
        file: present,
        used: i,
    }
}

// Ends the file: puts the answer to a last line that no CRLF ends.
pub(crate) fn headers_end(
    file: HeadersFile,
    list: &RuleList,
    table: &[u16],
    header: &mut [u32; 8],
    out: &mut Out,
) -> HeadersSoFar
    requires { out.old.at + line_most ≤ length out.old.bytes.now }
    ensures { HeadersEnd (lent list.now) table.now file header.old out.old result out.new }
{
    let headers = file.headers;
    let read = end_line(file.reader, 0, header);
    if !read.ended {
        return headers;
    }
    let reader = read.reader;
    let line = reader.line;
    let flaw = header_flaw(line, list.shape.d);
    put_answer(flaw, list, table, *header, out);
    counted(headers, flaw)
}
