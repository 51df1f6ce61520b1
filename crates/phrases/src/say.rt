// Answers as text, put into a lent run of bytes that holds its place. An answer is a word and numbers, each after a blank.
// A number takes at most 21 bytes; an answer without a table or a run has at most 70.
ghost use Rattle.std.specs.Prelude.{◌+◌, ◌++◌, length};
ghost use Rattle.text.specs.Texts.{bytes};
ghost use Rattle.phrases.specs.Few.{PutFew, PutAll};
ghost use Rattle.phrases.specs.Said.{spaced, refusal_said, count_said, bounds_said, match_said, pair_said, edge_said, rule_said, found_said, spot_said, verdict_said, part_said};

use lookup::lookup::Looked;
use ranges::prefix::Bounds;
use ranges::reason::Reason;
use ranges::refusal::Refusal;
use ranges::spot::Spot;
use tables::report::Part;
use text::put::Out;

// Puts a blank and a number.
pub fn put_spaced(n: u64, out: &mut Out)
    ensures { PutFew 21 out.old (spaced n) out.new }
{
    out.byte(b' ');
    out.number(n);
}

// Puts each number of a run after a blank.
pub fn put_all(numbers: &[u32], out: &mut Out)
    ensures { PutAll numbers.now out.old out.new }
{
    for n in numbers {
        put_spaced(*n as u64, out);
    }
}

// Puts each number of a table after a blank. Not one function with `put_all` over `T: Into<u64>`: what `into` gives is a relation, so that
// the contract could not name the bytes by the numbers alone.
pub fn put_table(numbers: &[u16], out: &mut Out)
    ensures { PutAll numbers.now out.old out.new }
{
    for n in numbers {
        put_spaced(*n as u64, out);
    }
}

// Puts the answer to a line that is no call.
pub fn put_bad(out: &mut Out)
    ensures { PutFew 70 out.old (bytes "bad") out.new }
{
    out.text(b"bad");
}

// Puts a text and a number.
fn put_one(text: &[u8], n: u64, out: &mut Out)
    ensures { PutFew (length text.now + 21) out.old (text.now ++ spaced n) out.new }
{
    out.text(text);
    put_spaced(n, out);
}

// Puts a text and two numbers.
fn put_two(text: &[u8], m: u64, n: u64, out: &mut Out)
    ensures { PutFew (length text.now + 42) out.old (text.now ++ spaced m ++ spaced n) out.new }
{
    put_one(text, m, out);
    put_spaced(n, out);
}

// Puts a refusal: its number and its place of two numbers.
pub fn put_refused<C: Reason>(x: Refusal<C>, out: &mut Out)
    ensures { PutFew 70 out.old (refusal_said C.its_number x) out.new }
{
    put_two(b"refused", x.cause.its_number() as u64, x.at as u64, out);
    put_spaced(x.then as u64, out);
}

// Puts what is counted, or the refusal.
pub fn put_count<C: Reason>(count: Result<usize, Refusal<C>>, out: &mut Out)
    ensures { PutFew 70 out.old (count_said C.its_number count) out.new }
{
    match count {
        Ok(k) => put_one(b"ok", k as u64, out),
        Err(x) => put_refused(x, out),
    }
}

// Puts a range's low and high end, or the refusal.
pub fn put_bounds<C: Reason>(bounds: Result<Bounds, Refusal<C>>, out: &mut Out)
    ensures { PutFew 70 out.old (bounds_said C.its_number bounds) out.new }
{
    match bounds {
        Ok(b) => put_two(b"ok", b.low as u64, b.high as u64, out),
        Err(x) => put_refused(x, out),
    }
}

// Puts the first match, or none, or the refusal.
pub fn put_match<C: Reason>(found: Result<Option<usize>, Refusal<C>>, out: &mut Out)
    ensures { PutFew 70 out.old (match_said C.its_number found) out.new }
{
    match found {
        Ok(Some(i)) => put_one(b"ok", i as u64, out),
        Ok(None) => out.text(b"ok none"),
        Err(x) => put_refused(x, out),
    }
}

// Puts yes, or no and the pair of rules, or the refusal.
pub fn put_pair<C: Reason>(pair: Result<Option<(usize, usize)>, Refusal<C>>, out: &mut Out)
    ensures { PutFew 70 out.old (pair_said C.its_number pair) out.new }
{
    match pair {
        Ok(None) => out.text(b"ok yes"),
        Ok(Some((i, j))) => put_two(b"ok no", i as u64, j as u64, out),
        Err(x) => put_refused(x, out),
    }
}

// Puts edge or plain after a blank.
fn put_edge(edge: bool, out: &mut Out)
    ensures { PutFew 6 out.old (edge_said edge) out.new }
{
    if edge {
        out.text(b" edge");
    } else {
        out.text(b" plain");
    }
}

// Puts the first match, or none, the tests made, and whether the match is at an edge.
fn put_rule(looked: Looked, out: &mut Out)
    ensures { PutFew 50 out.old (rule_said looked.found looked.tests) out.new }
{
    match looked.found {
        Some(found) => {
            put_two(b"ok", found.rule as u64, looked.tests as u64, out);
            put_edge(found.edge, out);
        }
        None => {
            put_one(b"ok none", looked.tests as u64, out);
            put_edge(false, out);
        }
    }
}

// Puts the same, or the refusal.
pub fn put_looked<C: Reason>(looked: Result<Looked, Refusal<C>>, out: &mut Out)
    ensures { PutFew 70 out.old (found_said C.its_number looked) out.new }
{
    match looked {
        Ok(looked) => put_rule(looked, out),
        Err(x) => put_refused(x, out),
    }
}

// Puts where a number lies as against the ends of a range.
pub fn put_spot(spot: Spot, out: &mut Out)
    ensures { PutFew 70 out.old (spot_said spot) out.new }
{
    match spot {
        Spot::Below => out.text(b"ok below"),
        Spot::AtLow => out.text(b"ok low"),
        Spot::Between => out.text(b"ok between"),
        Spot::AtHigh => out.text(b"ok high"),
        Spot::AtBoth => out.text(b"ok both"),
        Spot::Above => out.text(b"ok above"),
    }
}

// Puts yes or no, or the refusal.
pub fn put_verdict<C: Reason>(verdict: Result<bool, Refusal<C>>, out: &mut Out)
    ensures { PutFew 70 out.old (verdict_said C.its_number verdict) out.new }
{
    match verdict {
        Ok(true) => out.text(b"ok yes"),
        Ok(false) => out.text(b"ok no"),
        Err(x) => put_refused(x, out),
    }
}

// Puts a partition's size and its smallest rule number, or the refusal.
pub fn put_part<C: Reason>(part: Result<Part, Refusal<C>>, out: &mut Out)
    ensures { PutFew 70 out.old (part_said C.its_number part) out.new }
{
    match part {
        Ok(p) => put_two(b"ok", p.size as u64, p.least as u64, out),
        Err(x) => put_refused(x, out),
    }
}
