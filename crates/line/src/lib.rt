// A line: its end without CR, its form (refusals 2, 3, 4, or where its fields end) and its fields.
// Rests on `scan` (every loop over bytes is there) and `terms`. A text's lines are found by scanning for LF.
#![tactic(auto)]

ghost use Rattle.std.specs.Prelude.{◌≡◌};
ghost use Rattle.scan.specs.Allowed.{separates, outside, inside, all};
ghost use Rattle.scan.specs.Reach.{up_to, fails, plain};
ghost use Rattle.line.specs.Lines.{trim_of};
ghost use Rattle.line.specs.Forms.{opens, closes, shut, clean, form_of, span_at_of, count_of, fields_in_of};

use scan::{
    not_inside_from, not_outside_from, not_separator_from, plain_from, separator_from, two_from,
};

// The end of a line without one CR as its last byte.
pub fn trimmed(s: &[u8]) -> usize
    ensures { result ≡ trim_of s.now }
{
    if 0 < s.len() && s[s.len() - 1] == b'\r' {
        return s.len() - 1;
    }
    s.len()
}

fn all_separators(s: &[u8]) -> bool
    ensures { result ≡ all separates s.now }
{
    not_separator_from(s, 0) == s.len()
}

fn outside_bytes(s: &[u8]) -> bool
    ensures { result ≡ all outside s.now }
{
    not_outside_from(s, 0) == s.len()
}

fn inside_bytes(s: &[u8]) -> bool
    ensures { result ≡ all inside s.now }
{
    not_inside_from(s, 0) == s.len()
}

// Behind the opening: the first */, and nothing but separators behind it.
fn closed(s: &[u8]) -> bool
    ensures { result ≡ closes s.now }
{
    let e = two_from(s, 0, b'*', b'/');
    e < s.len() && all_separators(&s[e + 2..])
}

// No comment, or one that is closed. It opens at `mark`.
fn is_shut(s: &[u8], mark: usize) -> bool
    requires { mark ≡ up_to opens s.now }
    ensures { result ≡ shut s.now }
{
    s.len() <= mark || closed(&s[mark + 2..])
}

// Every byte is allowed where it stands. Before `stop` each is plain.
fn is_clean(s: &[u8], stop: usize, mark: usize) -> bool
    requires { (stop ≡ up_to (fails plain) s.now) × (mark ≡ up_to opens s.now) }
    ensures { result ≡ clean s.now }
{
    outside_bytes(&s[stop..mark]) && inside_bytes(&s[mark..])
}

pub fn form_of(s: &[u8]) -> Result<usize, u8>
    ensures { result ≡ form_of s.now }
{
    if 512 < s.len() {
        return Err(2);
    }
    // most lines are plain throughout: they have no comment, and no byte that is not allowed
    let stop = plain_from(s, 0);
    if stop == s.len() {
        return Ok(stop);
    }
    let mark = two_from(s, stop, b'/', b'*');
    if !is_shut(s, mark) {
        return Err(3);
    }
    if !is_clean(s, stop, mark) {
        return Err(4);
    }
    Ok(mark)
}

// A field's first byte, and the place behind its last.
#[derive(Clone, Copy)]
pub struct Span {
    pub start: usize,
    pub stop: usize,
}

// The first field from a place on; an empty stretch where there is none.
fn span_at(s: &[u8], from: usize) -> Span
    ensures { result ≡ span_at_of s.now from }
{
    let start = not_separator_from(s, from);
    let stop = separator_from(s, start);
    Span { start, stop }
}

// The first three fields, and how many there are: 4 stands for more than three.
#[derive(Clone, Copy)]
pub struct Fields {
    pub count: u8,
    pub a: Span,
    pub b: Span,
    pub c: Span,
}

fn count_of(a: Span, b: Span, c: Span, d: Span) -> u8
    ensures { result ≡ count_of a b c d }
{
    if a.stop <= a.start {
        0
    } else if b.stop <= b.start {
        1
    } else if c.stop <= c.start {
        2
    } else if d.stop <= d.start {
        3
    } else {
        4
    }
}

// The fields of a content up to where they end (`Ok`).
pub fn fields_of(s: &[u8]) -> Fields
    ensures { result ≡ fields_in_of s.now }
{
    let a = span_at(s, 0);
    let b = span_at(s, a.stop);
    let c = span_at(s, b.stop);
    let d = span_at(s, c.stop);
    let count = count_of(a, b, c, d);
    Fields { count, a, b, c }
}
