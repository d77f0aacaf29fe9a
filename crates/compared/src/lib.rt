// Two writings compared: the first line in which they differ, where it starts and how many lines stand before it; and what planners are told of it (request L14), the writings being house writings: both lines, and the last before them that opens a part.
// specs/Compared: both, executable, and what the first means. proofs/Means: that it does, and that nothing else would. Nothing is required, whatever the bytes are.
//
// Rests on `output` (each put ensures `Wrote`), `shown`, `line`, `scan` and what they rest on.
#![tactic(auto)]

ghost use Rattle.std.specs.Prelude.{◌≡◌, [], ◌++◌};
ghost use Rattle.line.specs.Lines.{lines_of};
ghost use Rattle.output.specs.Pen.{pen, Wrote};
ghost use Rattle.compared.specs.Compared.{first_difference_of, line_number_of, line_there, line_told, opening, last_opening_of, part_told, differ_told, told};

use output::{put_byte, put_bytes, put_integer};
use scan::{far_byte_from, same};
use shown::first;

pub fn first_difference(a: &[u8], b: &[u8]) -> Option<(usize, usize)>
    ensures { result ≡ first_difference_of a.now b.now }
{
    let mut start: usize = 0;
    let mut passed: usize = 0;
    for i in 0..a.len() {
        if b.len() <= i {
            return Some((start, passed));
        }
        if a[i] != b[i] {
            return Some((start, passed));
        }
        if a[i] == 10 {
            start = i + 1;
            passed += 1;
        }
    }
    if a.len() < b.len() {
        return Some((start, passed));
    }
    None
}

// ## What is told

// The number of a line behind so many.
fn line_number(passed: usize) -> u32
    ensures { result ≡ line_number_of passed }
{
    if passed < 4294967295 {
        return passed as u32 + 1;
    }
    4294967295
}

// The line that starts there, without its LF.
fn line_at(writing: &[u8], start: usize) -> &[u8]
    ensures { result.now ≡ line_there writing.now start }
{
    if start < writing.len() {
        let e = far_byte_from(writing, start, 10);
        &writing[start..e]
    } else {
        &writing[..0]
    }
}

// `house line 7 of network.rndf: `, and the line; or that there is none.
fn put_line(
    out: &mut [u8],
    at: usize,
    name: &[u8],
    writing: &[u8],
    start: usize,
    passed: usize,
) -> usize
    ensures { Wrote (pen out.old at) (line_told name.now writing.now start passed) (pen out.new result) }
{
    let a = put_bytes(out, at, b"house line ");
    let b = put_integer(out, a, line_number(passed));
    let c = put_bytes(out, b, b" of ");
    let d = put_bytes(out, c, name);
    if writing.len() <= start {
        return put_bytes(out, d, b": none, it has ended\n");
    }
    let e = put_bytes(out, d, b": ");
    let f = put_bytes(out, e, line_at(writing, start));
    put_byte(out, f, b'\n')
}

// Whether a line opens a part.
fn is_opening(line: &[u8]) -> bool
    ensures { result ≡ opening line.now }
{
    let road = same(first(line, 8), b"segment\t") | same(first(line, 5), b"lane\t");
    let zone = same(first(line, 5), b"zone\t") | same(first(line, 10), b"perimeter\t");
    road | (zone | same(first(line, 5), b"spot\t"))
}

// The last line of these that opens a part; nothing where none does.
fn last_opening(front: &[u8]) -> &[u8]
    ensures { result.now ≡ last_opening_of [] (lines_of front.now) }
{
    let mut found = front.len();
    let mut from: usize = 0;
    while from < front.len() {
        let e = far_byte_from(front, from, 10);
        if is_opening(line_at(front, from)) {
            found = from;
            from = e + 1;
            continue;
        }
        from = e + 1;
    }
    line_at(front, found)
}

// `last part before it: lane 1.1`, where there is one.
fn put_part(out: &mut [u8], at: usize, part: &[u8]) -> usize
    ensures { Wrote (pen out.old at) (part_told part.now) (pen out.new result) }
{
    if part.len() == 0 {
        return at;
    }
    let a = put_bytes(out, at, b"last part before it: ");
    let b = put_bytes(out, a, part);
    put_byte(out, b, b'\n')
}

fn put_differ(
    out: &mut [u8],
    at: usize,
    name: &[u8],
    other: &[u8],
    a: &[u8],
    b: &[u8],
    start: usize,
    passed: usize,
) -> usize
    ensures { Wrote (pen out.old at) (differ_told name.now other.now a.now b.now start passed) (pen out.new result) }
{
    let c = put_bytes(out, at, b"not the same yard\n");
    let d = put_line(out, c, name, a, start, passed);
    let e = put_line(out, d, other, b, start, passed);
    put_part(out, e, last_opening(first(a, start)))
}

// What is told of two files of these names and house writings.
pub fn put_compared(
    out: &mut [u8],
    at: usize,
    name: &[u8],
    other: &[u8],
    a: &[u8],
    b: &[u8],
) -> usize
    ensures { Wrote (pen out.old at) (told name.now other.now a.now b.now) (pen out.new result) }
{
    let difference = first_difference(a, b);
    match difference {
        None => put_bytes(out, at, b"the same yard\n"),
        Some((start, passed)) => put_differ(out, at, name, other, a, b, start, passed),
    }
}
