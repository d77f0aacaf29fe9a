// A line of a text as planners see it: tabs and the bytes 32 to 126 as they are, every other as `\xNN`, and below it a caret under one byte; a byte that is not allowed in words; and whether a text begins as an MDF does.
// What is put are the definitions of specs/Shown, for every line; nothing is required.
//
// Rests on `output` (each put ensures `Wrote`), `line` and what they rest on.
#![tactic(auto)]

ghost use Rattle.std.specs.Prelude.{◌≡◌, ◌-◌, take, drop};
ghost use Rattle.line.specs.Lines.{lines_of};
ghost use Rattle.output.specs.Pen.{pen, Wrote};
ghost use Rattle.shown.specs.Shown.{hex, shown_byte, blank, shown, blanks, picture, line_in, order_mark, byte_from_42, byte_alone, byte_words, word_in, mission_first};

use line::trimmed;
use output::{put_byte, put_bytes};
use scan::{far_byte_from, is_inside, not_separator_from, same, separator_from, two_from};

// ## A line

fn hex(n: u8) -> u8
    ensures { result ≡ hex n }
{
    let d = n % 16;
    if d < 10 {
        return d + 48;
    }
    d + 87
}

fn put_shown_byte(out: &mut [u8], at: usize, b: u8) -> usize
    ensures { Wrote (pen out.old at) (shown_byte b) (pen out.new result) }
{
    if is_inside(b) {
        return put_byte(out, at, b);
    }
    let a = put_bytes(out, at, b"\\x");
    let c = put_byte(out, a, hex(b / 16));
    put_byte(out, c, hex(b))
}

fn put_shown(out: &mut [u8], at: usize, line: &[u8]) -> usize
    ensures { Wrote (pen out.old at) (shown line.now) (pen out.new result) }
{
    let mut to = at;
    for &b in line {
        to = put_shown_byte(out, to, b);
    }
    to
}

fn put_blank(out: &mut [u8], at: usize, b: u8) -> usize
    ensures { Wrote (pen out.old at) (blank b) (pen out.new result) }
{
    if b == 9 {
        return put_bytes(out, at, b"\t");
    }
    if is_inside(b) {
        return put_bytes(out, at, b" ");
    }
    put_bytes(out, at, b"    ")
}

fn put_blanks(out: &mut [u8], at: usize, line: &[u8]) -> usize
    ensures { Wrote (pen out.old at) (blanks line.now) (pen out.new result) }
{
    let mut to = at;
    for &b in line {
        to = put_blank(out, to, b);
    }
    to
}

// The first n bytes, or all of them.
pub fn first(s: &[u8], n: usize) -> &[u8]
    ensures { result.now ≡ take n s.now }
{
    if n < s.len() { &s[..n] } else { s }
}

// The line, and below it a caret under its byte at this column; nothing without a column.
pub fn put_picture(out: &mut [u8], at: usize, line: &[u8], column: u32) -> usize
    ensures { Wrote (pen out.old at) (picture line.now column) (pen out.new result) }
{
    if column == 0 {
        return at;
    }
    let a = put_shown(out, at, line);
    let b = put_bytes(out, a, b"\n");
    let c = put_blanks(out, b, first(line, column as usize - 1));
    put_bytes(out, c, b"^\n")
}

// ## The line of a text

// Where the lines from this one on begin; behind the text where there is no such line.
fn start_of(text: &[u8], wanted: u32) -> usize
    ensures { lines_of (drop result text.now) ≡ drop (wanted - 1) (lines_of text.now) }
{
    let mut from: usize = 0;
    let mut left = wanted;
    while from < text.len() {
        if left <= 1 {
            return from;
        }
        from = far_byte_from(text, from, 10) + 1;
        left -= 1;
    }
    from
}

// The line of a text with this number, without its CR; of a longer one the first 513 bytes. Empty where there is none.
pub fn line_of(text: &[u8], wanted: u32) -> &[u8]
    ensures { result.now ≡ line_in text.now wanted }
{
    let from = start_of(text, wanted);
    if from < text.len() {
        let e = far_byte_from(text, from, 10);
        let line = &text[from..e];
        first(&line[..trimmed(line)], 513)
    } else {
        &text[..0]
    }
}

// The bytes of a line from this column on; all of them without a column.
pub fn from_column(line: &[u8], column: u32) -> &[u8]
    ensures { result.now ≡ drop (column - 1) line.now }
{
    let from = (column as usize).saturating_sub(1);
    if from < line.len() {
        &line[from..]
    } else {
        &line[..0]
    }
}

// ## A byte in words

// The marks that editors put before a text: those of UTF-8 and of UTF-16.
fn is_order_mark(s: &[u8]) -> bool
    ensures { result ≡ order_mark s.now }
{
    let three = same(first(s, 3), &[239u8, 187, 191]);
    let low = same(first(s, 2), &[255u8, 254]);
    let high = same(first(s, 2), &[254u8, 255]);
    three | (low | high)
}

fn put_byte_from_42(out: &mut [u8], at: usize, b: u8) -> usize
    ensures { Wrote (pen out.old at) (byte_from_42 b) (pen out.new result) }
{
    if b == 42 {
        return put_bytes(out, at, b"an asterisk");
    }
    if b == 92 {
        return put_bytes(out, at, b"a backslash");
    }
    if 127 < b {
        return put_bytes(out, at, b"a letter outside ASCII");
    }
    put_bytes(out, at, b"a control character")
}

fn put_byte_alone(out: &mut [u8], at: usize, b: u8) -> usize
    ensures { Wrote (pen out.old at) (byte_alone b) (pen out.new result) }
{
    if b == 0 {
        return put_bytes(out, at, b"a NUL");
    }
    if b == 13 {
        return put_bytes(out, at, b"a carriage return");
    }
    put_byte_from_42(out, at, b)
}

// The first of these bytes in words; nothing where there is none.
pub fn put_byte_words(out: &mut [u8], at: usize, s: &[u8]) -> usize
    ensures { Wrote (pen out.old at) (byte_words s.now) (pen out.new result) }
{
    if is_order_mark(s) {
        return put_bytes(out, at, b"a byte order mark");
    }
    if 0 < s.len() {
        return put_byte_alone(out, at, s[0]);
    }
    at
}

// ## The first word of a text

// Of a line, before any comment; empty where there is none.
fn word_in(line: &[u8]) -> &[u8]
    ensures { result.now ≡ word_in line.now }
{
    let content = first(line, trimmed(line));
    let s = first(content, two_from(content, 0, b'/', b'*'));
    let start = not_separator_from(s, 0);
    let stop = separator_from(s, start);
    &s[start..stop]
}

// The first word of the text is an MDF's: it is no RNDF, whatever its name.
pub fn is_mission_first(text: &[u8]) -> bool
    ensures { result ≡ mission_first text.now }
{
    let mut from: usize = 0;
    while from < text.len() {
        let e = far_byte_from(text, from, 10);
        let word = word_in(&text[from..e]);
        if 0 < word.len() {
            return same(word, b"MDF_name");
        }
        from = e + 1;
    }
    false
}
