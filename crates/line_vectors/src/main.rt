// Runs `line` on every form that document 01 names under "Lines, comments, fields", and prints what each line of each text is.
// The texts are in the file `stdin`: each is a label, the byte 253, the text, the byte 254.
// The file `stdout` was not copied from a run: a small Python script, written from document 01 and
// READINGS 4 to 7 alone (split at LF, regular expressions for comment and bytes, split at tabs and spaces), wrote
// both files from a list of labels and texts.
// A line is printed as its number, and `refused` with 2, 3 or 4, or `blank`, or how many fields it has (4: more
// than three) and the first three, each as start in the text + length, with its bytes if they are at most 32.
#![tactic(auto)]

ghost use Rattle.std.specs.Prelude.{◌+◌, ◌≤◌, length};
ghost use Rattle.line.specs.Forms.{SpanWithin};

use console::{put, put_decimal, read_full};
use line::{Span, fields_of, form_of, trimmed};
use scan::{Until, scan};
use std::io;
use std::io::Write;

fn put_number<W: Write>(to: &mut W, n: usize) -> io::Result<()> {
    put_decimal(to, n as u64)
}

fn put_span<W: Write>(to: &mut W, s: &[u8], from: usize, f: Span) -> io::Result<()>
    requires span_within { SpanWithin s.now f }
    requires s_bound { from + length s.now ≤ 18446744073709551615 }
{
    let start = f.start;
    let stop = f.stop;
    put(to, b", ")?;
    put_number(to, from + start)?;
    put(to, b"+")?;
    put_number(to, stop - start)?;
    if stop - start <= 32 {
        put(to, b" ")?;
        put(to, &s[start..stop])?;
    }
    Ok(())
}

// How many fields there are.
fn put_count<W: Write>(to: &mut W, count: u8) -> io::Result<()> {
    if count == 0 {
        put(to, b"blank")
    } else {
        put(to, b"fields ")?;
        put_number(to, count as usize)
    }
}

fn put_fields<W: Write>(to: &mut W, s: &[u8], from: usize) -> io::Result<()>
    requires { from + length s.now ≤ 18446744073709551615 }
{
    let r = fields_of(s);
    put_count(to, r.count)?;
    if 0 < r.count {
        put_span(to, s, from, r.a)?;
    }
    if 1 < r.count {
        put_span(to, s, from, r.b)?;
    }
    if 2 < r.count {
        put_span(to, s, from, r.c)?;
    }
    Ok(())
}

fn put_content<W: Write>(to: &mut W, s: &[u8], from: usize) -> io::Result<()>
    requires { from + length s.now ≤ 18446744073709551615 }
{
    let f = form_of(s);
    match f {
        Err(n) => {
            put(to, b"refused ")?;
            put_number(to, n as usize)
        }
        Ok(e) => put_fields(to, &s[..e], from),
    }
}

fn put_line<W: Write>(to: &mut W, s: &[u8], from: usize, number: usize) -> io::Result<()>
    requires { from + length s.now ≤ 18446744073709551615 }
{
    put_number(to, number)?;
    put(to, b": ")?;
    let k = trimmed(s);
    put_content(to, &s[..k], from)?;
    put(to, b"\n")
}

// The lines of a text, as every loop over lines goes: on from the LF found, or the end, plus one. Answers how many there are.
fn put_lines<W: Write>(to: &mut W, text: &[u8]) -> io::Result<usize>
    requires { length text.now ≤ 16777215 }
{
    let mut from: usize = 0;
    let mut number: usize = 0;
    while from < text.len() {
        let stop = scan(text, from, Until::Byte(b'\n'));
        number += 1;
        put_line(to, &text[from..stop], from, number)?;
        from = stop + 1;
    }
    Ok(number)
}

// One text with its label in front.
fn show<W: Write>(to: &mut W, piece: &[u8]) -> io::Result<()>
    requires { length piece.now ≤ 16777215 }
{
    let mark = scan(piece, 0, Until::Byte(253));
    if mark < piece.len() {
        put(to, &piece[..mark])?;
        let k = mark + 1;
        let lines = put_lines(to, &piece[k..])?;
        put(to, b"lines ")?;
        put_number(to, lines)?;
        put(to, b"\n")?;
    }
    Ok(())
}

fn show_all<W: Write>(to: &mut W, s: &[u8]) -> io::Result<()>
    requires { length s.now ≤ 16777215 }
{
    let mut from: usize = 0;
    while from < s.len() {
        let stop = scan(s, from, Until::Byte(254));
        show(to, &s[from..stop])?;
        from = stop + 1;
    }
    Ok(())
}

fn main(rt: HostRuntime) -> io::Result<()> {
    let mut input = [0u8; 65536];
    let n = read_full(&mut rt.stdin(), &mut input)?;
    show_all(&mut rt.stdout(), &input[..n])
}
