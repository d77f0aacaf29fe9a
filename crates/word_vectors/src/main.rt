// Vectors for `word`: for each line of its input, as a field, what it is in an RNDF, in an MDF and as a boundary, and whether it begins with a
// digit. `stdin` and `stdout` are made by vectors.py from document 01's lists, not from a run. Rests on `word`.
#![tactic(auto)]

use console::{put, put_decimal, read_full};
use std::io;
use std::io::Write;

// A number behind a tab, or `none`.
fn show_number<W: Write>(to: &mut W, n: u8, none: u8) -> io::Result<()> {
    put(to, b"\t")?;
    if n == none {
        put(to, b"none")
    } else {
        put_decimal(to, n as u64)
    }
}

fn show<W: Write>(to: &mut W, field: &[u8]) -> io::Result<()> {
    put(to, field)?;
    show_number(to, word::rndf_keyword(field), 29)?;
    show_number(to, word::mdf_keyword(field), 11)?;
    show_number(to, word::boundary_word(field), 0)?;
    if word::begins_with_digit(field) {
        put(to, b"\tdigit\n")
    } else {
        put(to, b"\tother\n")
    }
}

// Each line of the text that an LF ends.
fn show_lines<W: Write>(to: &mut W, text: &[u8]) -> io::Result<()> {
    let mut from: usize = 0;
    for (i, b) in text.iter().enumerate() {
        if *b == b'\n' {
            show(to, &text[from..i])?;
            from = i + 1;
        }
    }
    Ok(())
}

fn main(rt: HostRuntime) -> io::Result<()> {
    let mut buffer = [0u8; 4096];
    let n = read_full(&mut rt.stdin(), &mut buffer)?;
    show_lines(&mut rt.stdout(), &buffer[..n])
}
