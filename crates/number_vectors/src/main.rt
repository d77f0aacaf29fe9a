// Reads lines of a letter, a blank and a field, and says of each field what it is worth, or the refusal it gets:
// i integer, p identifier m.n, t identifier x.y.z, a latitude, o longitude, n name (its length).
// `stdin` has document 01's vectors; `stdout` was worked out from document 01 by `expected.py`, not by this program.
#![tactic(auto)]

use console::{put, put_decimal, read_full};
use coordinate::coordinate_of;
use number::{Id, integer_of, is_name_length, pair_of, triple_of};
use scan::{Until, scan};
use std::io;
use std::io::Write;

fn refused<W: Write>(to: &mut W, n: u64) -> io::Result<()> {
    put(to, b" refused ")?;
    put_decimal(to, n)
}

fn value<W: Write>(to: &mut W, n: u32) -> io::Result<()> {
    put(to, b" ")?;
    put_decimal(to, n as u64)
}

fn signed_value<W: Write>(to: &mut W, z: i32) -> io::Result<()> {
    if z < 0 {
        put(to, b" -")?;
    } else {
        put(to, b" ")?;
    }
    put_decimal(to, z.unsigned_abs() as u64)
}

// Document 01's ranges, which `permitted` tests in the readers.
fn integer_in_range(n: u32) -> bool {
    n <= 32768
}

const MOST_LATITUDE: u32 = 90000000;

const MOST_LONGITUDE: u32 = 180000000;

fn integer<W: Write>(to: &mut W, s: &[u8]) -> io::Result<()> {
    match integer_of(s) {
        Some(n) if integer_in_range(n) => value(to, n),
        Some(_) => refused(to, 9),
        None => refused(to, 8),
    }
}

fn good_pair(m: u32, n: u32) -> bool {
    integer_in_range(m) && integer_in_range(n)
}

fn pair<W: Write>(to: &mut W, s: &[u8]) -> io::Result<()> {
    match pair_of(s) {
        Some((m, n)) if good_pair(m, n) => {
            value(to, m)?;
            value(to, n)
        }
        Some(_) => refused(to, 9),
        None => refused(to, 8),
    }
}

fn good_triple(id: Id) -> bool {
    integer_in_range(id.x) && good_pair(id.y, id.z)
}

fn triple<W: Write>(to: &mut W, s: &[u8]) -> io::Result<()> {
    match triple_of(s) {
        Some(id) if good_triple(id) => {
            value(to, id.x)?;
            value(to, id.y)?;
            value(to, id.z)
        }
        Some(_) => refused(to, 9),
        None => refused(to, 8),
    }
}

// A latitude or a longitude: up to `most`, north or south, east or west.
fn coordinate<W: Write>(to: &mut W, s: &[u8], most: u32) -> io::Result<()> {
    match coordinate_of(s) {
        Some(z) if z.unsigned_abs() <= most => signed_value(to, z),
        Some(_) => refused(to, 9),
        None => refused(to, 8),
    }
}

fn name<W: Write>(to: &mut W, n: usize) -> io::Result<()> {
    if is_name_length(n) {
        put(to, b" ")?;
        put_decimal(to, n as u64)
    } else {
        refused(to, 8)
    }
}

fn field<W: Write>(to: &mut W, kind: u8, s: &[u8]) -> io::Result<()> {
    match kind {
        b'i' => integer(to, s),
        b'p' => pair(to, s),
        b't' => triple(to, s),
        b'a' => coordinate(to, s, MOST_LATITUDE),
        b'o' => coordinate(to, s, MOST_LONGITUDE),
        _ => name(to, s.len()),
    }
}

fn line<W: Write>(to: &mut W, s: &[u8]) -> io::Result<()> {
    if 1 < s.len() {
        put(to, s)?;
        put(to, b":")?;
        field(to, s[0], &s[2..])?;
        put(to, b"\n")?;
    }
    Ok(())
}

fn lines<W: Write>(to: &mut W, t: &[u8]) -> io::Result<()> {
    let mut at: usize = 0;
    while at < t.len() {
        let stop = scan(t, at, Until::Byte(b'\n'));
        line(to, &t[at..stop])?;
        at = stop + 1;
    }
    Ok(())
}

fn main(rt: HostRuntime) -> io::Result<()> {
    let mut space = [0u8; 4096];
    let n = read_full(&mut rt.stdin(), &mut space)?;
    lines(&mut rt.stdout(), &space[..n])
}
