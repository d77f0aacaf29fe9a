// Runs the writers on whole and damaged texts, with outputs of many lengths, and prints for each its reply, how many words of some tables are in use, and every byte of the output.
// The cases stand in the files of `data/`, one behind the other. A case is a line of fixed length, its label and an LF, the RNDF, the MDF and an LF.
// That line is `1` (the RNDF is written) or `2` (the MDF), `3` or `4` the same by the edition of December 6, 2006, and four numbers of four digits: the bytes of the RNDF, of the MDF, of the lent output and of the label.
// No lent word and no byte of the output is zero before the call.
// Printed are the label; the reply (the rows used, each file's own row and the bytes written, or file, line and number); of the segments, the points
// and, behind an MDF, the limits how many words there are up to the last that is not zero; and of the output the same, and these bytes.
// The file `stdout` was not copied from a run: the oracle in tests/oracle, written from document 01 alone, wrote it (tests/writer_vectors.py).
#![tactic(auto)]

ghost use Rattle.std.specs.Prelude.{◌≤◌, length, IfOk};

use console::{put, put_decimal, read_full};
use counts::{Counts, MissionCounts};
use edition::Edition;
use refusal::Refusal;
use rows::{FileRow, MissionFileRow, Stretch};
use std::io::Write;
use std::rt::Files;
use std::{fs, io};
use writer::{write_mdf, write_rndf};
use writings::{WriteMdfReply, WriteReply};

// A case's first line with its LF: a digit and four times a space and four digits.
const HEAD: usize = 22;

// The words lent of each table.
const WORDS: usize = 160;

// The most bytes that are lent for the output.
const BYTES: usize = 4096;

const FULL: u32 = 2779096485;

// ## What is printed

fn put_count<W: Write>(to: &mut W, n: u32) -> io::Result<()> {
    put(to, b" ")?;
    put_decimal(to, n as u64)
}

fn put_size<W: Write>(to: &mut W, n: usize) -> io::Result<()> {
    put(to, b" ")?;
    put_decimal(to, n as u64)
}

// The first n bytes, or all of them.
fn first(s: &[u8], n: usize) -> &[u8] {
    if n < s.len() { &s[..n] } else { s }
}

fn put_stretch<W: Write>(to: &mut W, s: Stretch) -> io::Result<()> {
    put_count(to, s.start)?;
    put_count(to, s.length)
}

fn put_refused<W: Write>(to: &mut W, why: Refusal) -> io::Result<()> {
    put(to, b"refused")?;
    put_count(to, why.file as u32)?;
    put_count(to, why.line)?;
    put_count(to, why.number as u32)?;
    put_count(to, why.column)
}

fn put_accepted<W: Write>(to: &mut W, c: Counts, f: FileRow) -> io::Result<()> {
    put(to, b"written")?;
    put_count(to, c.segments)?;
    put_count(to, c.lanes)?;
    put_count(to, c.zones)?;
    put_count(to, c.spots)?;
    put_count(to, c.points)?;
    put_count(to, c.checkpoints)?;
    put_count(to, c.stops)?;
    put_count(to, c.exits)?;
    put(to, b" file")?;
    put_stretch(to, f.name)?;
    put_stretch(to, f.version)?;
    put_stretch(to, f.date)
}

fn put_mission<W: Write>(to: &mut W, c: MissionCounts, f: MissionFileRow) -> io::Result<()> {
    put(to, b" mission")?;
    put_count(to, c.goals)?;
    put_count(to, c.limits)?;
    put(to, b" file")?;
    put_stretch(to, f.name)?;
    put_stretch(to, f.rndf)?;
    put_stretch(to, f.version)?;
    put_stretch(to, f.date)
}

fn put_bytes_written<W: Write>(to: &mut W, n: u32) -> io::Result<()> {
    put(to, b" bytes")?;
    put_count(to, n)
}

fn put_reply<W: Write>(to: &mut W, reply: WriteReply) -> io::Result<()> {
    match reply {
        Ok((c, f, n)) => {
            put_accepted(to, c, f)?;
            put_bytes_written(to, n)?;
        }
        Err(why) => put_refused(to, why)?,
    }
    put(to, b"\ntables")
}

fn put_mdf_reply<W: Write>(to: &mut W, reply: WriteMdfReply) -> io::Result<()> {
    match reply {
        Ok((c, f, m, g, n)) => {
            put_accepted(to, c, f)?;
            put_mission(to, m, g)?;
            put_bytes_written(to, n)?;
        }
        Err(why) => put_refused(to, why)?,
    }
    put(to, b"\ntables")
}

// ## What is in use: how many there are up to the last that is not zero

fn used_words(t: &[u32]) -> usize
    ensures { result ≤ length t.now }
{
    let mut used: usize = 0;
    for i in 0..t.len() {
        if t[i] != 0 {
            used = i + 1;
        }
    }
    used
}

fn used_signed(t: &[i32]) -> usize
    ensures { result ≤ length t.now }
{
    let mut used: usize = 0;
    for i in 0..t.len() {
        if t[i] != 0 {
            used = i + 1;
        }
    }
    used
}

fn used_bytes(t: &[u8]) -> usize
    ensures { result ≤ length t.now }
{
    let mut used: usize = 0;
    for i in 0..t.len() {
        if t[i] != 0 {
            used = i + 1;
        }
    }
    used
}

fn put_used<W: Write>(to: &mut W, t: &[u32]) -> io::Result<()> {
    put_size(to, used_words(t))
}

fn put_output<W: Write>(to: &mut W, out: &[u8]) -> io::Result<()> {
    let used = used_bytes(out);
    put(to, b"\noutput")?;
    put_size(to, out.len())?;
    put_size(to, used)?;
    put(to, b"\n")?;
    put(to, first(out, used))?;
    put(to, b"\n")
}

// ## The two writers, run

fn show_rndf<W: Write>(
    to: &mut W,
    edition: Edition,
    text: &[u8],
    out: &mut [u8],
) -> io::Result<()> {
    let mut segments = [FULL; WORDS];
    let mut lanes = [FULL; WORDS];
    let mut zones = [FULL; WORDS];
    let mut spots = [FULL; WORDS];
    let mut points = [-77i32; WORDS];
    let mut checkpoints = [FULL; WORDS];
    let mut stops = [FULL; WORDS];
    let mut exits = [FULL; WORDS];
    let reply = write_rndf(
        edition,
        text,
        &mut segments,
        &mut lanes,
        &mut zones,
        &mut spots,
        &mut points,
        &mut checkpoints,
        &mut stops,
        &mut exits,
        out,
    );
    put_reply(to, reply)?;
    put_used(to, &segments)?;
    put_size(to, used_signed(&points))
}

fn show_mdf<W: Write>(
    to: &mut W,
    edition: Edition,
    rndf: &[u8],
    mdf: &[u8],
    out: &mut [u8],
) -> io::Result<()> {
    let mut segments = [FULL; WORDS];
    let mut lanes = [FULL; WORDS];
    let mut zones = [FULL; WORDS];
    let mut spots = [FULL; WORDS];
    let mut points = [-77i32; WORDS];
    let mut checkpoints = [FULL; WORDS];
    let mut stops = [FULL; WORDS];
    let mut exits = [FULL; WORDS];
    let mut goals = [FULL; WORDS];
    let mut limits = [FULL; WORDS];
    let reply = write_mdf(
        edition,
        rndf,
        mdf,
        &mut segments,
        &mut lanes,
        &mut zones,
        &mut spots,
        &mut points,
        &mut checkpoints,
        &mut stops,
        &mut exits,
        &mut goals,
        &mut limits,
        out,
    );
    put_mdf_reply(to, reply)?;
    put_used(to, &segments)?;
    put_size(to, used_signed(&points))?;
    put_used(to, &limits)
}

// ## The cases

// The first n bytes of the output, or all of them.
fn lent(t: &mut [u8], n: usize) -> &mut [u8] {
    if n < t.len() { &mut t[..n] } else { &mut t[..] }
}

// The digit at a place, 0 where there is none.
fn digit(s: &[u8], at: usize) -> usize
    ensures { result ≤ 9 }
{
    if at < s.len() {
        let b = s[at];
        if b >= b'0' {
            if b <= b'9' {
                return (b - b'0') as usize;
            }
        }
    }
    0
}

// The number of that index in a case's first line.
fn number(s: &[u8], index: usize) -> usize
    requires { index ≤ 3 }
    ensures { result ≤ 9999 }
{
    let at = 2 + 5 * index;
    let high = digit(s, at) * 10 + digit(s, at + 1);
    let low = digit(s, at + 2) * 10 + digit(s, at + 3);
    high * 100 + low
}

// The bytes from a place on, so many, or as many as there are.
fn part(s: &[u8], from: usize, n: usize) -> &[u8] {
    if from < s.len() {
        first(&s[from..], n)
    } else {
        first(s, 0)
    }
}

// The edition of a case's first digit: `3` and `4` are `1` and `2` in that of December 6, 2006.
fn edition_in(mode: usize) -> Edition {
    if mode > 2 {
        Edition::December2006
    } else {
        Edition::March2007
    }
}

fn is_pair(mode: usize) -> bool {
    if mode == 2 { true } else { mode == 4 }
}

fn show_in<W: Write>(
    to: &mut W,
    mode: usize,
    rndf: &[u8],
    mdf: &[u8],
    out: &mut [u8],
) -> io::Result<()> {
    let edition = edition_in(mode);
    if is_pair(mode) {
        show_mdf(to, edition, rndf, mdf, out)?;
        put_output(to, out)
    } else {
        show_rndf(to, edition, rndf, out)?;
        put_output(to, out)
    }
}

// Prints one case, and answers its length.
fn show<W: Write>(to: &mut W, s: &[u8]) -> io::Result<usize>
    ensures { IfOk result (λ size. 22 ≤ size) }
{
    let rndf_at = HEAD + number(s, 3) + 1;
    let mdf_at = rndf_at + number(s, 0);
    let behind = mdf_at + number(s, 1);
    put(to, part(s, HEAD, number(s, 3)))?;
    put(to, b"\n")?;
    let rndf = part(s, rndf_at, number(s, 0));
    let mdf = part(s, mdf_at, number(s, 1));
    let mut output = [165u8; BYTES];
    show_in(to, digit(s, 0), rndf, mdf, lent(&mut output, number(s, 2)))?;
    Ok(behind + 1)
}

fn show_all<W: Write>(to: &mut W, s: &[u8]) -> io::Result<()> {
    let mut at: usize = 0;
    while at < s.len() {
        let size = show(to, &s[at..])?;
        if size < s.len() - at {
            at += size;
        } else {
            at = s.len();
        }
    }
    Ok(())
}

fn show_file<R: Files, W: Write>(rt: &R, to: &mut W, path: &str) -> io::Result<()> {
    let mut file = fs::open(rt, path)?;
    let mut input = [0u8; 65536];
    let n = read_full(&mut file, &mut input)?;
    show_all(to, &input[..n])
}

fn main(rt: HostRuntime) -> io::Result<()> {
    let mut to = rt.stdout();
    show_file(&rt, &mut to, "cases_1")?;
    show_file(&rt, &mut to, "cases_2")
}
