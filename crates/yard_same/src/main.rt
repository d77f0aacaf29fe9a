// The planners' comparison: `yard_same A B`, the names of two RNDF files, with `--edition 2006` in front of them as `yard_check` takes it. It prints `the same yard` where both mean the same network apart from creation dates
// (request L14), that is, where their house writings are equal; else `not the same yard`, the first line of the house writings in which they differ, of both, and the part that was opened last before it; or what is wrong with a file, in the words of `yard_check`; or why it could not
// be taken. What is wrong with the first file is told before anything about the second. `run-same` builds and runs it, and adds a status.
//
// Nothing is promised of what is printed (no contract can say it). What is written of each file is `write_rndf`'s, which line differs first `compared`'s, both proved there; that equal writings are the same yard, `filed`'s.
//
// Memory: there is no heap, and the usual stack has 8 MiB. So a text may have 1,048,576 bytes, and every table has the rows that such a text can fill, as in `yard_check`. One text and one set of tables serve for both
// files, one after the other; the two outputs stay. 11 and 19 should never come of it (counted by hand, not proved; if they came, they would be told). A larger file is too big for
// this program; of one over 16,777,215 bytes the answer is known without it: 1.
#![tactic(auto)]

use answers::put_sentence;
use compared::put_compared;
use console::put;
use edition::Edition;
use expected::put_expected_line;
use files::{Loaded, argument, argument_count, is_argument, load, put_trouble};
use shown::first;
use std::io;
use std::io::Write;
use std::rt::{Env, Files};
use writer::write_rndf;
use writings::WriteReply;

const MOST_BYTES: usize = 1048576;

// A house line has the fields of the text's line, each in its only spelling (`-0.000000` without the sign), with one byte between them and an LF: so it is no longer than that line, but for the LF of an unfinished last one.
const MOST_WRITING: usize = MOST_BYTES + 1;

// The longest name that a system opens.
const MOST_NAME: usize = 4095;

// Room for two names with a line of 512 bytes each; or for one, a reason, a line of 513 bytes with what stands below it, four to each, and what may stand there (512).
const MOST_ANSWER: usize = 9728;

// The words of each table, as in `yard_check`.
const SEGMENT_WORDS: usize = 4 * (MOST_BYTES / 92 + 1);

const LANE_WORDS: usize = 5 * (MOST_BYTES / 58 + 1);

const ZONE_WORDS: usize = 6 * (MOST_BYTES / 102 + 1);

const SPOT_WORDS: usize = 2 * (MOST_BYTES / 66 + 1);

const POINT_WORDS: usize = 2 * (MOST_BYTES / 24 + 1);

const CHECKPOINT_WORDS: usize = 2 * (MOST_BYTES / 19 + 1);

const STOP_WORDS: usize = MOST_BYTES / 11 + 1;

const EXIT_WORDS: usize = 2 * (MOST_BYTES / 17 + 1);

// ## What is said

fn say<W: Write>(to: &mut W, s: &[u8]) -> io::Result<()> {
    put(to, s)
}

// As `yard_check` says it: the sentence, and what may stand there.
fn say_refused<W: Write>(
    to: &mut W,
    edition: Edition,
    name: &[u8],
    text: &[u8],
    line: u32,
    number: u8,
    column: u32,
) -> io::Result<()> {
    let mut out = [0u8; MOST_ANSWER];
    let a = put_sentence(&mut out, 0, name, text, line, number, column);
    let n = put_expected_line(&mut out, a, edition, text, b"", 1, line, number);
    say(to, first(&out, n))
}

// What is the matter with the file.
fn say_matter<W: Write>(to: &mut W, name: &[u8], loaded: Loaded) -> io::Result<()> {
    let mut out = [0u8; MOST_ANSWER];
    let n = put_trouble(
        &mut out,
        0,
        name,
        b": the file is too big for this program, which takes up to 1,048,576 bytes\n",
        loaded,
    );
    say(to, first(&out, n))
}

// What is told of the two writings.
fn say_compared<W: Write>(
    to: &mut W,
    name: &[u8],
    other: &[u8],
    a: &[u8],
    b: &[u8],
) -> io::Result<()> {
    let mut out = [0u8; MOST_ANSWER];
    let n = put_compared(&mut out, 0, name, other, a, b);
    say(to, first(&out, n))
}

// ## The writings

// Tables and output are lent as arrays up to here, which is cheaper to prove.
fn write(
    edition: Edition,
    out: &mut [u8; MOST_WRITING],
    text: &[u8],
    segments: &mut [u32; SEGMENT_WORDS],
    lanes: &mut [u32; LANE_WORDS],
    zones: &mut [u32; ZONE_WORDS],
    spots: &mut [u32; SPOT_WORDS],
    points: &mut [i32; POINT_WORDS],
    checkpoints: &mut [u32; CHECKPOINT_WORDS],
    stops: &mut [u32; STOP_WORDS],
    exits: &mut [u32; EXIT_WORDS],
) -> WriteReply {
    write_rndf(
        edition,
        text,
        segments,
        lanes,
        zones,
        spots,
        points,
        checkpoints,
        stops,
        exits,
        out,
    )
}

fn file_text<W: Write>(
    to: &mut W,
    edition: Edition,
    out: &mut [u8; MOST_WRITING],
    name: &[u8],
    text: &[u8],
) -> io::Result<Option<usize>> {
    let mut segments = [0u32; SEGMENT_WORDS];
    let mut lanes = [0u32; LANE_WORDS];
    let mut zones = [0u32; ZONE_WORDS];
    let mut spots = [0u32; SPOT_WORDS];
    let mut points = [0i32; POINT_WORDS];
    let mut checkpoints = [0u32; CHECKPOINT_WORDS];
    let mut stops = [0u32; STOP_WORDS];
    let mut exits = [0u32; EXIT_WORDS];
    let reply = write(
        edition,
        out,
        text,
        &mut segments,
        &mut lanes,
        &mut zones,
        &mut spots,
        &mut points,
        &mut checkpoints,
        &mut stops,
        &mut exits,
    );
    match reply {
        Ok((_, _, n)) => Ok(Some(n as usize)),
        Err(why) => {
            say_refused(to, edition, name, text, why.line, why.number, why.column)?;
            Ok(None)
        }
    }
}

fn file_name<R: Files, W: Write>(
    rt: &R,
    to: &mut W,
    edition: Edition,
    out: &mut [u8; MOST_WRITING],
    name: &[u8],
) -> io::Result<Option<usize>> {
    let mut text = [0u8; MOST_BYTES];
    let loaded = load(rt, name, &mut text);
    match loaded {
        Loaded::Bytes(n) => file_text(to, edition, out, name, first(&text, n)),
        Loaded::OverLimit => {
            say_refused(to, edition, name, b"", 0, 1, 0)?;
            Ok(None)
        }
        _ => {
            say_matter(to, name, loaded)?;
            Ok(None)
        }
    }
}

fn print<W: Write>(
    to: &mut W,
    name: &[u8],
    other: &[u8],
    a: &[u8; MOST_WRITING],
    n: usize,
    b: &[u8; MOST_WRITING],
    m: usize,
) -> io::Result<()> {
    say_compared(to, name, other, first(a, n), first(b, m))
}

// The second, where there is a writing of the first.
fn with_first<R: Files, W: Write>(
    rt: &R,
    to: &mut W,
    edition: Edition,
    name: &[u8],
    other: &[u8],
    a: &[u8; MOST_WRITING],
    n: usize,
) -> io::Result<()> {
    let mut b = [0u8; MOST_WRITING];
    let filed = file_name(rt, to, edition, &mut b, other)?;
    match filed {
        Some(m) => print(to, name, other, a, n, &b, m),
        None => Ok(()),
    }
}

fn with_names<R: Files, W: Write>(
    rt: &R,
    to: &mut W,
    edition: Edition,
    name: &[u8],
    other: &[u8],
) -> io::Result<()> {
    let mut a = [0u8; MOST_WRITING];
    let filed = file_name(rt, to, edition, &mut a, name)?;
    match filed {
        Some(n) => with_first(rt, to, edition, name, other, &a, n),
        None => Ok(()),
    }
}

// ## What is asked

fn say_usage<W: Write>(to: &mut W) -> io::Result<()> {
    say(to, b"Name two RNDF files: run-same [--edition 2006] A B\n")
}

fn say_help<W: Write>(to: &mut W) -> io::Result<()> {
    say_usage(to)?;
    say(
        to,
        b"With --edition 2006 both are read by the edition of December 6, 2006; without, or with --edition 2007, by the present one.\n",
    )?;
    say(
        to,
        b"Two files are the same yard if they mean the same network apart from creation dates: comments, spacing and the order of different options do not count, the order of checkpoints, stops and exits does.\n",
    )?;
    say(
        to,
        b"The answer is that they are, or that they are not, with the first line of their house writings in which they differ and its part; or what is wrong with a file, as run-check says it.\n",
    )?;
    say(
        to,
        b"A file may have up to 1,048,576 bytes. The status is 0 the same, 1 not the same or refused, 2 not tried.\n",
    )
}

// The names are the arguments at these places.
fn with_arguments<R: Env + Files, W: Write>(
    rt: &R,
    to: &mut W,
    edition: Edition,
    at: usize,
    other_at: usize,
) -> io::Result<()> {
    let mut name = [0u8; MOST_NAME];
    let one = argument(rt, at, &mut name);
    let mut other = [0u8; MOST_NAME];
    let two = argument(rt, other_at, &mut other);
    match one {
        None => say(to, b"A file's name is over 4,095 bytes.\n"),
        Some(n) => {
            match two {
                None => say(to, b"A file's name is over 4,095 bytes.\n"),
                Some(m) => with_names(rt, to, edition, first(&name, n), first(&other, m)),
            }
        }
    }
}

// The names are this argument and the next, and there are no more; or it is the question how to ask.
fn with_names_at<R: Env + Files, W: Write>(
    rt: &R,
    to: &mut W,
    edition: Edition,
    at: usize,
) -> io::Result<()> {
    let count = argument_count(rt);
    if is_argument(rt, at, b"--help") | is_argument(rt, at, b"-h") {
        say_help(to)
    } else if count <= at {
        say_usage(to)
    } else if count - at != 2 {
        say_usage(to)
    } else {
        with_arguments(rt, to, edition, at, at + 1)
    }
}

fn main(rt: HostRuntime) -> io::Result<()> {
    let mut to = rt.stdout();
    if !is_argument(&rt, 1, b"--edition") {
        with_names_at(&rt, &mut to, Edition::March2007, 1)
    } else if is_argument(&rt, 2, b"2006") {
        with_names_at(&rt, &mut to, Edition::December2006, 3)
    } else if is_argument(&rt, 2, b"2007") {
        with_names_at(&rt, &mut to, Edition::March2007, 3)
    } else {
        say_usage(&mut to)
    }
}
