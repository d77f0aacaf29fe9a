// The planners' map: `yard_map RNDF`, the name of a file, with `--edition 2006` in front of it as `yard_check` takes it. It prints the network's map (GeoJSON, docs/GEOJSON.md) on standard output; or, on standard error, what
// is wrong, with the file's name, the line, the column, the reason and its number, in the words of `yard_check`; or why the file could not be taken. Standard output is then
// empty. `run-map` builds and runs it, and adds a status.
//
// Nothing is promised of what is printed (no contract can say it); what is written is `write_map`'s, and proved there.
//
// Memory: there is no heap, and the usual stack has 8 MiB. So a text may have 524,288 bytes, every table has the rows that such a text can fill, as in `yard_check`, and the
// output has eight bytes to each of the text: 11 and 19 should never come of it (counted by hand, not proved; if they came, they would be told). A larger file is too big for
// this program; of one over 16,777,215 bytes the answer is known without it: 1.
#![tactic(auto)]

use answers::put_sentence;
use console::put;
use edition::Edition;
use expected::put_expected_line;
use files::{Loaded, argument, argument_count, is_argument, load, put_trouble};
use map_writer::write_map;
use shown::first;
use std::io;
use std::io::Write;
use std::rt::{Env, Files};
use writings::WriteReply;

const MOST_BYTES: usize = 524288;

// The most that a byte of text can give is in a lane of one point (58 bytes) under a name of 128 quotation marks, 6.7 bytes, and in a checkpoint (19 bytes), 7.6.
const MOST_MAP: usize = 8 * MOST_BYTES;

// The longest name that a system opens.
const MOST_NAME: usize = 4095;

// Room for a name, a reason, a line of 513 bytes with what stands below it, four to each, and what may stand there (512).
const MOST_ANSWER: usize = 9216;

// The words of each table, as in `yard_check`.
const SEGMENT_WORDS: usize = 4 * (MOST_BYTES / 92 + 1);

const LANE_WORDS: usize = 5 * (MOST_BYTES / 58 + 1);

const ZONE_WORDS: usize = 6 * (MOST_BYTES / 102 + 1);

const SPOT_WORDS: usize = 2 * (MOST_BYTES / 66 + 1);

const POINT_WORDS: usize = 2 * (MOST_BYTES / 24 + 1);

const CHECKPOINT_WORDS: usize = 2 * (MOST_BYTES / 19 + 1);

const STOP_WORDS: usize = MOST_BYTES / 11 + 1;

const EXIT_WORDS: usize = 2 * (MOST_BYTES / 17 + 1);

// ## What is said instead of a map

fn say<W: Write>(to: &mut W, s: &[u8]) -> io::Result<()> {
    put(to, s)
}

// As `yard_check` says it: the sentence, and what may stand there.
fn say_refused<W: Write>(
    to: &mut W,
    edition: Edition,
    name: &[u8],
    text: &[u8],
    line: u32,
    number: u8,
    column: u32,
) -> io::Result<()> {
    let mut out = [0u8; MOST_ANSWER];
    let a = put_sentence(&mut out, 0, name, text, line, number, column);
    let n = put_expected_line(&mut out, a, edition, text, b"", 1, line, number);
    say(to, first(&out, n))
}

// What is the matter with the file.
fn say_matter<W: Write>(to: &mut W, name: &[u8], loaded: Loaded) -> io::Result<()> {
    let mut out = [0u8; MOST_ANSWER];
    let n = put_trouble(
        &mut out,
        0,
        name,
        b": the file is too big for this program, which takes up to 524,288 bytes\n",
        loaded,
    );
    say(to, first(&out, n))
}

// ## The map

// Tables and output are lent as arrays up to here, which is cheaper to prove.
fn draw(
    edition: Edition,
    out: &mut [u8; MOST_MAP],
    text: &[u8],
    segments: &mut [u32; SEGMENT_WORDS],
    lanes: &mut [u32; LANE_WORDS],
    zones: &mut [u32; ZONE_WORDS],
    spots: &mut [u32; SPOT_WORDS],
    points: &mut [i32; POINT_WORDS],
    checkpoints: &mut [u32; CHECKPOINT_WORDS],
    stops: &mut [u32; STOP_WORDS],
    exits: &mut [u32; EXIT_WORDS],
) -> WriteReply {
    write_map(
        edition,
        text,
        segments,
        lanes,
        zones,
        spots,
        points,
        checkpoints,
        stops,
        exits,
        out,
    )
}

fn print<P: Write>(page: &mut P, out: &[u8; MOST_MAP], n: u32) -> io::Result<()> {
    put(page, first(out, n as usize))
}

fn show<P: Write, W: Write>(
    page: &mut P,
    to: &mut W,
    edition: Edition,
    name: &[u8],
    text: &[u8],
) -> io::Result<()> {
    let mut segments = [0u32; SEGMENT_WORDS];
    let mut lanes = [0u32; LANE_WORDS];
    let mut zones = [0u32; ZONE_WORDS];
    let mut spots = [0u32; SPOT_WORDS];
    let mut points = [0i32; POINT_WORDS];
    let mut checkpoints = [0u32; CHECKPOINT_WORDS];
    let mut stops = [0u32; STOP_WORDS];
    let mut exits = [0u32; EXIT_WORDS];
    let mut out = [0u8; MOST_MAP];
    let reply = draw(
        edition,
        &mut out,
        text,
        &mut segments,
        &mut lanes,
        &mut zones,
        &mut spots,
        &mut points,
        &mut checkpoints,
        &mut stops,
        &mut exits,
    );
    match reply {
        Ok((_, _, n)) => print(page, &out, n),
        Err(why) => say_refused(to, edition, name, text, why.line, why.number, why.column),
    }
}

fn with_name<R: Files, P: Write, W: Write>(
    rt: &R,
    page: &mut P,
    to: &mut W,
    edition: Edition,
    name: &[u8],
) -> io::Result<()> {
    let mut text = [0u8; MOST_BYTES];
    let loaded = load(rt, name, &mut text);
    match loaded {
        Loaded::Bytes(n) => show(page, to, edition, name, first(&text, n)),
        Loaded::OverLimit => say_refused(to, edition, name, b"", 0, 1, 0),
        _ => say_matter(to, name, loaded),
    }
}

// ## What is asked

fn say_usage<W: Write>(to: &mut W) -> io::Result<()> {
    say(to, b"Name one RNDF file: run-map [--edition 2006] FILE\n")
}

fn with_argument<R: Env + Files, P: Write, W: Write>(
    rt: &R,
    page: &mut P,
    to: &mut W,
    edition: Edition,
    at: usize,
) -> io::Result<()> {
    let mut name = [0u8; MOST_NAME];
    let given = argument(rt, at, &mut name);
    match given {
        None => say(to, b"The file's name is over 4,095 bytes.\n"),
        Some(n) => with_name(rt, page, to, edition, first(&name, n)),
    }
}

// The name is this argument, and the last.
fn with_name_at<R: Env + Files, P: Write, W: Write>(
    rt: &R,
    page: &mut P,
    to: &mut W,
    edition: Edition,
    at: usize,
) -> io::Result<()> {
    let count = argument_count(rt);
    if count <= at {
        say_usage(to)
    } else if count - at > 1 {
        say_usage(to)
    } else {
        with_argument(rt, page, to, edition, at)
    }
}

fn main(rt: HostRuntime) -> io::Result<()> {
    let mut page = rt.stdout();
    let mut to = rt.stderr();
    if !is_argument(&rt, 1, b"--edition") {
        with_name_at(&rt, &mut page, &mut to, Edition::March2007, 1)
    } else if is_argument(&rt, 2, b"2006") {
        with_name_at(&rt, &mut page, &mut to, Edition::December2006, 3)
    } else if is_argument(&rt, 2, b"2007") {
        with_name_at(&rt, &mut page, &mut to, Edition::March2007, 3)
    } else {
        say_usage(&mut to)
    }
}
