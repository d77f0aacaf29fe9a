// The planners' check of a packed network: `yard_unpack FILE`, the name of a file. It answers on standard output, in the words of `yard_check`, what the packed yard (request L11, docs/PACKED.md) holds, the rows
// used; or why its bytes are refused, with the file's name, the reason and its number; or why the file could not be taken. `run-unpack` builds and runs it, and adds a status.
//
// Proved is what goes into the output: the sentence (crate `answers`) of what the unpacker (crate `unpacker`) replies to these bytes, specs/Tells. That the bytes are the file's, and that the output is what is
// printed, no contract can say.
//
// Memory: there is no heap, and the usual stack has 8 MiB. So a form may have 1,048,576 bytes, and every table has the rows that so many bytes can hold, so 11 should never come of it (counted by hand below, not
// proved; if it came, it would be told). What `yard_pack` writes is shorter. A larger file is too big for this program; of one over 16,777,215 bytes the answer is known without it: 1.
#![tactic(auto)]

ghost use Rattle.law.specs.Tables.{lent};
ghost use Rattle.yard_unpack.specs.Tells.{TellsPacked};

use answers::{put_rndf_answer, put_sentence};
use console::put;
use files::{Loaded, argument, argument_count, is_argument, load, put_trouble};
use shown::first;
use std::io;
use std::io::Write;
use std::rt::{Env, Files};
use unpacker::read_packed;

const MOST_BYTES: usize = 1048576;

// The longest name that a system opens.
const MOST_NAME: usize = 4095;

// Room for a name (4,095 bytes) and eight counts with their words, or a reason.
const MOST_ANSWER: usize = 8704;

// The words of each table: so many to a row, and as many rows as the shortest records that give one leave room for, with their lengths. A point has 10 bytes, a lane around it 22, a segment
// around that 32, a zone with one point 26, a spot with its two 28; a checkpoint has 8, a stop 6, an exit 10.
const SEGMENT_WORDS: usize = 4 * (MOST_BYTES / 32 + 1);

const LANE_WORDS: usize = 5 * (MOST_BYTES / 22 + 1);

const ZONE_WORDS: usize = 6 * (MOST_BYTES / 26 + 1);

const SPOT_WORDS: usize = 2 * (MOST_BYTES / 28 + 1);

const POINT_WORDS: usize = 2 * (MOST_BYTES / 10 + 1);

const CHECKPOINT_WORDS: usize = 2 * (MOST_BYTES / 8 + 1);

const STOP_WORDS: usize = MOST_BYTES / 6 + 1;

const EXIT_WORDS: usize = 2 * (MOST_BYTES / 10 + 1);

// ## What is told of bytes

// A refusal of packed bytes names no line, so no text is shown with it.
fn tell_packed(
    out: &mut [u8],
    name: &[u8],
    bytes: &[u8],
    segments: &mut [u32; SEGMENT_WORDS],
    lanes: &mut [u32; LANE_WORDS],
    zones: &mut [u32; ZONE_WORDS],
    spots: &mut [u32; SPOT_WORDS],
    points: &mut [i32; POINT_WORDS],
    checkpoints: &mut [u32; CHECKPOINT_WORDS],
    stops: &mut [u32; STOP_WORDS],
    exits: &mut [u32; EXIT_WORDS],
) -> usize
    ensures { TellsPacked name.now bytes.now (lent segments.old lanes.old zones.old spots.old points.old checkpoints.old stops.old exits.old) (lent segments.new lanes.new zones.new spots.new points.new checkpoints.new stops.new exits.new) out.old out.new result }
{
    let reply = read_packed(
        bytes,
        segments,
        lanes,
        zones,
        spots,
        points,
        checkpoints,
        stops,
        exits,
    );
    put_rndf_answer(out, 0, name, b"", b"", reply)
}

// ## The file

fn say<W: Write>(to: &mut W, s: &[u8]) -> io::Result<()> {
    put(to, s)
}

// What is the matter with the file, as `files` says it.
fn say_matter<W: Write>(to: &mut W, name: &[u8], loaded: Loaded) -> io::Result<()> {
    let mut out = [0u8; MOST_ANSWER];
    let n = put_trouble(
        &mut out,
        0,
        name,
        b": the file is too big for this program, which takes up to 1,048,576 bytes\n",
        loaded,
    );
    say(to, first(&out, n))
}

// Of a file over the unpacker's limit.
fn say_over_limit<W: Write>(to: &mut W, name: &[u8]) -> io::Result<()> {
    let mut out = [0u8; MOST_ANSWER];
    let n = put_sentence(&mut out, 0, name, b"", 0, 1, 0);
    say(to, first(&out, n))
}

// ## What is asked

fn judge<W: Write>(to: &mut W, name: &[u8], bytes: &[u8]) -> io::Result<()> {
    let mut segments = [0u32; SEGMENT_WORDS];
    let mut lanes = [0u32; LANE_WORDS];
    let mut zones = [0u32; ZONE_WORDS];
    let mut spots = [0u32; SPOT_WORDS];
    let mut points = [0i32; POINT_WORDS];
    let mut checkpoints = [0u32; CHECKPOINT_WORDS];
    let mut stops = [0u32; STOP_WORDS];
    let mut exits = [0u32; EXIT_WORDS];
    let mut out = [0u8; MOST_ANSWER];
    let told = tell_packed(
        &mut out,
        name,
        bytes,
        &mut segments,
        &mut lanes,
        &mut zones,
        &mut spots,
        &mut points,
        &mut checkpoints,
        &mut stops,
        &mut exits,
    );
    say(to, first(&out, told))
}

fn with_name<R: Files, W: Write>(rt: &R, to: &mut W, name: &[u8]) -> io::Result<()> {
    let mut bytes = [0u8; MOST_BYTES];
    let loaded = load(rt, name, &mut bytes);
    match loaded {
        Loaded::Bytes(n) => judge(to, name, first(&bytes, n)),
        Loaded::OverLimit => say_over_limit(to, name),
        _ => say_matter(to, name, loaded),
    }
}

fn say_usage<W: Write>(to: &mut W) -> io::Result<()> {
    say(to, b"Name one packed file: run-unpack FILE\n")
}

fn say_help<W: Write>(to: &mut W) -> io::Result<()> {
    say_usage(to)?;
    say(
        to,
        b"The answer is what the packed yard holds, or why its bytes are refused, as FILE: reason (NUMBER).\n",
    )?;
    say(
        to,
        b"A file may have up to 1,048,576 bytes. The status is 0 accepted, 1 refused, 2 not tried.\n",
    )
}

fn with_argument<R: Env + Files, W: Write>(rt: &R, to: &mut W) -> io::Result<()> {
    let mut name = [0u8; MOST_NAME];
    let given = argument(rt, 1, &mut name);
    match given {
        None => say(to, b"The file's name is over 4,095 bytes.\n"),
        Some(n) => with_name(rt, to, first(&name, n)),
    }
}

// One name, or the question how to ask.
fn main(rt: HostRuntime) -> io::Result<()> {
    let mut to = rt.stdout();
    if is_argument(&rt, 1, b"--help") | is_argument(&rt, 1, b"-h") {
        say_help(&mut to)
    } else if argument_count(&rt) == 2 {
        with_argument(&rt, &mut to)
    } else {
        say_usage(&mut to)
    }
}
