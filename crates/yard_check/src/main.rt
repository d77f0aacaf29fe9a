// The planners' program: `yard_check RNDF`, or `yard_check RNDF MDF`, names of files. With `--edition 2006` in front the RNDF is read by the edition of December 6,
// 2006 (L10), with `--edition 2007` or without by the present one. It answers on standard output: what is wrong, with the file's name, the line, the column, the reason and its number, below it the line with a caret, and what may stand there; or the rows used; or why a file could not be checked. What is
// wrong with the RNDF is told before anything about the MDF. `run-check` builds and runs it, and adds a status.
//
// Proved is what goes into the output: the sentence (crate `answers`) of what the readers (crate `reader`) reply to these bytes and what may stand where they refuse them (crate `expected`), specs/Tells, and the sentence of a file
// that can't be taken (crate `files`). That the bytes are the file's, and that the output is what is printed, no contract can say.
//
// Memory: there is no heap, a program can't raise its stack, and the usual stack has 8 MiB. So a text may have 1,048,576 bytes, and every table has the
// rows that a text of so many bytes can fill, so 11 should never come of it (counted by hand below, not proved; if it came, it would be told). A larger file is too big for this program; of an RNDF over 16,777,215 bytes the
// readers' answer is known without them: 1. (An MDF's 1 would come behind everything about the RNDF.)
#![tactic(auto)]

ghost use Rattle.law.specs.Tables.{lent, mission_lent};
ghost use Rattle.output.specs.Pen.{pen, Wrote};
ghost use Rattle.yard_check.specs.Tells.{may_stand, rndf_may_stand, pair_may_stand, TellsRndf, TellsPair};

use answers::{put_pair_answer, put_rndf_answer, put_sentence};
use console::put;
use edition::Edition;
use expected::put_expected_line;
use files::{Loaded, argument, argument_count, is_argument, load, load_rndf, put_trouble};
use reader::{read_pair, read_rndf};
use refusal::Refusal;
use replies::{PairReply, RndfReply};
use scan::same;
use shown::first;
use std::io;
use std::io::Write;
use std::rt::{Env, Files};

const MOST_BYTES: usize = 1048576;

// The longest name that a system opens.
const MOST_NAME: usize = 4095;

// Room for two names (8,190 bytes) and ten counts with their words; or for one name, a reason, a line of 513 bytes with what stands below it, four to each, and what may stand there (512).
const MOST_ANSWER: usize = 9216;

// The words of each table: so many to a row, and as many rows as the shortest lines that give one leave room for, with their LFs. The shortest point
// has 24 bytes (`1.1.1 0.000000 0.000000`), a lane around it 58, a segment around that 92, a zone with one point 102, a spot 66;
// `checkpoint 1.1.1 1` has 19, `stop 1.1.1` 11, `exit 1.1.1 1.1.1` 17. An MDF declares at most 32,768 goals and as many limits.
const SEGMENT_WORDS: usize = 4 * (MOST_BYTES / 92 + 1);

const LANE_WORDS: usize = 5 * (MOST_BYTES / 58 + 1);

const ZONE_WORDS: usize = 6 * (MOST_BYTES / 102 + 1);

const SPOT_WORDS: usize = 2 * (MOST_BYTES / 66 + 1);

const POINT_WORDS: usize = 2 * (MOST_BYTES / 24 + 1);

const CHECKPOINT_WORDS: usize = 2 * (MOST_BYTES / 19 + 1);

const STOP_WORDS: usize = MOST_BYTES / 11 + 1;

const EXIT_WORDS: usize = 2 * (MOST_BYTES / 17 + 1);

const GOAL_WORDS: usize = 32768;

const LIMIT_WORDS: usize = 3 * 32768;

// ## What is told of texts

// What may stand where the pair was refused, on a line of its own.
fn put_may_stand(
    out: &mut [u8],
    at: usize,
    edition: Edition,
    rndf: &[u8],
    mdf: &[u8],
    why: Refusal,
) -> usize
    ensures { Wrote (pen out.old at) (may_stand edition rndf.now mdf.now why) (pen out.new result) }
{
    put_expected_line(
        out,
        at,
        edition,
        rndf,
        mdf,
        why.file as u32,
        why.line,
        why.number,
    )
}

// Of an RNDF alone; nothing where it is accepted.
fn put_rndf_may_stand(
    out: &mut [u8],
    at: usize,
    edition: Edition,
    rndf: &[u8],
    reply: RndfReply,
) -> usize
    ensures { Wrote (pen out.old at) (rndf_may_stand edition rndf.now reply) (pen out.new result) }
{
    match reply {
        Ok((_, _)) => at,
        Err(why) => put_may_stand(out, at, edition, rndf, b"", why),
    }
}

fn put_pair_may_stand(
    out: &mut [u8],
    at: usize,
    edition: Edition,
    rndf: &[u8],
    mdf: &[u8],
    reply: PairReply,
) -> usize
    ensures { Wrote (pen out.old at) (pair_may_stand edition rndf.now mdf.now reply) (pen out.new result) }
{
    match reply {
        Ok((_, _, _, _)) => at,
        Err(why) => put_may_stand(out, at, edition, rndf, mdf, why),
    }
}

// An RNDF without an MDF; `trouble` is the sentence of what is the matter with the MDF, if one is asked for.
fn tell_rndf(
    edition: Edition,
    out: &mut [u8],
    name: &[u8],
    text: &[u8],
    trouble: &[u8],
    segments: &mut [u32; SEGMENT_WORDS],
    lanes: &mut [u32; LANE_WORDS],
    zones: &mut [u32; ZONE_WORDS],
    spots: &mut [u32; SPOT_WORDS],
    points: &mut [i32; POINT_WORDS],
    checkpoints: &mut [u32; CHECKPOINT_WORDS],
    stops: &mut [u32; STOP_WORDS],
    exits: &mut [u32; EXIT_WORDS],
) -> usize
    ensures { TellsRndf edition name.now text.now trouble.now (lent segments.old lanes.old zones.old spots.old points.old checkpoints.old stops.old exits.old) (lent segments.new lanes.new zones.new spots.new points.new checkpoints.new stops.new exits.new) out.old out.new result }
{
    let reply = read_rndf(
        edition,
        text,
        segments,
        lanes,
        zones,
        spots,
        points,
        checkpoints,
        stops,
        exits,
    );
    let n = put_rndf_answer(out, 0, name, text, trouble, reply);
    put_rndf_may_stand(out, n, edition, text, reply)
}

// An RNDF with its MDF.
fn tell_pair(
    edition: Edition,
    out: &mut [u8],
    rndf_name: &[u8],
    mdf_name: &[u8],
    rndf: &[u8],
    mdf: &[u8],
    segments: &mut [u32; SEGMENT_WORDS],
    lanes: &mut [u32; LANE_WORDS],
    zones: &mut [u32; ZONE_WORDS],
    spots: &mut [u32; SPOT_WORDS],
    points: &mut [i32; POINT_WORDS],
    checkpoints: &mut [u32; CHECKPOINT_WORDS],
    stops: &mut [u32; STOP_WORDS],
    exits: &mut [u32; EXIT_WORDS],
    goals: &mut [u32; GOAL_WORDS],
    limits: &mut [u32; LIMIT_WORDS],
) -> usize
    ensures { TellsPair edition rndf_name.now mdf_name.now rndf.now mdf.now (lent segments.old lanes.old zones.old spots.old points.old checkpoints.old stops.old exits.old) (mission_lent goals.old limits.old) (lent segments.new lanes.new zones.new spots.new points.new checkpoints.new stops.new exits.new) (mission_lent goals.new limits.new) out.old out.new result }
{
    let reply = read_pair(
        edition,
        rndf,
        mdf,
        segments,
        lanes,
        zones,
        spots,
        points,
        checkpoints,
        stops,
        exits,
        goals,
        limits,
    );
    let n = put_pair_answer(out, 0, rndf_name, mdf_name, rndf, mdf, reply);
    put_pair_may_stand(out, n, edition, rndf, mdf, reply)
}

// ## Files

fn say<W: Write>(to: &mut W, s: &[u8]) -> io::Result<()> {
    put(to, s)
}

// What is the matter with a file, as `files` says it.
fn put_matter(out: &mut [u8], name: &[u8], loaded: Loaded) -> usize {
    put_trouble(
        out,
        0,
        name,
        b": the file is too big for this check, which takes up to 1,048,576 bytes\n",
        loaded,
    )
}

fn say_matter<W: Write>(to: &mut W, name: &[u8], loaded: Loaded) -> io::Result<()> {
    let mut out = [0u8; MOST_ANSWER];
    let n = put_matter(&mut out, name, loaded);
    say(to, first(&out, n))
}

// Of an RNDF over the readers' limit.
fn say_over_limit<W: Write>(to: &mut W, name: &[u8]) -> io::Result<()> {
    let mut out = [0u8; MOST_ANSWER];
    let n = put_sentence(&mut out, 0, name, b"", 0, 1, 0);
    say(to, first(&out, n))
}

// The MDF, if it is asked for.
fn load_asked<R: Files>(rt: &R, asked: bool, path: &[u8], text: &mut [u8]) -> Loaded {
    if asked {
        return load(rt, path, text);
    }
    Loaded::NotAsked
}

// ## What is asked

// The RNDF's text, the MDF's room, and what came of the MDF: its bytes, or what is the matter with it.
fn judge<W: Write>(
    to: &mut W,
    edition: Edition,
    rndf_name: &[u8],
    mdf_name: &[u8],
    rndf: &[u8],
    mdf: &[u8],
    loaded: Loaded,
    trouble: &[u8],
) -> io::Result<()> {
    let mut segments = [0u32; SEGMENT_WORDS];
    let mut lanes = [0u32; LANE_WORDS];
    let mut zones = [0u32; ZONE_WORDS];
    let mut spots = [0u32; SPOT_WORDS];
    let mut points = [0i32; POINT_WORDS];
    let mut checkpoints = [0u32; CHECKPOINT_WORDS];
    let mut stops = [0u32; STOP_WORDS];
    let mut exits = [0u32; EXIT_WORDS];
    let mut goals = [0u32; GOAL_WORDS];
    let mut limits = [0u32; LIMIT_WORDS];
    let mut out = [0u8; MOST_ANSWER];
    match loaded {
        Loaded::Bytes(n) => {
            let told = tell_pair(
                edition,
                &mut out,
                rndf_name,
                mdf_name,
                rndf,
                first(mdf, n),
                &mut segments,
                &mut lanes,
                &mut zones,
                &mut spots,
                &mut points,
                &mut checkpoints,
                &mut stops,
                &mut exits,
                &mut goals,
                &mut limits,
            );
            say(to, first(&out, told))
        }
        _ => {
            let told = tell_rndf(
                edition,
                &mut out,
                rndf_name,
                rndf,
                trouble,
                &mut segments,
                &mut lanes,
                &mut zones,
                &mut spots,
                &mut points,
                &mut checkpoints,
                &mut stops,
                &mut exits,
            );
            say(to, first(&out, told))
        }
    }
}

// What came of the MDF, if it is asked for, in this room.
fn with_mission<W: Write>(
    to: &mut W,
    edition: Edition,
    rndf_name: &[u8],
    mdf_name: &[u8],
    rndf: &[u8],
    mdf: &[u8],
    loaded: Loaded,
) -> io::Result<()> {
    let mut trouble = [0u8; MOST_ANSWER];
    let n = put_matter(&mut trouble, mdf_name, loaded);
    judge(
        to,
        edition,
        rndf_name,
        mdf_name,
        rndf,
        mdf,
        loaded,
        first(&trouble, n),
    )
}

// The room stands in a function of its own: beside a second array its length took 10 s to check.
fn with_network<R: Files, W: Write>(
    rt: &R,
    to: &mut W,
    edition: Edition,
    rndf_name: &[u8],
    mdf_name: &[u8],
    rndf: &[u8],
    asked: bool,
) -> io::Result<()> {
    let mut mission = [0u8; MOST_BYTES];
    let loaded = load_asked(rt, asked, mdf_name, &mut mission);
    with_mission(to, edition, rndf_name, mdf_name, rndf, &mission, loaded)
}

fn with_names<R: Files, W: Write>(
    rt: &R,
    to: &mut W,
    edition: Edition,
    rndf_name: &[u8],
    mdf_name: &[u8],
    asked: bool,
) -> io::Result<()> {
    let mut network = [0u8; MOST_BYTES];
    let loaded = load_rndf(rt, rndf_name, &mut network);
    match loaded {
        Loaded::Bytes(n) => with_network(
            rt,
            to,
            edition,
            rndf_name,
            mdf_name,
            first(&network, n),
            asked,
        ),
        Loaded::OverLimit => say_over_limit(to, rndf_name),
        _ => say_matter(to, rndf_name, loaded),
    }
}

fn is_help(name: &[u8]) -> bool {
    same(name, b"--help") | same(name, b"-h")
}

fn say_usage<W: Write>(to: &mut W) -> io::Result<()> {
    say(
        to,
        b"Name an RNDF file, and behind it an MDF file if both are to be checked: run-check [--edition 2006] RNDF [MDF]\n",
    )
}

fn say_help<W: Write>(to: &mut W) -> io::Result<()> {
    say_usage(to)?;
    say(
        to,
        b"With --edition 2006 the RNDF is read by the edition of December 6, 2006; without, or with --edition 2007, by the present one.\n",
    )?;
    say(
        to,
        b"The answer is what is wrong first, as FILE:LINE:COLUMN: reason (NUMBER), that line with a caret under the column, and what may stand there; or what the files hold.\n",
    )?;
    say(
        to,
        b"A file may have up to 1,048,576 bytes. The status is 0 accepted, 1 refused, 2 not checked.\n",
    )
}

// The names, or the question how to ask.
fn with_given<R: Files, W: Write>(
    rt: &R,
    to: &mut W,
    edition: Edition,
    rndf_name: &[u8],
    mdf_name: &[u8],
    asked: bool,
) -> io::Result<()> {
    if is_help(rndf_name) {
        say_help(to)
    } else {
        with_names(rt, to, edition, rndf_name, mdf_name, asked)
    }
}

// The names are the arguments at these places.
fn with_arguments<R: Env + Files, W: Write>(
    rt: &R,
    to: &mut W,
    edition: Edition,
    rndf_at: usize,
    mdf_at: usize,
    asked: bool,
) -> io::Result<()> {
    let mut rndf_name = [0u8; MOST_NAME];
    let rndf = argument(rt, rndf_at, &mut rndf_name);
    let mut mdf_name = [0u8; MOST_NAME];
    let mdf = argument(rt, mdf_at, &mut mdf_name);
    match rndf {
        None => say(to, b"The RNDF file's name is over 4,095 bytes.\n"),
        Some(n) => {
            match mdf {
                None => say(to, b"The MDF file's name is over 4,095 bytes.\n"),
                Some(m) => with_given(
                    rt,
                    to,
                    edition,
                    first(&rndf_name, n),
                    first(&mdf_name, m),
                    asked,
                ),
            }
        }
    }
}

// The names begin at this argument: one or two.
fn with_names_at<R: Env + Files, W: Write>(
    rt: &R,
    to: &mut W,
    edition: Edition,
    at: usize,
) -> io::Result<()> {
    let count = argument_count(rt);
    if count <= at {
        say_usage(to)
    } else if count - at > 2 {
        say(
            to,
            b"Too many names: one RNDF file and at most one MDF file can be checked.\n",
        )
    } else {
        with_arguments(rt, to, edition, at, at + 1, count - at == 2)
    }
}

fn main(rt: HostRuntime) -> io::Result<()> {
    let mut to = rt.stdout();
    if !is_argument(&rt, 1, b"--edition") {
        with_names_at(&rt, &mut to, Edition::March2007, 1)
    } else if is_argument(&rt, 2, b"2006") {
        with_names_at(&rt, &mut to, Edition::December2006, 3)
    } else if is_argument(&rt, 2, b"2007") {
        with_names_at(&rt, &mut to, Edition::March2007, 3)
    } else {
        say_usage(&mut to)
    }
}
