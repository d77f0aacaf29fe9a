// The planners' program for request L13: `yard_reach RNDF MDF START`, names of files and a point's identifier x.y.z, with `--edition 2006` in front of them as `yard_check` takes it. It answers on
// standard output whether the mission can be driven from that point: that it can, or the first goal that can't be reached, with its line of the MDF and a caret; that the start is no point of the RNDF; what is wrong
// with the files, in the words of `yard_check`; or why a file could not be taken. `run-reach` builds and runs it, and adds a status.
//
// The pair is read first, to find the row of the start (`find_start`); then `check_mission` judges the mission from that row (`ask`). It has a table of goals of its own, since it
// leaves none after a refusal, and the sentence tells the goals' numbers. Proved is what each replies and what is put of it (specs/Starts, specs/Tells); of what is loaded and printed nothing can be.
//
// Memory: there is no heap, and the usual stack has 8 MiB. So a text may have 524,288 bytes, every table has the rows that such a text can fill, as in `yard_check`, and the
// work space a word for each point of it: 11 should never come of it (counted by hand, not proved; if it came, it would be told). A larger file is too big for this program; of an RNDF
// over 16,777,215 bytes the readers' answer is known without them: 1.
#![tactic(auto)]

ghost use Rattle.std.specs.Prelude.{◌≡◌, pred};
ghost use Rattle.law.specs.Tables.{lent, mission_lent};
ghost use Rattle.statement.specs.Meaning.{the_the_point_of};
ghost use Rattle.references.specs.Finding.{found};
ghost use Rattle.yard_reach.specs.Starts.{spot_point_of, spot-at, start-row, start_of};
ghost use Rattle.yard_reach.specs.Tells.{FindsStart, TellsMission};

use answers::{put_mission_answer, put_no_start, put_pair_answer, put_sentence};
use console::put;
use edition::Edition;
use expected::put_expected_line;
use files::{Loaded, argument, argument_count, is_argument, load, load_rndf, put_trouble};
use number::{Id, triple_of};
use output::put_bytes;
use reach::check_mission;
use read_rows::{spot_at, zone_at};
use reader::read_pair;
use references::resolve;
use refusal::Refusal;
use replies::PairReply;
use room::in_word;
use shown::first;
use std::io;
use std::io::Write;
use std::rt::{Env, Files};

const MOST_BYTES: usize = 524288;

// The longest name that a system opens.
const MOST_NAME: usize = 4095;

// Room for two names (8,190 bytes) with the words around them; or for one name, a reason, a line of 513 bytes with what stands below it, four to each, and what may stand there (512).
const MOST_ANSWER: usize = 9216;

// The words of each table, as in `yard_check`.
const SEGMENT_WORDS: usize = 4 * (MOST_BYTES / 92 + 1);

const LANE_WORDS: usize = 5 * (MOST_BYTES / 58 + 1);

const ZONE_WORDS: usize = 6 * (MOST_BYTES / 102 + 1);

const SPOT_WORDS: usize = 2 * (MOST_BYTES / 66 + 1);

const POINT_WORDS: usize = 2 * (MOST_BYTES / 24 + 1);

const CHECKPOINT_WORDS: usize = 2 * (MOST_BYTES / 19 + 1);

const STOP_WORDS: usize = MOST_BYTES / 11 + 1;

const EXIT_WORDS: usize = 2 * (MOST_BYTES / 17 + 1);

const GOAL_WORDS: usize = 32768;

const LIMIT_WORDS: usize = 3 * 32768;

// A word for each point: the shortest has 24 bytes.
const WORK_WORDS: usize = MOST_BYTES / 24 + 1;

// ## The row of the start

// Where the start is, in a pair that is read: a point's row; no point; or nowhere, since the pair is refused.
#[derive(Clone, Copy)]
pub enum Start {
    At(u32),
    Nothing,
    Refused(Refusal),
}

// Numbers in identifiers count from 1, rows from 0.
fn before(n: u32) -> usize
    ensures { result ≡ pred n }
{
    if 0 < n { (n - 1) as usize } else { 0 }
}

// The z-th of a spot's two points, the first of which has this row.
fn spot_point(first: u32, z: u32) -> Option<usize>
    ensures { found result ≡ spot_point_of first z }
{
    if 0 < z {
        if z <= 2 {
            Some(first as usize + before(z))
        } else {
            None
        }
    } else {
        None
    }
}

// A point of spot y of zone x: zones are numbered behind the segments.
fn spot_row(zones: &[u32], spots: &[u32], segment_count: u32, e: Id) -> Option<usize>
    ensures { found result ≡ spot-at zones.now spots.now segment_count e.x e.y e.z }
{
    if segment_count < e.x {
        let zone = zone_at(zones, before(e.x - segment_count));
        if e.y <= zone.spots {
            let spot = spot_at(spots, zone.first_spot as usize + before(e.y));
            spot_point(spot.first_point, e.z)
        } else {
            None
        }
    } else {
        None
    }
}

// A lane's waypoint, a perimeter's point or a spot's.
fn start_row(
    segments: &[u32],
    lanes: &[u32],
    zones: &[u32],
    spots: &[u32],
    segment_count: u32,
    e: Id,
) -> Option<usize>
    ensures { found result ≡ start-row segments.now lanes.now zones.now spots.now segment_count (the_the_point_of e) }
{
    if e.y == 0 {
        resolve(segments, lanes, zones, segment_count, e)
    } else if e.x <= segment_count {
        resolve(segments, lanes, zones, segment_count, e)
    } else {
        spot_row(zones, spots, segment_count, e)
    }
}

// In the tables that the reader filled, by its reply.
fn start_of(
    segments: &[u32],
    lanes: &[u32],
    zones: &[u32],
    spots: &[u32],
    e: Id,
    reply: PairReply,
) -> Start
    ensures { result ≡ start_of segments.now lanes.now zones.now spots.now (the_the_point_of e) reply }
{
    match reply {
        Ok((c, _, _, _)) => {
            let found = start_row(segments, lanes, zones, spots, c.segments, e);
            match found {
                Some(i) => Start::At(in_word(i)),
                None => Start::Nothing,
            }
        }
        Err(why) => Start::Refused(why),
    }
}

fn find_start(
    edition: Edition,
    rndf: &[u8],
    mdf: &[u8],
    e: Id,
    segments: &mut [u32; SEGMENT_WORDS],
    lanes: &mut [u32; LANE_WORDS],
    zones: &mut [u32; ZONE_WORDS],
    spots: &mut [u32; SPOT_WORDS],
    points: &mut [i32; POINT_WORDS],
    checkpoints: &mut [u32; CHECKPOINT_WORDS],
    stops: &mut [u32; STOP_WORDS],
    exits: &mut [u32; EXIT_WORDS],
    goals: &mut [u32; GOAL_WORDS],
    limits: &mut [u32; LIMIT_WORDS],
) -> Start
    ensures { FindsStart edition rndf.now mdf.now (the_the_point_of e) (lent segments.old lanes.old zones.old spots.old points.old checkpoints.old stops.old exits.old) (mission_lent goals.old limits.old) result (lent segments.new lanes.new zones.new spots.new points.new checkpoints.new stops.new exits.new) (mission_lent goals.new limits.new) }
{
    let reply = read_pair(
        edition,
        rndf,
        mdf,
        segments,
        lanes,
        zones,
        spots,
        points,
        checkpoints,
        stops,
        exits,
        goals,
        limits,
    );
    start_of(segments, lanes, zones, spots, e, reply)
}

// ## What is told of the mission

// `known`: the table of goals as the reader filled it.
fn ask(
    edition: Edition,
    out: &mut [u8; MOST_ANSWER],
    rndf_name: &[u8],
    mdf_name: &[u8],
    start: &[u8],
    rndf: &[u8],
    mdf: &[u8],
    known: &[u32],
    segments: &mut [u32; SEGMENT_WORDS],
    lanes: &mut [u32; LANE_WORDS],
    zones: &mut [u32; ZONE_WORDS],
    spots: &mut [u32; SPOT_WORDS],
    points: &mut [i32; POINT_WORDS],
    checkpoints: &mut [u32; CHECKPOINT_WORDS],
    stops: &mut [u32; STOP_WORDS],
    exits: &mut [u32; EXIT_WORDS],
    goals: &mut [u32; GOAL_WORDS],
    limits: &mut [u32; LIMIT_WORDS],
    row: u32,
    work: &mut [u32; WORK_WORDS],
) -> usize
    ensures { TellsMission edition rndf_name.now mdf_name.now start.now rndf.now mdf.now known.now (lent segments.old lanes.old zones.old spots.old points.old checkpoints.old stops.old exits.old) (mission_lent goals.old limits.old) row work.old (lent segments.new lanes.new zones.new spots.new points.new checkpoints.new stops.new exits.new) (mission_lent goals.new limits.new) work.new out.old out.new result }
{
    let reply = check_mission(
        edition,
        rndf,
        mdf,
        segments,
        lanes,
        zones,
        spots,
        points,
        checkpoints,
        stops,
        exits,
        goals,
        limits,
        row,
        work,
    );
    put_mission_answer(out, 0, rndf_name, mdf_name, rndf, mdf, start, known, reply)
}

// ## Said

fn say<W: Write>(to: &mut W, s: &[u8]) -> io::Result<()> {
    put(to, s)
}

fn print<W: Write>(to: &mut W, out: &[u8; MOST_ANSWER], n: usize) -> io::Result<()> {
    say(to, first(out, n))
}

// What is the matter with a file, as `files` says it.
fn say_matter<W: Write>(to: &mut W, name: &[u8], loaded: Loaded) -> io::Result<()> {
    let mut out = [0u8; MOST_ANSWER];
    let n = put_trouble(
        &mut out,
        0,
        name,
        b": the file is too big for this program, which takes up to 524,288 bytes\n",
        loaded,
    );
    say(to, first(&out, n))
}

// Of an RNDF over the readers' limit.
fn say_over_limit<W: Write>(to: &mut W, name: &[u8]) -> io::Result<()> {
    let mut out = [0u8; MOST_ANSWER];
    let n = put_sentence(&mut out, 0, name, b"", 0, 1, 0);
    say(to, first(&out, n))
}

// Of a pair that the reader refuses, as `yard_check` says it: the sentence, and what may stand there.
fn say_refused<W: Write>(
    to: &mut W,
    edition: Edition,
    rndf_name: &[u8],
    mdf_name: &[u8],
    rndf: &[u8],
    mdf: &[u8],
    why: Refusal,
) -> io::Result<()> {
    let mut out = [0u8; MOST_ANSWER];
    let reply = Err(why);
    let a = put_pair_answer(&mut out, 0, rndf_name, mdf_name, rndf, mdf, reply);
    let n = put_expected_line(
        &mut out,
        a,
        edition,
        rndf,
        mdf,
        why.file as u32,
        why.line,
        why.number,
    );
    say(to, first(&out, n))
}

fn say_no_start<W: Write>(to: &mut W, rndf_name: &[u8], start: &[u8]) -> io::Result<()> {
    let mut out = [0u8; MOST_ANSWER];
    let n = put_no_start(&mut out, 0, rndf_name, start);
    say(to, first(&out, n))
}

fn say_misspelt<W: Write>(to: &mut W, start: &[u8]) -> io::Result<()> {
    let mut out = [0u8; MOST_ANSWER];
    let a = put_bytes(&mut out, 0, start);
    let n = put_bytes(&mut out, a, b" is no point identifier x.y.z\n");
    say(to, first(&out, n))
}

// ## What is asked

// The mission, from the point in this row.
fn drive<W: Write>(
    to: &mut W,
    edition: Edition,
    rndf_name: &[u8],
    mdf_name: &[u8],
    start: &[u8],
    rndf: &[u8],
    mdf: &[u8],
    known: &[u32; GOAL_WORDS],
    row: u32,
) -> io::Result<()> {
    let mut segments = [0u32; SEGMENT_WORDS];
    let mut lanes = [0u32; LANE_WORDS];
    let mut zones = [0u32; ZONE_WORDS];
    let mut spots = [0u32; SPOT_WORDS];
    let mut points = [0i32; POINT_WORDS];
    let mut checkpoints = [0u32; CHECKPOINT_WORDS];
    let mut stops = [0u32; STOP_WORDS];
    let mut exits = [0u32; EXIT_WORDS];
    let mut goals = [0u32; GOAL_WORDS];
    let mut limits = [0u32; LIMIT_WORDS];
    let mut work = [0u32; WORK_WORDS];
    let mut out = [0u8; MOST_ANSWER];
    let told = ask(
        edition,
        &mut out,
        rndf_name,
        mdf_name,
        start,
        rndf,
        mdf,
        known,
        &mut segments,
        &mut lanes,
        &mut zones,
        &mut spots,
        &mut points,
        &mut checkpoints,
        &mut stops,
        &mut exits,
        &mut goals,
        &mut limits,
        row,
        &mut work,
    );
    print(to, &out, told)
}

// The pair read: where the start is, and the table of goals filled.
fn read(edition: Edition, rndf: &[u8], mdf: &[u8], e: Id, goals: &mut [u32; GOAL_WORDS]) -> Start {
    let mut segments = [0u32; SEGMENT_WORDS];
    let mut lanes = [0u32; LANE_WORDS];
    let mut zones = [0u32; ZONE_WORDS];
    let mut spots = [0u32; SPOT_WORDS];
    let mut points = [0i32; POINT_WORDS];
    let mut checkpoints = [0u32; CHECKPOINT_WORDS];
    let mut stops = [0u32; STOP_WORDS];
    let mut exits = [0u32; EXIT_WORDS];
    let mut limits = [0u32; LIMIT_WORDS];
    find_start(
        edition,
        rndf,
        mdf,
        e,
        &mut segments,
        &mut lanes,
        &mut zones,
        &mut spots,
        &mut points,
        &mut checkpoints,
        &mut stops,
        &mut exits,
        goals,
        &mut limits,
    )
}

fn judge<W: Write>(
    to: &mut W,
    edition: Edition,
    rndf_name: &[u8],
    mdf_name: &[u8],
    start: &[u8],
    e: Id,
    rndf: &[u8],
    mdf: &[u8],
) -> io::Result<()> {
    let mut goals = [0u32; GOAL_WORDS];
    let found = read(edition, rndf, mdf, e, &mut goals);
    match found {
        Start::At(row) => drive(
            to, edition, rndf_name, mdf_name, start, rndf, mdf, &goals, row,
        ),
        Start::Nothing => say_no_start(to, rndf_name, start),
        Start::Refused(why) => say_refused(to, edition, rndf_name, mdf_name, rndf, mdf, why),
    }
}

fn with_network<R: Files, W: Write>(
    rt: &R,
    to: &mut W,
    edition: Edition,
    rndf_name: &[u8],
    mdf_name: &[u8],
    start: &[u8],
    e: Id,
    rndf: &[u8],
) -> io::Result<()> {
    let mut mission = [0u8; MOST_BYTES];
    let loaded = load(rt, mdf_name, &mut mission);
    match loaded {
        Loaded::Bytes(n) => judge(
            to,
            edition,
            rndf_name,
            mdf_name,
            start,
            e,
            rndf,
            first(&mission, n),
        ),
        _ => say_matter(to, mdf_name, loaded),
    }
}

fn with_names<R: Files, W: Write>(
    rt: &R,
    to: &mut W,
    edition: Edition,
    rndf_name: &[u8],
    mdf_name: &[u8],
    start: &[u8],
    e: Id,
) -> io::Result<()> {
    let mut network = [0u8; MOST_BYTES];
    let loaded = load_rndf(rt, rndf_name, &mut network);
    match loaded {
        Loaded::Bytes(n) => with_network(
            rt,
            to,
            edition,
            rndf_name,
            mdf_name,
            start,
            e,
            first(&network, n),
        ),
        Loaded::OverLimit => say_over_limit(to, rndf_name),
        _ => say_matter(to, rndf_name, loaded),
    }
}

fn with_start<R: Files, W: Write>(
    rt: &R,
    to: &mut W,
    edition: Edition,
    rndf_name: &[u8],
    mdf_name: &[u8],
    start: &[u8],
) -> io::Result<()> {
    let spelled = triple_of(start);
    match spelled {
        Some(id) => with_names(rt, to, edition, rndf_name, mdf_name, start, id),
        None => say_misspelt(to, start),
    }
}

fn say_usage<W: Write>(to: &mut W) -> io::Result<()> {
    say(
        to,
        b"Name an RNDF file, an MDF file and the point to start from, x.y.z: run-reach [--edition 2006] RNDF MDF START\n",
    )
}

fn say_help<W: Write>(to: &mut W) -> io::Result<()> {
    say_usage(to)?;
    say(
        to,
        b"The start is a lane's waypoint, a perimeter point (y is 0) or a spot's waypoint (x a zone, y the spot, z 1 or 2).\n",
    )?;
    say(
        to,
        b"With --edition 2006 the RNDF is read by the edition of December 6, 2006; without, or with --edition 2007, by the present one.\n",
    )?;
    say(
        to,
        b"The answer is that the mission can be driven, or the first goal that can't be reached, as FILE:LINE:COLUMN and that line with a caret; or what is wrong with the files, as run-check says it.\n",
    )?;
    say(
        to,
        b"A file may have up to 524,288 bytes. The status is 0 can be driven, 1 can't be driven or refused, 2 not checked.\n",
    )
}

// The names are the three arguments from this place on.
fn with_arguments<R: Env + Files, W: Write>(
    rt: &R,
    to: &mut W,
    edition: Edition,
    rndf_at: usize,
    mdf_at: usize,
    start_at: usize,
) -> io::Result<()> {
    let mut rndf_name = [0u8; MOST_NAME];
    let rndf = argument(rt, rndf_at, &mut rndf_name);
    let mut mdf_name = [0u8; MOST_NAME];
    let mdf = argument(rt, mdf_at, &mut mdf_name);
    let mut start_name = [0u8; MOST_NAME];
    let start = argument(rt, start_at, &mut start_name);
    match rndf {
        None => say(to, b"The RNDF file's name is over 4,095 bytes.\n"),
        Some(n) => {
            match mdf {
                None => say(to, b"The MDF file's name is over 4,095 bytes.\n"),
                Some(m) => {
                    match start {
                        None => say(to, b"The start is over 4,095 bytes.\n"),
                        Some(k) => with_start(
                            rt,
                            to,
                            edition,
                            first(&rndf_name, n),
                            first(&mdf_name, m),
                            first(&start_name, k),
                        ),
                    }
                }
            }
        }
    }
}

// The names begin at this argument: three, or the question how to ask.
fn with_names_at<R: Env + Files, W: Write>(
    rt: &R,
    to: &mut W,
    edition: Edition,
    at: usize,
) -> io::Result<()> {
    let count = argument_count(rt);
    if is_argument(rt, at, b"--help") | is_argument(rt, at, b"-h") {
        say_help(to)
    } else if count <= at {
        say_usage(to)
    } else if count - at == 3 {
        with_arguments(rt, to, edition, at, at + 1, at + 2)
    } else {
        say_usage(to)
    }
}

fn main(rt: HostRuntime) -> io::Result<()> {
    let mut to = rt.stdout();
    if !is_argument(&rt, 1, b"--edition") {
        with_names_at(&rt, &mut to, Edition::March2007, 1)
    } else if is_argument(&rt, 2, b"2006") {
        with_names_at(&rt, &mut to, Edition::December2006, 3)
    } else if is_argument(&rt, 2, b"2007") {
        with_names_at(&rt, &mut to, Edition::March2007, 3)
    } else {
        say_usage(&mut to)
    }
}
