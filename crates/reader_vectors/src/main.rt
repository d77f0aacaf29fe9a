// Runs the readers on whole and damaged texts, alone and in pairs, with tables of many lengths, and prints for each its reply and every lent word.
// The cases stand in the files of `data/`, one behind the other. A case is a line of fixed length, its label and an LF, the RNDF, the MDF and an LF.
// That line is `1` (the RNDF alone) or `2` (a pair), `3` or `4` the same by the edition of December 6, 2006, and thirteen numbers of four digits: the bytes of the RNDF and of the MDF, the words lent of each of
// the ten tables, the bytes of the label. No lent word is zero before the call.
// Printed are the label, the reply (the rows used and each file's own row, or file, line and number), and of each table the words lent and those up to
// the last that is not zero, so that a row too many or one that was not cleared shows. Coordinates are printed as they stand in a text.
// The file `stdout` was not copied from a run: the oracle in tests/oracle, written from document 01 alone, wrote it (tests/reader_vectors.py).
#![tactic(auto)]

ghost use Rattle.std.specs.Prelude.{◌≤◌, length, IfOk};

use console::{put, put_decimal, read_full};
use counts::{Counts, MissionCounts};
use edition::Edition;
use output::put_coordinate;
use reader::{read_pair, read_rndf};
use refusal::Refusal;
use replies::{PairReply, RndfReply};
use rows::{FileRow, MissionFileRow, Stretch};
use std::io::Write;
use std::rt::Files;
use std::{fs, io};

// A case's first line with its LF: a digit and thirteen times a space and four digits.
const HEAD: usize = 67;

const MOST_WORDS: usize = 640;

// ## What is printed

fn put_count<W: Write>(to: &mut W, n: u32) -> io::Result<()> {
    put(to, b" ")?;
    put_decimal(to, n as u64)
}

// The first n bytes, or all of them.
fn first(s: &[u8], n: usize) -> &[u8] {
    if n < s.len() { &s[..n] } else { s }
}

// A coordinate as it stands in a text.
fn put_degrees<W: Write>(to: &mut W, z: i32) -> io::Result<()> {
    let mut digits = [0u8; 16];
    let n = put_coordinate(&mut digits, 0, z);
    put(to, b" ")?;
    put(to, first(&digits, n))
}

fn put_stretch<W: Write>(to: &mut W, s: Stretch) -> io::Result<()> {
    put_count(to, s.start)?;
    put_count(to, s.length)
}

fn put_refused<W: Write>(to: &mut W, why: Refusal) -> io::Result<()> {
    put(to, b"refused")?;
    put_count(to, why.file as u32)?;
    put_count(to, why.line)?;
    put_count(to, why.number as u32)?;
    put_count(to, why.column)
}

fn put_accepted<W: Write>(to: &mut W, c: Counts, f: FileRow) -> io::Result<()> {
    put(to, b"ok")?;
    put_count(to, c.segments)?;
    put_count(to, c.lanes)?;
    put_count(to, c.zones)?;
    put_count(to, c.spots)?;
    put_count(to, c.points)?;
    put_count(to, c.checkpoints)?;
    put_count(to, c.stops)?;
    put_count(to, c.exits)?;
    put(to, b" file")?;
    put_stretch(to, f.name)?;
    put_stretch(to, f.version)?;
    put_stretch(to, f.date)
}

fn put_mission<W: Write>(to: &mut W, c: MissionCounts, f: MissionFileRow) -> io::Result<()> {
    put(to, b" ok")?;
    put_count(to, c.goals)?;
    put_count(to, c.limits)?;
    put(to, b" file")?;
    put_stretch(to, f.name)?;
    put_stretch(to, f.rndf)?;
    put_stretch(to, f.version)?;
    put_stretch(to, f.date)
}

// How many words there are up to the last that is not zero.
fn used_words(t: &[u32]) -> usize
    ensures { result ≤ length t.now }
{
    let mut used: usize = 0;
    for i in 0..t.len() {
        if t[i] != 0 {
            used = i + 1;
        }
    }
    used
}

fn used_signed(t: &[i32]) -> usize
    ensures { result ≤ length t.now }
{
    let mut used: usize = 0;
    for i in 0..t.len() {
        if t[i] != 0 {
            used = i + 1;
        }
    }
    used
}

fn put_words<W: Write>(to: &mut W, t: &[u32]) -> io::Result<()> {
    put_decimal(to, t.len() as u64)?;
    put(to, b":")?;
    let used = used_words(t);
    for i in 0..used {
        put_count(to, t[i])?;
    }
    put(to, b";")
}

fn put_points<W: Write>(to: &mut W, t: &[i32]) -> io::Result<()> {
    put_decimal(to, t.len() as u64)?;
    put(to, b":")?;
    let used = used_signed(t);
    for i in 0..used {
        put_degrees(to, t[i])?;
    }
    put(to, b";")
}

// ## What is lent

const FULL: u32 = 2779096485;

// The first n words of a table, or all of them.
fn lent(t: &mut [u32], n: usize) -> &mut [u32] {
    if n < t.len() { &mut t[..n] } else { &mut t[..] }
}

fn lent_signed(t: &mut [i32], n: usize) -> &mut [i32] {
    if n < t.len() { &mut t[..n] } else { &mut t[..] }
}

// The words lent of each table.
#[derive(Clone, Copy)]
struct Room {
    segments: usize,
    lanes: usize,
    zones: usize,
    spots: usize,
    points: usize,
    checkpoints: usize,
    stops: usize,
    exits: usize,
    goals: usize,
    limits: usize,
}

// ## The two readers, run

fn put_rndf_reply<W: Write>(to: &mut W, reply: RndfReply) -> io::Result<()> {
    match reply {
        Ok((c, f)) => put_accepted(to, c, f)?,
        Err(why) => put_refused(to, why)?,
    }
    put(to, b"\n")
}

fn put_pair_reply<W: Write>(to: &mut W, reply: PairReply) -> io::Result<()> {
    match reply {
        Ok((c, f, m, g)) => {
            put_accepted(to, c, f)?;
            put_mission(to, m, g)?;
        }
        Err(why) => put_refused(to, why)?,
    }
    put(to, b"\n")
}

fn put_network<W: Write>(
    to: &mut W,
    segments: &[u32],
    lanes: &[u32],
    zones: &[u32],
    spots: &[u32],
    points: &[i32],
    checkpoints: &[u32],
    stops: &[u32],
    exits: &[u32],
) -> io::Result<()> {
    put_words(to, segments)?;
    put_words(to, lanes)?;
    put_words(to, zones)?;
    put_words(to, spots)?;
    put_points(to, points)?;
    put_words(to, checkpoints)?;
    put_words(to, stops)?;
    put_words(to, exits)
}

// The tables stand where they are lent from: a function that only handed ten slices on would be dear to check.
fn show_alone<W: Write>(to: &mut W, edition: Edition, text: &[u8], room: Room) -> io::Result<()> {
    let mut segment_words = [FULL; MOST_WORDS];
    let mut lane_words = [FULL; MOST_WORDS];
    let mut zone_words = [FULL; MOST_WORDS];
    let mut spot_words = [FULL; MOST_WORDS];
    let mut point_words = [-77i32; MOST_WORDS];
    let mut checkpoint_words = [FULL; MOST_WORDS];
    let mut stop_words = [FULL; MOST_WORDS];
    let mut exit_words = [FULL; MOST_WORDS];
    let segments = lent(&mut segment_words, room.segments);
    let lanes = lent(&mut lane_words, room.lanes);
    let zones = lent(&mut zone_words, room.zones);
    let spots = lent(&mut spot_words, room.spots);
    let points = lent_signed(&mut point_words, room.points);
    let checkpoints = lent(&mut checkpoint_words, room.checkpoints);
    let stops = lent(&mut stop_words, room.stops);
    let exits = lent(&mut exit_words, room.exits);
    let reply = read_rndf(
        edition,
        text,
        segments,
        lanes,
        zones,
        spots,
        points,
        checkpoints,
        stops,
        exits,
    );
    put_rndf_reply(to, reply)?;
    put_network(
        to,
        segments,
        lanes,
        zones,
        spots,
        points,
        checkpoints,
        stops,
        exits,
    )
}

fn show_pair<W: Write>(
    to: &mut W,
    edition: Edition,
    rndf: &[u8],
    mdf: &[u8],
    room: Room,
) -> io::Result<()> {
    let mut segment_words = [FULL; MOST_WORDS];
    let mut lane_words = [FULL; MOST_WORDS];
    let mut zone_words = [FULL; MOST_WORDS];
    let mut spot_words = [FULL; MOST_WORDS];
    let mut point_words = [-77i32; MOST_WORDS];
    let mut checkpoint_words = [FULL; MOST_WORDS];
    let mut stop_words = [FULL; MOST_WORDS];
    let mut exit_words = [FULL; MOST_WORDS];
    let mut goal_words = [FULL; MOST_WORDS];
    let mut limit_words = [FULL; MOST_WORDS];
    let segments = lent(&mut segment_words, room.segments);
    let lanes = lent(&mut lane_words, room.lanes);
    let zones = lent(&mut zone_words, room.zones);
    let spots = lent(&mut spot_words, room.spots);
    let points = lent_signed(&mut point_words, room.points);
    let checkpoints = lent(&mut checkpoint_words, room.checkpoints);
    let stops = lent(&mut stop_words, room.stops);
    let exits = lent(&mut exit_words, room.exits);
    let goals = lent(&mut goal_words, room.goals);
    let limits = lent(&mut limit_words, room.limits);
    let reply = read_pair(
        edition,
        rndf,
        mdf,
        segments,
        lanes,
        zones,
        spots,
        points,
        checkpoints,
        stops,
        exits,
        goals,
        limits,
    );
    put_pair_reply(to, reply)?;
    put_network(
        to,
        segments,
        lanes,
        zones,
        spots,
        points,
        checkpoints,
        stops,
        exits,
    )?;
    put_words(to, goals)?;
    put_words(to, limits)
}

// ## The cases

// The digit at a place, 0 where there is none.
fn digit(s: &[u8], at: usize) -> usize
    ensures { result ≤ 9 }
{
    if at < s.len() {
        let b = s[at];
        if b >= b'0' {
            if b <= b'9' {
                return (b - b'0') as usize;
            }
        }
    }
    0
}

// The number of that index in a case's first line.
fn number(s: &[u8], index: usize) -> usize
    requires { index ≤ 12 }
    ensures { result ≤ 9999 }
{
    let at = 2 + 5 * index;
    let high = digit(s, at) * 10 + digit(s, at + 1);
    let low = digit(s, at + 2) * 10 + digit(s, at + 3);
    high * 100 + low
}

fn room_of(s: &[u8]) -> Room {
    Room {
        segments: number(s, 2),
        lanes: number(s, 3),
        zones: number(s, 4),
        spots: number(s, 5),
        points: number(s, 6),
        checkpoints: number(s, 7),
        stops: number(s, 8),
        exits: number(s, 9),
        goals: number(s, 10),
        limits: number(s, 11),
    }
}

// The bytes from a place on, so many, or as many as there are.
fn part(s: &[u8], from: usize, n: usize) -> &[u8] {
    if from < s.len() {
        first(&s[from..], n)
    } else {
        first(s, 0)
    }
}

// The edition of a case's first digit: `3` and `4` are `1` and `2` in that of December 6, 2006.
fn edition_in(mode: usize) -> Edition {
    if mode > 2 {
        Edition::December2006
    } else {
        Edition::March2007
    }
}

fn is_pair(mode: usize) -> bool {
    if mode == 2 { true } else { mode == 4 }
}

// Prints one case, and answers its length.
fn show<W: Write>(to: &mut W, s: &[u8]) -> io::Result<usize>
    ensures { IfOk result (λ size. 67 ≤ size) }
{
    let label_size = number(s, 12);
    let rndf_size = number(s, 0);
    let mdf_size = number(s, 1);
    let rndf_at = HEAD + label_size + 1;
    let mdf_at = rndf_at + rndf_size;
    let behind = mdf_at + mdf_size;
    put(to, part(s, HEAD, label_size))?;
    put(to, b"\n")?;
    let rndf = part(s, rndf_at, rndf_size);
    let mode = digit(s, 0);
    let edition = edition_in(mode);
    if is_pair(mode) {
        show_pair(to, edition, rndf, part(s, mdf_at, mdf_size), room_of(s))?;
    } else {
        show_alone(to, edition, rndf, room_of(s))?;
    }
    put(to, b"\n")?;
    Ok(behind + 1)
}

fn show_all<W: Write>(to: &mut W, s: &[u8]) -> io::Result<()> {
    let mut at: usize = 0;
    while at < s.len() {
        let size = show(to, &s[at..])?;
        if size < s.len() - at {
            at += size;
        } else {
            at = s.len();
        }
    }
    Ok(())
}

fn show_file<R: Files, W: Write>(rt: &R, to: &mut W, path: &str) -> io::Result<()> {
    let mut file = fs::open(rt, path)?;
    let mut input = [0u8; 65536];
    let n = read_full(&mut file, &mut input)?;
    show_all(to, &input[..n])
}

fn main(rt: HostRuntime) -> io::Result<()> {
    let mut to = rt.stdout();
    show_file(&rt, &mut to, "cases_1")?;
    show_file(&rt, &mut to, "cases_2")?;
    show_file(&rt, &mut to, "cases_3")?;
    show_file(&rt, &mut to, "cases_4")?;
    show_file(&rt, &mut to, "cases_5")?;
    show_file(&rt, &mut to, "cases_6")?;
    show_file(&rt, &mut to, "cases_7")
}
