// The summary program of document 01: reads `network.rndf`, then `mission.mdf` from the folder that it is run in, and prints one line: `ok` and the
// rows used of each table, or `refused` with file, line and number; `no file` or `file too big` for the first file that is missing or over 8,192 bytes.
// Both files are loaded before either is judged, by the present edition. The texts and the tables lie on the stack, each once: 8,192 bytes to a text, 15,360 for the tables.
// Rests on `reader`, `console` and std. Nothing is promised of what is printed (no contract can say it); the judging is `read_pair`'s, and proved there.
#![tactic(auto)]

use console::{put, put_decimal, read_full};
use counts::{Counts, MissionCounts};
use edition::Edition;
use reader::read_pair;
use refusal::Refusal;
use replies::PairReply;
use std::io::{Read, Write};
use std::rt::Files;
use std::{fs, io};

const MOST_BYTES: usize = 8192;

// What came of a file is how many bytes it has, or one of these. A number comes back in a register; an enum would lie on the stack below the texts.
const TOO_BIG: usize = 8193;

const NO_FILE: usize = 8194;

fn put_count<W: Write>(to: &mut W, n: u32) -> io::Result<()> {
    put(to, b" ")?;
    put_decimal(to, n as u64)
}

// A word and numbers. They are handed over in an array, which takes less of the stack beside the tables than each number would by itself.
fn put_line<W: Write>(to: &mut W, word: &[u8], numbers: &[u32]) -> io::Result<()> {
    put(to, word)?;
    for i in 0..numbers.len() {
        put_count(to, numbers[i])?;
    }
    put(to, b"\n")
}

fn put_ok<W: Write>(to: &mut W, c: Counts, m: MissionCounts) -> io::Result<()> {
    let rows = [
        c.segments,
        c.zones,
        c.lanes,
        c.points,
        c.spots,
        c.checkpoints,
        c.stops,
        c.exits,
        m.goals,
        m.limits,
    ];
    put_line(to, b"ok", &rows)
}

fn put_refused<W: Write>(to: &mut W, why: Refusal) -> io::Result<()> {
    let place = [why.file as u32, why.line, why.number as u32, why.column];
    put_line(to, b"refused", &place)
}

// The first n bytes, or all of them.
fn first(s: &[u8], n: usize) -> &[u8] {
    if n < s.len() { &s[..n] } else { s }
}

// Fills the lent text from an open file. A byte that is left over behind a full text makes it too big. What can't be read, as a folder, is no file.
fn load_open<F: Read>(file: &mut F, text: &mut [u8]) -> usize {
    match read_full(file, text) {
        Ok(n) => {
            let mut more = [0u8; 1];
            match file.read(&mut more) {
                Ok(0) => n,
                Ok(_) => TOO_BIG,
                Err(_) => NO_FILE,
            }
        }
        Err(_) => NO_FILE,
    }
}

// Called at two places, and so not compiled into `main`: what it needs of the stack, for a path and for what is read, is given back before the tables lie there.
fn load<R: Files>(rt: &R, path: &str, text: &mut [u8]) -> usize {
    match fs::open(rt, path) {
        Ok(mut file) => load_open(&mut file, text),
        Err(_) => NO_FILE,
    }
}

// Room for 256 points and 128 rows of every other table, by their strides.
fn summarise<W: Write>(
    to: &mut W,
    network: &[u8; MOST_BYTES],
    n: usize,
    mission: &[u8; MOST_BYTES],
    m: usize,
) -> io::Result<()> {
    let mut segments = [0u32; 512];
    let mut lanes = [0u32; 640];
    let mut zones = [0u32; 768];
    let mut spots = [0u32; 256];
    let mut points = [0i32; 512];
    let mut checkpoints = [0u32; 256];
    let mut stops = [0u32; 128];
    let mut exits = [0u32; 256];
    let mut goals = [0u32; 128];
    let mut limits = [0u32; 384];
    let reply = read_pair(
        Edition::March2007,
        first(network, n),
        first(mission, m),
        &mut segments,
        &mut lanes,
        &mut zones,
        &mut spots,
        &mut points,
        &mut checkpoints,
        &mut stops,
        &mut exits,
        &mut goals,
        &mut limits,
    );
    match reply {
        Ok((c, _, m, _)) => put_ok(to, c, m),
        Err(why) => put_refused(to, why),
    }
}

fn main(rt: HostRuntime) -> io::Result<()> {
    let mut to = rt.stdout();
    let mut network = [0u8; MOST_BYTES];
    let mut mission = [0u8; MOST_BYTES];
    let n = load(&rt, "network.rndf", &mut network);
    let m = if n <= MOST_BYTES {
        load(&rt, "mission.mdf", &mut mission)
    } else {
        n
    };
    // `summarise` is called at two places too: else it would be compiled into `main`, and its tables and marks would lie on the stack while a file is loaded.
    if m < MOST_BYTES {
        summarise(&mut to, &network, n, &mission, m)
    } else if m == MOST_BYTES {
        summarise(&mut to, &network, n, &mission, MOST_BYTES)
    } else if m == TOO_BIG {
        put(&mut to, b"file too big\n")
    } else {
        put(&mut to, b"no file\n")
    }
}
