// Writes the house writing of `network.rndf`, from the folder that it is run in, to standard output; and behind it, where there is a `mission.mdf`, that of the MDF. Where either is
// refused it prints one line and nothing else: `refused` with file, line and number; `no file` where there is no RNDF, `file too big` for the first file that is over 8,192 bytes.
// Both files are loaded before either is judged, by the present edition. There is room for 256 points and 128 rows of every other table, as in the summary program.
// Rests on `writer`, `console` and std. Nothing is promised of what is printed (no contract can say it); what is written is `write_rndf`'s and `write_mdf`'s, and proved there.
//
// `data/` is yard B with every option and a mission for it, both as untidy as a text may be; `stdout` was written by hand from it.
#![tactic(auto)]

use console::{put, put_decimal, read_full};
use edition::Edition;
use refusal::Refusal;
use std::io::{Read, Write};
use std::rt::Files;
use std::{fs, io};
use writer::{write_mdf, write_rndf};
use writings::{WriteMdfReply, WriteReply};

const MOST_BYTES: usize = 8192;

// A house writing is at most an LF longer than its text.
const MOST_WRITTEN: usize = 8193;

// What came of a file: so many bytes of it, or why there are none.
#[derive(Clone, Copy)]
enum Loaded {
    Bytes(usize),
    TooBig,
    NoFile,
}

fn put_count<W: Write>(to: &mut W, n: u32) -> io::Result<()> {
    put(to, b" ")?;
    put_decimal(to, n as u64)
}

fn put_refused<W: Write>(to: &mut W, why: Refusal) -> io::Result<()> {
    put(to, b"refused")?;
    put_count(to, why.file as u32)?;
    put_count(to, why.line)?;
    put_count(to, why.number as u32)?;
    put_count(to, why.column)?;
    put(to, b"\n")
}

// The first n bytes, or all of them.
fn first(s: &[u8], n: usize) -> &[u8] {
    if n < s.len() { &s[..n] } else { s }
}

// ## Files

// Fills the lent text from an open file. A byte that is left over behind a full text makes it too big. What can't be read, as a folder, is no file.
fn load_open<F: Read>(file: &mut F, text: &mut [u8]) -> Loaded {
    match read_full(file, text) {
        Ok(n) => {
            let mut more = [0u8; 1];
            match file.read(&mut more) {
                Ok(0) => Loaded::Bytes(n),
                Ok(_) => Loaded::TooBig,
                Err(_) => Loaded::NoFile,
            }
        }
        Err(_) => Loaded::NoFile,
    }
}

fn load<R: Files>(rt: &R, path: &str, text: &mut [u8]) -> Loaded {
    match fs::open(rt, path) {
        Ok(mut file) => load_open(&mut file, text),
        Err(_) => Loaded::NoFile,
    }
}

// ## The two writers, with room for 256 points and 128 rows of every other table, by their strides

fn write_network(rndf: &[u8], out: &mut [u8]) -> Result<usize, Refusal> {
    let mut segments = [0u32; 512];
    let mut lanes = [0u32; 640];
    let mut zones = [0u32; 768];
    let mut spots = [0u32; 256];
    let mut points = [0i32; 512];
    let mut checkpoints = [0u32; 256];
    let mut stops = [0u32; 128];
    let mut exits = [0u32; 256];
    let reply = write_rndf(
        Edition::March2007,
        rndf,
        &mut segments,
        &mut lanes,
        &mut zones,
        &mut spots,
        &mut points,
        &mut checkpoints,
        &mut stops,
        &mut exits,
        out,
    );
    match reply {
        Ok((_, _, n)) => Ok(n as usize),
        Err(why) => Err(why),
    }
}

fn write_mission(rndf: &[u8], mdf: &[u8], out: &mut [u8]) -> Result<usize, Refusal> {
    let mut segments = [0u32; 512];
    let mut lanes = [0u32; 640];
    let mut zones = [0u32; 768];
    let mut spots = [0u32; 256];
    let mut points = [0i32; 512];
    let mut checkpoints = [0u32; 256];
    let mut stops = [0u32; 128];
    let mut exits = [0u32; 256];
    let mut goals = [0u32; 128];
    let mut limits = [0u32; 384];
    let reply = write_mdf(
        Edition::March2007,
        rndf,
        mdf,
        &mut segments,
        &mut lanes,
        &mut zones,
        &mut spots,
        &mut points,
        &mut checkpoints,
        &mut stops,
        &mut exits,
        &mut goals,
        &mut limits,
        out,
    );
    match reply {
        Ok((_, _, _, _, n)) => Ok(n as usize),
        Err(why) => Err(why),
    }
}

// ## What is printed

// An RNDF's house writing and what stands behind it.
fn show_network<W: Write>(to: &mut W, rndf: &[u8], behind: &[u8]) -> io::Result<()> {
    let mut out = [0u8; MOST_WRITTEN];
    let reply = write_network(rndf, &mut out);
    match reply {
        Ok(n) => {
            put(to, first(&out, n))?;
            put(to, behind)
        }
        Err(why) => put_refused(to, why),
    }
}

// The pair is judged first: nothing is printed of an RNDF whose MDF is refused.
fn show_pair<W: Write>(to: &mut W, rndf: &[u8], mdf: &[u8]) -> io::Result<()> {
    let mut out = [0u8; MOST_WRITTEN];
    let reply = write_mission(rndf, mdf, &mut out);
    match reply {
        Ok(n) => show_network(to, rndf, first(&out, n)),
        Err(why) => put_refused(to, why),
    }
}

fn with_network<R: Files, W: Write>(rt: &R, to: &mut W, rndf: &[u8]) -> io::Result<()> {
    let mut mission = [0u8; MOST_BYTES];
    let loaded = load(rt, "mission.mdf", &mut mission);
    match loaded {
        Loaded::Bytes(n) => show_pair(to, rndf, first(&mission, n)),
        Loaded::TooBig => put(to, b"file too big\n"),
        Loaded::NoFile => show_network(to, rndf, b""),
    }
}

fn main(rt: HostRuntime) -> io::Result<()> {
    let mut to = rt.stdout();
    let mut network = [0u8; MOST_BYTES];
    let loaded = load(&rt, "network.rndf", &mut network);
    match loaded {
        Loaded::Bytes(n) => with_network(&rt, &mut to, first(&network, n)),
        Loaded::TooBig => put(&mut to, b"file too big\n"),
        Loaded::NoFile => put(&mut to, b"no file\n"),
    }
}
