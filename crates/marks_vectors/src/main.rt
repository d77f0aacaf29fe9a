// The tests of `marks` at the edges of bytes and of the range, each number against each: for each first number a line, for each second number an answer and its row.
// 13: `r`, the second of two checkpoints repeats the first. 15: `f`, a goal is no checkpoint's number. 16 and 17: `n`, an id is not in the RNDF; `a`, it was given before.
// Then all numbers 1 to 32,768 in one table and behind them one of the edges: so no two numbers have the same mark.
// `stdout` was worked out from document 01 by `expected.py`, not by this program.
#![tactic(auto)]

use console::{put, put_decimal};
use marks::{BadLimit, first_bad_limit, first_foreign_goal, first_repeat};
use std::io;
use std::io::Write;

const EDGES: [u32; 14] = [
    0, 1, 7, 8, 9, 16, 17, 255, 256, 32767, 32768, 32769, 65535, 65537,
];

fn say<W: Write>(to: &mut W, letter: &[u8], row: u32) -> io::Result<()> {
    put(to, letter)?;
    put_decimal(to, row as u64)
}

fn say_row<W: Write>(to: &mut W, letter: &[u8], answer: Option<u32>) -> io::Result<()> {
    match answer {
        Some(row) => say(to, letter, row),
        None => put(to, b" -"),
    }
}

fn repeat<W: Write>(to: &mut W, a: u32, b: u32) -> io::Result<()> {
    let checkpoints = [a, 0, b, 0];
    say_row(to, b" r", first_repeat(&checkpoints, 2))
}

fn goal<W: Write>(to: &mut W, a: u32, b: u32) -> io::Result<()> {
    let checkpoints = [a, 0];
    let goals = [b];
    say_row(to, b" f", first_foreign_goal(&checkpoints, 1, &goals, 1))
}

fn limit<W: Write>(to: &mut W, a: u32, b: u32) -> io::Result<()> {
    let limits = [a, 0, 0, b, 0, 0];
    match first_bad_limit(&limits, 2, 32768) {
        BadLimit::NotThere(row) => say(to, b" n", row),
        BadLimit::Again(row) => say(to, b" a", row),
        BadLimit::Nothing => put(to, b" -"),
    }
}

// For each number the three tests against every number.
fn pairs<W: Write>(to: &mut W) -> io::Result<()> {
    for a in EDGES {
        for b in EDGES {
            repeat(to, a, b)?;
        }
        for b in EDGES {
            goal(to, a, b)?;
        }
        for b in EDGES {
            limit(to, a, b)?;
        }
        put(to, b"\n")?;
    }
    Ok(())
}

// Every number once, and one behind them.
fn behind_all<W: Write>(to: &mut W, n: u32) -> io::Result<()> {
    let mut checkpoints = [0u32; 65538];
    for i in 0..32768u32 {
        checkpoints[i as usize * 2] = i + 1;
    }
    checkpoints[65536] = n;
    say_row(to, b" r", first_repeat(&checkpoints, 32769))
}

fn main(rt: HostRuntime) -> io::Result<()> {
    let mut to = rt.stdout();
    pairs(&mut to)?;
    for n in EDGES {
        behind_all(&mut to, n)?;
    }
    put(&mut to, b"\n")
}
