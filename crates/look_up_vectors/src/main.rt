// The look-up of a list of checkpoint numbers, run: for each case the reply (`answered`, or `refused` with file, line and number) and every number of the lent list,
// which is full of 9 before the call. The file `stdout` was worked out by hand from request L4.
#![tactic(auto)]

use console::{put, put_decimal};
use look_up::{ListReply, points_of};
use std::io;
use std::io::Write;

fn put_number<W: Write>(to: &mut W, n: u32) -> io::Result<()> {
    put(to, b" ")?;
    put_decimal(to, n as u64)
}

fn put_all<W: Write>(to: &mut W, numbers: &[u32]) -> io::Result<()> {
    for n in numbers {
        put_number(to, *n)?;
    }
    put(to, b"\n")
}

fn put_reply<W: Write>(to: &mut W, reply: ListReply) -> io::Result<()> {
    match reply {
        Ok(()) => put(to, b"answered"),
        Err(why) => {
            put(to, b"refused")?;
            put_number(to, why.file as u32)?;
            put_number(to, why.line)?;
            put_number(to, why.number as u32)?;
            put_number(to, why.column)?;
            put(to, b":")
        }
    }
}

fn ask<W: Write>(
    to: &mut W,
    checkpoints: &[u32],
    numbers: &[u32],
    points: &mut [u32],
) -> io::Result<()> {
    let reply = points_of(checkpoints, numbers, points);
    put_reply(to, reply)?;
    put_all(to, points)
}

// Three rows, the third with the first one's number; numbers that repeat, one that is unknown, and 0.
fn first_rows<W: Write>(to: &mut W) -> io::Result<()> {
    let table = [7u32, 1, 9, 5, 7, 3];
    let mut points = [9u32; 5];
    ask(to, &table, &[7u32, 9, 8, 0, 7], &mut points)
}

// Lists without a number, and lists that differ in length: 20 comes first, whatever the table.
fn lengths<W: Write>(to: &mut W) -> io::Result<()> {
    let table = [7u32, 1];
    let mut none = [9u32; 0];
    let mut one = [9u32; 1];
    let mut two = [9u32; 2];
    ask(to, &table, &[0u32; 0], &mut none)?;
    ask(to, &table, &[7u32], &mut two)?;
    ask(to, &table, &[7u32, 9], &mut one)?;
    ask(to, &[0u32; 0], &[7u32], &mut two)?;
    ask(to, &[0u32; 0], &[0u32; 0], &mut one)
}

// One word is no row; 4,294,967,295 as a number that is unknown, as one that a row has, and as a point.
fn words<W: Write>(to: &mut W) -> io::Result<()> {
    let mut one = [9u32; 1];
    let mut three = [9u32; 3];
    ask(to, &[7u32], &[7u32], &mut one)?;
    ask(to, &[7u32, 1, 4294967295], &[4294967295u32], &mut one)?;
    ask(
        to,
        &[4294967295u32, 6, 8, 4294967295],
        &[4294967295u32, 8, 6],
        &mut three,
    )
}

// Twenty rows and a word: row i has the number i + 1 and the point 100 + i, but for row 18, which has the number of row 7 again.
fn twenty_rows() -> [u32; 41] {
    let mut table = [0u32; 41];
    for i in 0..20 {
        let at = i * 2;
        table[at] = i as u32 + 1;
        table[at + 1] = 100 + i as u32;
    }
    table[36] = 8;
    table[40] = 21;
    table
}

// More rows than are asked at once: every number is found in its own row, the first of two wins, and the word behind the last row is no row.
fn many<W: Write>(to: &mut W) -> io::Result<()> {
    let table = twenty_rows();
    let mut points = [9u32; 10];
    ask(
        to,
        &table,
        &[1u32, 7, 8, 9, 16, 17, 18, 19, 20, 21],
        &mut points,
    )
}

fn main(rt: HostRuntime) -> io::Result<()> {
    let mut to = rt.stdout();
    first_rows(&mut to)?;
    lengths(&mut to)?;
    words(&mut to)?;
    many(&mut to)
}
