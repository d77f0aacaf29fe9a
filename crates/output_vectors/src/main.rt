// Numbers, identifiers and coordinates at their edges, written to outputs that were full of 7s before: the answer, what is written, and every
// byte of the output behind that. `stdout` was worked out from document 01 by `expected.py`, not by this program.
// `write_point` is a whole writer, proved: it shows how the laws of `output` are used.
#![tactic(auto)]

ghost use Rattle.std.specs.Prelude.{length};
ghost use Rattle.output.specs.Ended.{Output};
ghost use Rattle.output.specs.Pen.{pen, Wrote};
ghost use Rattle.output_vectors.specs.Point.{point_line};

use console::{put, put_decimal};
use output::{
    clear_output, finish, put_byte, put_bytes, put_coordinate, put_integer, put_line_end, put_pair,
    put_tab, put_triple, put_u16_be, put_u32_be,
};
use std::io;
use std::io::Write;

// ## What is said of an output

fn bytes_from<W: Write>(to: &mut W, out: &[u8], from: usize) -> io::Result<()> {
    put(to, b" then")?;
    for b in out.iter().skip(from) {
        put(to, b" ")?;
        put_decimal(to, *b as u64)?;
    }
    put(to, b"\n")
}

fn show<W: Write>(to: &mut W, out: &[u8], f: Option<usize>) -> io::Result<()> {
    match f {
        Some(n) => {
            put(to, b"written ")?;
            put_decimal(to, n as u64)?;
            put(to, b"\n")?;
            if n <= out.len() {
                put(to, &out[..n])?;
            }
            bytes_from(to, out, n)
        }
        None => {
            put(to, b"refused 19\n")?;
            bytes_from(to, out, 0)
        }
    }
}

// ## Numbers, one to a line

const INTEGERS: [u32; 9] = [0, 9, 10, 99, 100, 32768, 99999, 1000000000, 4294967295];

const COORDINATES: [i32; 13] = [
    0,
    1,
    -1,
    999999,
    -999999,
    1000000,
    -500000,
    90000000,
    180000000,
    -180000000,
    100000010,
    2147483647,
    -2147483648,
];

const PLACES: [usize; 8] = [
    2,
    16777213,
    16777214,
    16777215,
    16777216,
    18446744073709551615,
    1,
    0,
];

fn put_integers(out: &mut [u8], at: usize) -> usize {
    let mut to = at;
    for n in INTEGERS {
        let a = put_integer(out, to, n);
        to = put_line_end(out, a);
    }
    to
}

fn put_coordinates(out: &mut [u8], at: usize) -> usize {
    let mut to = at;
    for z in COORDINATES {
        let a = put_coordinate(out, to, z);
        to = put_line_end(out, a);
    }
    to
}

fn put_identifiers(out: &mut [u8], at: usize) -> usize {
    let a = put_pair(out, at, 99999, 10);
    let b = put_tab(out, a);
    let c = put_triple(out, b, 1, 100, 4294967295);
    put_line_end(out, c)
}

fn write_numbers(out: &mut [u8]) -> Option<usize> {
    clear_output(out);
    let a = put_integers(out, 0);
    let b = put_coordinates(out, a);
    let c = put_identifiers(out, b);
    finish(out, c)
}

fn show_packed<W: Write>(to: &mut W, out: &mut [u8]) -> io::Result<()> {
    let a = put_u16_be(out, 0, 258);
    let b = put_u32_be(out, a, 16909060);
    let c = put_u16_be(out, b, 65280);
    put_u32_be(out, c, 4278190335);
    bytes_from(to, out, 0)
}

// Where a put from a place leaves the pen.
fn show_places<W: Write>(to: &mut W, out: &mut [u8]) -> io::Result<()> {
    for at in PLACES {
        let place = put_byte(out, at, b'x');
        put_decimal(to, place as u64)?;
        bytes_from(to, out, 0)?;
    }
    Ok(())
}

// ## A whole writer: the line of a waypoint, and `end_lane`

fn put_point(out: &mut [u8], at: usize, y: u32, latitude: i32, longitude: i32) -> usize
    ensures { Wrote (pen out.old at) (point_line y latitude longitude) (pen out.new result) }
{
    let a = put_triple(out, at, 1, 1, y);
    let b = put_tab(out, a);
    let c = put_coordinate(out, b, latitude);
    let d = put_tab(out, c);
    let e = put_coordinate(out, d, longitude);
    let f = put_line_end(out, e);
    put_bytes(out, f, b"end_lane\n")
}

fn write_point(out: &mut [u8], y: u32, latitude: i32, longitude: i32) -> Option<usize>
    ensures { Output (length out.old) (point_line y latitude longitude) out.new result }
{
    clear_output(out);
    let at = put_point(out, 0, y, latitude, longitude);
    finish(out, at)
}

// ## The cases

// Apart, so that the proof of `numbers` need not hold the list.
fn sevens() -> [u8; 212] {
    [7u8; 212]
}

fn numbers<W: Write>(to: &mut W) -> io::Result<()> {
    let mut out = sevens();
    let f = write_numbers(&mut out);
    show(to, &out, f)?;
    let mut twelve = [7u8; 12];
    show_packed(to, &mut twelve)?;
    let mut two = [7u8; 2];
    show_places(to, &mut two)
}

// Refusal 19: exactly enough, and one byte too short.
fn points<W: Write>(to: &mut W) -> io::Result<()> {
    let mut enough = [7u8; 36];
    let f = write_point(&mut enough, 2, 45000100, -93000000);
    show(to, &enough, f)?;
    let mut short = [7u8; 35];
    let g = write_point(&mut short, 2, 45000100, -93000000);
    show(to, &short, g)
}

fn main(rt: HostRuntime) -> io::Result<()> {
    let mut to = rt.stdout();
    numbers(&mut to)?;
    points(&mut to)
}
