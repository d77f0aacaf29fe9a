// JSON, put into a lent output: strings with their quotation marks escaped, commas, positions, and positions one behind the other, forwards or as a ring. Every function asks for
// nothing and says what it puts of any table of points, whatever it holds.
//
// specs/Json: what is put, executable; every contract cites it. proofs/Loops: the laws of the loops. Rests on `output` (each put ensures `Wrote`), `read_rows` and `rows`.
//
// Settled: every contract says what the output and the place are, for every output and place.
#![tactic(auto)]

ghost use Rattle.std.specs.Prelude.{◌≡◌, ◌+◌, ◌-◌};
ghost use Rattle.output.specs.Pen.{pen, Wrote};
ghost use Rattle.map_json.specs.Json.{escaped, quoted, comma_from, position_at, positions, ring};

use output::{put_byte, put_bytes, put_coordinate};
use read_rows::point_at;

// ## Strings and lists

// A byte of a name. Only the quotation mark has to be escaped: no name has a backslash or a byte that is not printed.
fn put_escaped(out: &mut [u8], at: usize, b: u8) -> usize
    ensures { Wrote (pen out.old at) (escaped b) (pen out.new result) }
{
    if b == b'"' {
        return put_bytes(out, at, b"\\\"");
    }
    put_byte(out, at, b)
}

pub fn put_quoted(out: &mut [u8], at: usize, s: &[u8]) -> usize
    ensures { Wrote (pen out.old at) (quoted s.now) (pen out.new result) }
{
    let mut to = put_byte(out, at, b'"');
    for &b in s {
        to = put_escaped(out, to, b);
    }
    put_byte(out, to, b'"')
}

// What stands in front of the k-th of a list, counted from 0.
pub fn put_comma(out: &mut [u8], at: usize, k: usize) -> usize
    ensures { Wrote (pen out.old at) (comma_from k) (pen out.new result) }
{
    if k == 0 {
        return at;
    }
    put_byte(out, at, b',')
}

// ## Positions

// The longitude first.
pub fn put_position(out: &mut [u8], at: usize, points: &[i32], row: usize) -> usize
    ensures { Wrote (pen out.old at) (position_at points.now row) (pen out.new result) }
{
    let point = point_at(points, row);
    let a = put_byte(out, at, b'[');
    let b = put_coordinate(out, a, point.longitude);
    let c = put_byte(out, b, b',');
    let d = put_coordinate(out, c, point.latitude);
    put_byte(out, d, b']')
}

// Points one behind the other, in file order.
pub fn put_positions(out: &mut [u8], at: usize, points: &[i32], first: u32, count: u32) -> usize
    ensures { Wrote (pen out.old at) (positions points.now first count) (pen out.new result) }
{
    let mut to = at;
    for k in 0..count as usize {
        let a = put_comma(out, to, k);
        to = put_position(out, a, points, first as usize + k);
    }
    to
}

// The last of so many rows, the first where there are none.
fn last_of(first: u32, count: u32) -> usize
    ensures { result ≡ first + (count - 1) }
{
    first as usize + (count as usize).saturating_sub(1)
}

// The same from the last to the first, and the last once more.
pub fn put_ring(out: &mut [u8], at: usize, points: &[i32], first: u32, count: u32) -> usize
    ensures { Wrote (pen out.old at) (ring points.now first count) (pen out.new result) }
{
    let n = count as usize;
    let mut to = at;
    for k in 0..n {
        let a = put_comma(out, to, k);
        to = put_position(out, a, points, first as usize + (n - 1 - k));
    }
    let b = put_byte(out, to, b',');
    put_position(out, b, points, last_of(first, count))
}
