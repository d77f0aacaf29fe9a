// What comes out for a line in the mending tool (request L9), put to a lent output; and where a line stops.
//
// specs/Pieces: the piece of a line, all pieces, the lines that come out and the rows that are listed, executable, going forward. That they are what the law says is `mend_told`.
//
// Rests on `mend_lines`, `output`, `room`, `find_line`, `scan` and what they rest on.
#![tactic(auto)]

ghost use Rattle.std.specs.Prelude.{◌≡◌, ◌++◌, take, drop};
ghost use Rattle.number.specs.House.{house_integer};
ghost use Rattle.room.specs.Room.{fitted};
ghost use Rattle.output.specs.Pen.{pen, Wrote};
ghost use Rattle.mend_pieces.specs.Pieces.{stop_of, piece_of};

use mend_lines::Becomes;
use output::{put_bytes, put_integer};
use room::in_word;
use scan::far_byte_from;

// ## Where a line stops
// Where the line that starts at a place of the text stops: behind its LF, or where the text ends.
pub fn line_stop(text: &[u8], from: usize) -> usize
    ensures { result ≡ stop_of text.now from }
{
    let e = far_byte_from(text, from, 10);
    if e < text.len() { e + 1 } else { e }
}

// ## What comes out
// A line up to a place of it; all of it where it is shorter.
fn put_front(out: &mut [u8], at: usize, line: &[u8], end: usize) -> usize
    ensures { Wrote (pen out.old at) (take end line.now) (pen out.new result) }
{
    if end <= line.len() {
        return put_bytes(out, at, &line[..end]);
    }
    put_bytes(out, at, line)
}

// A line from a place of it on; nothing where it is shorter.
fn put_rest(out: &mut [u8], at: usize, line: &[u8], start: usize) -> usize
    ensures { Wrote (pen out.old at) (drop start line.now) (pen out.new result) }
{
    if start <= line.len() {
        return put_bytes(out, at, &line[start..]);
    }
    at
}

// A number in place of what stands there from a place of the line to another.
fn put_recounted(
    out: &mut [u8],
    at: usize,
    line: &[u8],
    start: usize,
    stop: usize,
    n: usize,
) -> usize
    ensures { Wrote (pen out.old at) (take start line.now ++ (house_integer (fitted n) ++ drop stop line.now)) (pen out.new result) }
{
    let front = put_front(out, at, line, start);
    let number = put_integer(out, front, in_word(n));
    put_rest(out, number, line, stop)
}

// What comes out for a line, with its LF or without.
pub fn put_piece(out: &mut [u8], at: usize, line: &[u8], becomes: Becomes) -> usize
    ensures { Wrote (pen out.old at) (piece_of becomes line.now) (pen out.new result) }
{
    match becomes {
        Becomes::Stays => put_bytes(out, at, line),
        Becomes::Goes(_) => at,
        Becomes::Recount(start, stop, n) => put_recounted(out, at, line, start, stop, n),
    }
}
