// A plain line of an RNDF read in one pass, straight from the text: its statement, where it ends, and where its last field starts. Plain is a line whose fields are separated and spelled as in most
// lines; of any other nothing is said, and it is cut into its fields as ever (`said_line`). No test is left out: of a plain line 2, 3, 4, 7 and 8 cannot come, and 5, 6, 9 and 25
// follow for both by the same functions of `place`.
//
// specs/Plain: what is said of a line: where it ends, where its last field starts, and that the judge makes of it what it makes of the statement alone. specs/Fields: the same of its fields.
// proofs/Spelt: its fields; proofs/Made: what they make; proofs/Whole: the line. That the judge looks at such a line's fields is a law of `plain_fields`.
//
// Rests on `plain_fields`, `plain_parts`, `plain_word`, `judge` and what they rest on.
#![tactic(auto)]

ghost use Rattle.std.specs.Prelude.{◌≡◌, ◌<◌, ◌≤◌, length, get_or};
ghost use Rattle.made_out.specs.Made.{shapes};
ghost use Rattle.plain_line.specs.Fields.{BehindStands, FieldsStand};
ghost use Rattle.plain_line.specs.Plain.{FewBytes, ShortEnd, PlainStands};

use made_out::{bare, named, numbered, paired, shape_of, sided};
use number::{Id, is_name_length};
use plain_parts::{coordinate_at, end_at, gap_at, integer_at, name_end, pair_at, triple_at};
use plain_word::{boundary_at, keyword_at};
use scan::{is_digit, not_separator_from};
use statement::{Statement, kinds};

// A line: a statement with its kind, the line's end, and where its last field starts; or none, and the end.
#[derive(Clone, Copy)]
pub enum Plain {
    Said(u8, Statement, usize, usize),
    Blank(usize),
    No,
}

// A point's line: an identifier and two coordinates.
fn point_said(s: &[u8], from: usize) -> Option<(u8, Statement, usize, usize)>
    ensures { FieldsStand s.now from result }
{
    let (x, y, z, i) = triple_at(s, from)?;
    let b = gap_at(s, i)?;
    let (latitude, j) = coordinate_at(s, b)?;
    let c = gap_at(s, j)?;
    let (longitude, k) = coordinate_at(s, c)?;
    Some((
        kinds::POINT,
        Statement::Point(Id { x, y, z }, latitude, longitude),
        k,
        c,
    ))
}

// A name behind a keyword: its start, which must fit into 32 bits, and its length.
fn name_behind(s: &[u8], from: usize, kind: u8) -> Option<(Statement, usize, usize)>
    requires { (get_or shapes kind 0 ≡ 1) × (from ≤ length s.now) }
    ensures { BehindStands s.now from kind result }
{
    let e = name_end(s, from);
    let n = e - from;
    if is_name_length(n) && from < 4294967296 {
        Some((named(kind, from as u32, n as u32), e, from))
    } else {
        None
    }
}

// An integer behind a keyword.
fn number_behind(s: &[u8], from: usize, kind: u8) -> Option<(Statement, usize, usize)>
    requires { get_or shapes kind 0 ≡ 2 }
    ensures { BehindStands s.now from kind result }
{
    let (n, e) = integer_at(s, from)?;
    Some((numbered(kind, n), e, from))
}

// An identifier m.n.
fn pair_behind(s: &[u8], from: usize, kind: u8) -> Option<(Statement, usize, usize)>
    requires { get_or shapes kind 0 ≡ 3 }
    ensures { BehindStands s.now from kind result }
{
    let (m, n, e) = pair_at(s, from)?;
    Some((paired(kind, m, n), e, from))
}

// A boundary word.
fn side_behind(s: &[u8], from: usize, kind: u8) -> Option<(Statement, usize, usize)>
    requires { get_or shapes kind 0 ≡ 4 }
    ensures { BehindStands s.now from kind result }
{
    let (b, e) = boundary_at(s, from)?;
    Some((sided(kind, b), e, from))
}

// A checkpoint's point and number.
fn checkpoint_behind(s: &[u8], from: usize) -> Option<(Statement, usize, usize)>
    ensures { BehindStands s.now from 14 result }
{
    let (x, y, z, i) = triple_at(s, from)?;
    let b = gap_at(s, i)?;
    let (n, e) = integer_at(s, b)?;
    Some((Statement::Checkpoint(Id { x, y, z }, n), e, b))
}

// A stop's point.
fn stop_behind(s: &[u8], from: usize) -> Option<(Statement, usize, usize)>
    ensures { BehindStands s.now from 15 result }
{
    let (x, y, z, e) = triple_at(s, from)?;
    Some((Statement::Stop(Id { x, y, z }), e, from))
}

// An exit's point and entry.
fn exit_behind(s: &[u8], from: usize) -> Option<(Statement, usize, usize)>
    ensures { BehindStands s.now from 16 result }
{
    let (x, y, z, i) = triple_at(s, from)?;
    let b = gap_at(s, i)?;
    let (to_x, to_y, to_z, e) = triple_at(s, b)?;
    Some((
        Statement::Exit(
            Id { x, y, z },
            Id {
                x: to_x,
                y: to_y,
                z: to_z,
            },
        ),
        e,
        b,
    ))
}

// Checkpoints, stops and exits.
fn mark_behind(s: &[u8], from: usize, kind: u8) -> Option<(Statement, usize, usize)>
    ensures { BehindStands s.now from kind result }
{
    match kind {
        kinds::CHECKPOINT => checkpoint_behind(s, from),
        kinds::STOP => stop_behind(s, from),
        kinds::EXIT => exit_behind(s, from),
        _ => None,
    }
}

// The fields behind the keyword of a kind with this shape.
fn shape_behind(s: &[u8], from: usize, kind: u8, shape: u8) -> Option<(Statement, usize, usize)>
    requires { (get_or shapes kind 0 ≡ shape) × (from ≤ length s.now) }
    ensures { BehindStands s.now from kind result }
{
    match shape {
        2 => number_behind(s, from, kind),
        3 => pair_behind(s, from, kind),
        4 => side_behind(s, from, kind),
        1 => name_behind(s, from, kind),
        _ => mark_behind(s, from, kind),
    }
}

// A line that begins with a keyword.
fn word_said(s: &[u8], from: usize) -> Option<(u8, Statement, usize, usize)>
    ensures { FieldsStand s.now from result }
{
    let (kind, w) = keyword_at(s, from)?;
    let shape = shape_of(kind);
    if shape == 0 {
        return Some((kind, bare(kind), w, from));
    }
    let b = gap_at(s, w)?;
    let (said, e, last) = shape_behind(s, b, kind, shape)?;
    Some((kind, said, e, last))
}

// The fields of a line, the first of which starts there.
fn fields_said(s: &[u8], from: usize) -> Option<(u8, Statement, usize, usize)>
    requires { from < length s.now }
    ensures { FieldsStand s.now from result }
{
    if is_digit(s[from]) {
        point_said(s, from)
    } else {
        word_said(s, from)
    }
}

// The end of a line that starts at `from`, where the line has at most 512 bytes.
fn short_end(from: usize, end: usize) -> Option<usize>
    ensures { FewBytes from end result }
{
    if from <= end && end - from <= 512 {
        Some(end)
    } else {
        None
    }
}

// The end of a line that starts at `from`, of which all up to `stop` is known. Most lines end right there, and those are told here: a call for each costs a twentieth of the reading.
fn end_of(text: &[u8], from: usize, stop: usize) -> Option<usize>
    ensures { ShortEnd text.now from stop result }
{
    if stop < text.len() && text[stop] == b'\n' {
        return short_end(from, stop);
    }
    let end = end_at(text, stop)?;
    short_end(from, end)
}

// A line without fields.
fn blank_line(text: &[u8], from: usize) -> Plain
    ensures { PlainStands text.now from result }
{
    let Some(e) = end_of(text, from, from) else {
        return Plain::No;
    };
    Plain::Blank(e)
}

// The line that starts there, where it is plain.
pub fn plain_line(text: &[u8], from: usize) -> Plain
    ensures { PlainStands text.now from result }
{
    let at = not_separator_from(text, from);
    if at < text.len() {
        match fields_said(text, at) {
            Some((kind, said, stop, last)) => {
                let Some(e) = end_of(text, from, stop) else {
                    return Plain::No;
                };
                Plain::Said(kind, said, e, last)
            }
            None => blank_line(text, from),
        }
    } else {
        Plain::No
    }
}
