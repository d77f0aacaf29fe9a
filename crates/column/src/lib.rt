// The column of a refusal of an RNDF, found again once the text is refused: the place behind the lines before it, from the reading walk (`network`), and then the field or byte at fault.
// A good text pays nothing, and no line is judged here. What it finds is said, and shown to be the law's column, in `columns`.
//
// specs/Before: the lines before the one that is wanted and the place behind them, executable. proofs/Lines: where that line starts; proofs/Places: the place there.
//
// Rests on `columns`, `column_parts`, `network` and what they rest on.
#![tactic(auto)]

ghost use Rattle.std.specs.Prelude.{◌≡◌, ◌<◌, ◌≤◌, pos, length, take, drop};
ghost use Rattle.grammar.specs.PlaceTable.{rndf_table_of};
ghost use Rattle.line.specs.Lines.{lines_of};
ghost use Rattle.line.specs.Forms.{fields_in_of, part};
ghost use Rattle.statement.specs.declared.Statement.TheVariants as st;
ghost use Rattle.place.specs.Step.{permits_of};
ghost use Rattle.judge.specs.RndfLine.{rndf_kind, judging};
ghost use Rattle.columns.specs.Locating.{tried_of, known_field_of};
ghost use Rattle.columns.specs.RndfColumns.{low_id, checkpoint_wrong_of, exit_wrong_of, latitude_wrong_of, point_wrong_of, rndf_wrong, rndf_kind_field, rndf_field_of, rndf_fields_column, rndf_content_column, rndf_line_column, rndf_column_in};
ghost use Rattle.refusal.specs.Size.{most};
ghost use Rattle.column.specs.Before.{bytes_before, place_behind_of, place_before_of, column_behind};

use column_parts::{bad_at, listed_at, start_of};
use coordinate::coordinate_of;
use edition::Edition;
use line::{Fields, fields_of, trimmed};
use made_out::fields_needed;
use network::walk_lines;
use number::{Id, triple_of};
use place::Place;
use place_table::rndf_table;
use refusal::LONGEST_TEXT;
use scan::{far_byte_from, two_from};
use statement::kinds;

// For 8 spellings alone count; for 9 the values that are permitted here.
fn tried(number: u8, permitted: bool) -> bool
    ensures { result ≡ tried_of number permitted }
{
    if number == 8 { true } else { permitted }
}

// The tests of `Place::tested`, one by one: were it asked here too, the compiler would no longer do it inside the reading walk, and every line of a good text would pay for it.
// A checkpoint on this waypoint, with a number that is always permitted.
fn marks(p: Place, i: Id) -> bool
    ensures { result ≡ permits_of p (st.Checkpoint i 1) }
{
    let part = p.part;
    permitted::own_checkpoint(
        part.major(),
        part.minor(),
        part.first_marked(),
        p.points,
        i,
        1,
    )
}

// An exit from this point, with an entry that is always permitted.
fn leads(p: Place, i: Id) -> bool
    ensures { result ≡ permits_of p (st.Exit i low_id) }
{
    let part = p.part;
    let low = Id { x: 1, y: 1, z: 1 };
    part.exits(p.points, i, low)
}

// A point with this identifier and latitude, and a longitude that is always permitted.
fn passes(p: Place, i: Id, latitude: i32) -> bool
    ensures { result ≡ permits_of p (st.Point i latitude (pos 0)) }
{
    let part = p.part;
    permitted::the_point(part.major(), part.minor(), p.due, i, latitude, 0)
}

// The field at fault, counted from 0, of a checkpoint's line: with a number that is always permitted behind the waypoint.
fn checkpoint_wrong(p: Place, number: u8, i: Option<Id>) -> u8
    ensures { result ≡ checkpoint_wrong_of p number i }
{
    let Some(id) = i else {
        return 1;
    };
    if tried(number, marks(p, id)) { 2 } else { 1 }
}

// Of an exit's line: with an entry that is always permitted.
fn exit_wrong(p: Place, number: u8, i: Option<Id>) -> u8
    ensures { result ≡ exit_wrong_of p number i }
{
    let Some(id) = i else {
        return 1;
    };
    if tried(number, leads(p, id)) { 2 } else { 1 }
}

// Of a point's line: its identifier, with 0.000000 behind it; its latitude; its longitude.
fn latitude_wrong(p: Place, number: u8, id: Id, a: Option<i32>) -> u8
    ensures { result ≡ latitude_wrong_of p number id a }
{
    let Some(latitude) = a else {
        return 1;
    };
    if tried(number, passes(p, id, latitude)) {
        2
    } else {
        1
    }
}

fn point_wrong(p: Place, number: u8, i: Option<Id>, a: Option<i32>) -> u8
    ensures { result ≡ point_wrong_of p number i a }
{
    let Some(id) = i else {
        return 0;
    };
    if tried(number, passes(p, id, 0)) {
        latitude_wrong(p, number, id, a)
    } else {
        0
    }
}

// Of a line of a kind, with 8 or 9. The kinds that are not named have one field behind their keyword.
fn wrong(p: Place, number: u8, s: &[u8], f: Fields, kind: u8) -> u8
    requires { f ≡ fields_in_of s.now }
    ensures { result ≡ rndf_wrong p number s.now f kind }
{
    let a = f.a;
    let b = f.b;
    let i = a.start;
    let j = a.stop;
    let k = b.start;
    let l = b.stop;
    match kind {
        kinds::CHECKPOINT => checkpoint_wrong(p, number, triple_of(&s[k..l])),
        kinds::EXIT => exit_wrong(p, number, triple_of(&s[k..l])),
        kinds::POINT => point_wrong(p, number, triple_of(&s[i..j]), coordinate_of(&s[k..l])),
        _ => 1,
    }
}

// Of a line of a kind: the first field where the kind may not stand, or has another number of fields.
fn kind_field(table: &[[u8; 30]; 27], s: &[u8], f: Fields, p: Place, number: u8, kind: u8) -> u8
    requires { (f ≡ fields_in_of s.now) × (kind < 30) }
    ensures { result ≡ rndf_kind_field table.now s.now f p number kind }
{
    let cell = p.cell(table, kind);
    let Ok(()) = p.refuses(cell) else {
        return 0;
    };
    if f.count == fields_needed(kind) {
        wrong(p, number, s, f, kind)
    } else {
        0
    }
}

// Of a line, with 8 or 9: the first field where its kind is not known.
fn known_field(table: &[[u8; 30]; 27], s: &[u8], f: Fields, p: Place, number: u8) -> u8
    requires { f ≡ fields_in_of s.now }
    ensures { result ≡ known_field_of (judging table.now) rndf_wrong s.now f p number (rndf_kind (part s.now f.a)) }
{
    let first = f.a;
    let a = first.start;
    let e = first.stop;
    let kind = judge::kind_of(&s[a..e]);
    if kind < kinds::COUNT {
        kind_field(table, s, f, p, number, kind)
    } else {
        0
    }
}

// The field at fault, counted from 0.
fn field_of(table: &[[u8; 30]; 27], s: &[u8], f: Fields, p: Place, number: u8) -> u8
    requires { f ≡ fields_in_of s.now }
    ensures { result ≡ rndf_field_of table.now s.now f p number }
{
    match number {
        8 => known_field(table, s, f, p, number),
        9 => known_field(table, s, f, p, number),
        _ => listed_at(number),
    }
}

// The same of what stands before a comment, for who asks what may stand there.
pub fn field_at_fault(table: &[[u8; 30]; 27], s: &[u8], p: Place, number: u8) -> u8
    ensures { result ≡ rndf_field_of table.now s.now (fields_in_of s.now) p number }
{
    let f = fields_of(s);
    field_of(table, s, f, p, number)
}

// The column of the field at fault, of what stands before a comment; 0 where no field does.
fn fields_column(table: &[[u8; 30]; 27], s: &[u8], p: Place, number: u8) -> usize
    ensures { result ≡ rndf_fields_column table.now s.now p number }
{
    let f = fields_of(s);
    if f.count == 0 {
        return 0;
    }
    let i = field_of(table, s, f, p, number);
    let start = start_of(f, i);
    start + 1
}

// By the number: of the length, the comment, the byte or the field.
fn content_column(table: &[[u8; 30]; 27], s: &[u8], p: Place, number: u8) -> usize
    ensures { result ≡ rndf_content_column table.now s.now p number }
{
    if number == 2 {
        return 513;
    }
    let mark = two_from(s, 0, b'/', b'*');
    if number == 3 {
        return mark + 1;
    }
    if number == 4 {
        let bad = bad_at(s);
        return bad + 1;
    }
    fields_column(table, &s[..mark], p, number)
}

// The column of a line, without its LF, at a place that refuses it with this number. The table is `place_table::rndf_table()`.
fn line_column(table: &[[u8; 30]; 27], s: &[u8], p: Place, number: u8) -> usize
    ensures { result ≡ rndf_line_column table.now s.now p number }
{
    let e = trimmed(s);
    content_column(table, &s[..e], p, number)
}

// ## The line in the text

// Where line `wanted` starts; behind the text where there is no such line.
fn start_of_line(text: &[u8], wanted: u32) -> usize
    requires { length text.now ≤ most }
    ensures { result ≡ bytes_before 1 wanted (lines_of text.now) }
{
    let mut from: usize = 0;
    let mut line: u32 = 1;
    while from < text.len() {
        if line == wanted {
            return from;
        }
        from = far_byte_from(text, from, 10) + 1;
        line += 1;
    }
    from
}

// The place behind all lines of a text: the reading walk, with no room for a row. The table is `place_table::rndf_table()`.
fn place_behind(table: &[[u8; 30]; 27], text: &[u8]) -> Option<Place>
    requires { table.now ≡ rndf_table_of }
    ensures { result ≡ place_behind_of text.now }
{
    let mut segments: [u32; 0] = [0; 0];
    let mut lanes: [u32; 0] = [0; 0];
    let mut zones: [u32; 0] = [0; 0];
    let mut spots: [u32; 0] = [0; 0];
    let mut points: [i32; 0] = [0; 0];
    let mut checkpoints: [u32; 0] = [0; 0];
    let mut stops: [u32; 0] = [0; 0];
    let mut exits: [u32; 0] = [0; 0];
    let walked = walk_lines(
        Edition::March2007,
        table,
        text,
        &mut segments,
        &mut lanes,
        &mut zones,
        &mut spots,
        &mut points,
        &mut checkpoints,
        &mut stops,
        &mut exits,
    );
    match walked {
        Err(_) => None,
        Ok((place, _, _)) => Some(place),
    }
}

// The place behind the lines before line `wanted`; behind all of them where there is no such line. None behind a line that is refused, or where the text is too long.
pub fn place_before(text: &[u8], wanted: u32) -> Option<Place>
    ensures { result ≡ place_before_of text.now wanted }
{
    if LONGEST_TEXT < text.len() {
        return None;
    }
    let from = start_of_line(text, wanted);
    let stop = if from < text.len() { from } else { text.len() };
    let table = rndf_table();
    place_behind(&table, &text[..stop])
}

// The column of the line that starts here.
fn column_at(text: &[u8], from: usize, number: u8) -> usize
    requires { from < length text.now }
    ensures { result ≡ column_behind number (place_behind_of (take from text.now)) (lines_of (drop from text.now)) }
{
    let table = rndf_table();
    let Some(place) = place_behind(&table, &text[..from]) else {
        return 0;
    };
    let e = far_byte_from(text, from, 10);
    line_column(&table, &text[from..e], place, number)
}

// The column of a line of an RNDF that is refused with this number; 0 where there is no such line, or the text is too long.
pub fn rndf_column(text: &[u8], wanted: u32, number: u8) -> u32
    ensures { result ≡ rndf_column_in text.now wanted number }
{
    if LONGEST_TEXT < text.len() {
        return 0;
    }
    let from = start_of_line(text, wanted);
    if from < text.len() {
        column_at(text, from, number) as u32
    } else {
        0
    }
}
