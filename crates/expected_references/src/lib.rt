// What may stand where a reference is at fault (12 to 18), told from the texts alone: no table is needed. The words are those of expected_law/specs/Telling; nothing is required, whatever the texts are.
// Lists are put as they are found, one walk over the lines each: the first six, and how many more there are. Of a text that is too long nothing is listed.
//
// specs/Named: what the lines of the texts name, executable. specs/Listing: how a list is put. That what is listed is the law's is `expected_named`.
//
// Rests on `find_line` (the kind of a line), `line`, `number`, `marks`, `shown`, `expected_words` and `output` (each put ensures `Wrote`), and on what they rest on.
#![tactic(auto)]

ghost use Rattle.std.specs.Prelude.{◌≡◌, map, ◌-◌, take, eqb};
ghost use Rattle.terms.specs.Ascii.{ascii};
ghost use Rattle.terms.specs.Words.{pick};
ghost use Rattle.line.specs.Lines.{lines_of};
ghost use Rattle.number.specs.Decimal.{decimal};
ghost use Rattle.output.specs.Pen.{pen, Wrote};
ghost use Rattle.marks.specs.Marks.{with_mark, mark_all};
ghost use Rattle.expected_law.specs.Expected.{entries, new_number, the_name, goals, ids, missing};
ghost use Rattle.expected_law.specs.Telling.{points_words, told};
ghost use Rattle.expected_references.specs.Listing.{element, listing_end, listing};
ghost use Rattle.expected_references.specs.Named.{span_of, field_on_of, id_of, point_of, number_on_of, kept_id_of, ends_part_of, low_in_of, is_part_of, with_part_of, ids_in, limit_ids, entries_in, name_in_of, goals_in, unlimited_in};

use expected_words::{put_and_more, put_point_words};
use find_line::{fields_end, mdf_line_kind, rndf_line_kind};
use line::{Fields, Span, fields_of};
use marks::{is_marked, mark};
use number::{Id, integer_of, triple_of};
use output::{put_bytes, put_integer};
use refusal::LONGEST_TEXT;
use scan::far_byte_from;
use shown::{first, line_of};
use statement::{kinds, orders};

// ## Fields of a line, without its LF

fn span_of(f: Fields, i: u8) -> Span
    ensures { result ≡ span_of f i }
{
    match i {
        0 => f.a,
        1 => f.b,
        _ => f.c,
    }
}

// The field of a line with this number, 0 to 2; empty where it has none.
fn field_on(line: &[u8], i: u8) -> &[u8]
    ensures { result.now ≡ field_on_of i line.now }
{
    let s = first(line, fields_end(line));
    let span = span_of(fields_of(s), i);
    &s[span.start..span.stop]
}

// What is no identifier is 0.0.0.
fn id_of(t: Option<Id>) -> Id
    ensures { result ≡ id_of t }
{
    t.unwrap_or(Id { x: 0, y: 0, z: 0 })
}

// What is no number is 0.
#[tactic(auto, unfolding(crate::specs::Named::number_on_of))]
fn number_on(line: &[u8], i: u8) -> u32
    ensures { result ≡ number_on_of i line.now }
{
    integer_of(field_on(line, i)).unwrap_or(0)
}

// ## Lists, put element by element: the i-th from 0

// What stands before it: the head before the first, else a comma.
fn put_before(out: &mut [u8], at: usize, head: &[u8], i: u32) -> usize
    ensures { Wrote (pen out.old at) (pick (eqb i 0) head.now (ascii ", ")) (pen out.new result) }
{
    if i == 0 {
        return put_bytes(out, at, head);
    }
    put_bytes(out, at, b", ")
}

// A number; nothing behind the first six.
fn put_number(out: &mut [u8], at: usize, head: &[u8], i: u32, n: u32) -> usize
    ensures { Wrote (pen out.old at) (element head.now i (decimal n)) (pen out.new result) }
{
    if 5 < i {
        return at;
    }
    let a = put_before(out, at, head, i);
    put_integer(out, a, n)
}

// A part, told by its last point, by all its points.
fn put_part(out: &mut [u8], at: usize, head: &[u8], i: u32, last: Id) -> usize
    ensures { Wrote (pen out.old at) (element head.now i (points_words (point_of last))) (pen out.new result) }
{
    if 5 < i {
        return at;
    }
    let a = put_before(out, at, head, i);
    put_point_words(out, a, last.x, last.y, 1, last.z)
}

// Behind so many: how many were not told, or the words for none.
fn put_list_end(out: &mut [u8], at: usize, none: &[u8], count: u32) -> usize
    ensures { Wrote (pen out.old at) (listing_end none.now count) (pen out.new result) }
{
    if count == 0 {
        return put_bytes(out, at, none);
    }
    if count < 7 {
        return at;
    }
    put_and_more(out, at, count - 6)
}

// ## 12: points of declared parts

// The point of a line that has one; else that of the lines before.
fn kept_id(last: Id, line: &[u8]) -> Id
    ensures { result ≡ kept_id_of last line.now }
{
    if rndf_line_kind(line) == kinds::POINT {
        return id_of(triple_of(field_on(line, 0)));
    }
    last
}

// The line ends a lane, or, where y may be 0, a perimeter.
#[tactic(auto, unfolding(crate::specs::Named::ends_part_of))]
fn ends_part(low: u32, line: &[u8]) -> bool
    ensures { result ≡ ends_part_of low line.now }
{
    match rndf_line_kind(line) {
        kinds::END_LANE => true,
        kinds::END_PERIMETER => low == 0,
        _ => false,
    }
}

// From which y on the entry may be of the exit on this line: 1 of a perimeter's.
#[tactic(auto, unfolding(crate::specs::Named::low_in_of))]
fn low_in(rndf: &[u8], line: u32) -> u32
    ensures { result ≡ low_in_of rndf.now line }
{
    let waypoint = id_of(triple_of(field_on(line_of(rndf, line), 1)));
    u32::from(waypoint.y == 0)
}

pub fn put_entries(out: &mut [u8], at: usize, rndf: &[u8], line: u32) -> usize
    ensures { Wrote (pen out.old at) (told (entries (entries_in rndf.now line))) (pen out.new result) }
{
    let head = b"may stand here: ";
    if LONGEST_TEXT < rndf.len() {
        return put_bytes(out, at, head);
    }
    let low = low_in(rndf, line);
    let mut to = at;
    let mut count: u32 = 0;
    let mut last = Id { x: 0, y: 0, z: 0 };
    let mut from: usize = 0;
    while from < rndf.len() {
        let e = far_byte_from(rndf, from, 10);
        let this = &rndf[from..e];
        last = kept_id(last, this);
        from = e + 1;
        if ends_part(low, this) {
            to = put_part(out, to, head, count, last);
            count += 1;
            continue;
        }
    }
    put_list_end(out, to, head, count)
}

// ## 13 and 14: a new number, the RNDF's name

pub fn put_new_number(out: &mut [u8], at: usize) -> usize
    ensures { Wrote (pen out.old at) (told new_number) (pen out.new result) }
{
    put_bytes(
        out,
        at,
        b"may stand here: a number from 1 to 32768 that no line before declares",
    )
}

// The second field of the first line that names the RNDF; nothing where none does.
fn rndf_name(rndf: &[u8]) -> &[u8]
    ensures { result.now ≡ name_in_of rndf.now }
{
    let mut from: usize = 0;
    while from < rndf.len() {
        let e = far_byte_from(rndf, from, 10);
        let this = &rndf[from..e];
        if rndf_line_kind(this) == kinds::RNDF_NAME {
            return field_on(this, 1);
        }
        from = e + 1;
    }
    &rndf[..0]
}

pub fn put_rndf_name(out: &mut [u8], at: usize, rndf: &[u8]) -> usize
    ensures { Wrote (pen out.old at) (told (the_name (name_in_of rndf.now))) (pen out.new result) }
{
    let a = put_bytes(out, at, b"may stand here: ");
    put_bytes(out, a, rndf_name(rndf))
}

// ## 15: the RNDF's checkpoint numbers

pub fn put_goals(out: &mut [u8], at: usize, rndf: &[u8]) -> usize
    ensures { Wrote (pen out.old at) (told (goals (goals_in rndf.now))) (pen out.new result) }
{
    let head = b"may stand here: a checkpoint of the RNDF: ";
    let none = b"may stand here: nothing, for the RNDF has no checkpoint";
    if LONGEST_TEXT < rndf.len() {
        return put_bytes(out, at, none);
    }
    let mut to = at;
    let mut count: u32 = 0;
    let mut from: usize = 0;
    while from < rndf.len() {
        let e = far_byte_from(rndf, from, 10);
        let this = &rndf[from..e];
        from = e + 1;
        if rndf_line_kind(this) == kinds::CHECKPOINT {
            to = put_number(out, to, head, count, number_on(this, 2));
            count += 1;
            continue;
        }
    }
    put_list_end(out, to, none, count)
}

// ## 16 to 18: ids without a limit

#[tactic(auto, unfolding(crate::specs::Named::is_part_of))]
fn is_part(line: &[u8]) -> bool
    ensures { result ≡ is_part_of line.now }
{
    matches!(rndf_line_kind(line), kinds::SEGMENT | kinds::ZONE)
}

// One more behind the line of a segment or zone; no id is above 32,768.
#[tactic(auto, unfolding(crate::specs::Named::with_part_of))]
fn with_part(count: u16, line: &[u8]) -> u16
    ensures { result ≡ with_part_of count line.now }
{
    if count <= 32767 && is_part(line) {
        return count + 1;
    }
    count
}

// The ids are 1 to this: one for each segment and zone.
fn ids_in(rndf: &[u8]) -> u16
    ensures { result ≡ ids_in rndf.now }
{
    let mut count: u16 = 0;
    let mut from: usize = 0;
    while from < rndf.len() {
        let e = far_byte_from(rndf, from, 10);
        count = with_part(count, &rndf[from..e]);
        from = e + 1;
    }
    count
}

fn mark_number(marks: &mut [u8; 4096], n: u32)
    ensures { marks.new ≡ with_mark marks.old n }
{
    if n <= 32768 {
        mark(marks, n as u16);
    }
}

// The ids that the limits before this line of an MDF name.
fn mark_limits(marks: &mut [u8; 4096], mdf: &[u8], line: u32)
    ensures { marks.new ≡ mark_all marks.old (limit_ids (take (line - 1) (lines_of mdf.now))) }
{
    let mut from: usize = 0;
    let mut left = line;
    while from < mdf.len() {
        if left <= 1 {
            return;
        }
        left -= 1;
        let e = far_byte_from(mdf, from, 10);
        let this = &mdf[from..e];
        from = e + 1;
        if mdf_line_kind(this) == orders::LIMIT {
            mark_number(marks, number_on(this, 0));
            continue;
        }
    }
}

// The ids to which no line before gives a limit, rising, behind `head`; `none` where there is none.
fn put_unlimited(
    out: &mut [u8],
    at: usize,
    head: &[u8],
    none: &[u8],
    rndf: &[u8],
    mdf: &[u8],
    line: u32,
) -> usize
    ensures { Wrote (pen out.old at) (listing head.now none.now 0 (map decimal (unlimited_in rndf.now mdf.now line))) (pen out.new result) }
{
    let mut marks = [0; 4096];
    mark_limits(&mut marks, mdf, line);
    let most = ids_in(rndf);
    let mut to = at;
    let mut count: u32 = 0;
    let mut id: u16 = 0;
    while id < most {
        id += 1;
        if !is_marked(&marks, id) {
            to = put_number(out, to, head, count, id as u32);
            count += 1;
            continue;
        }
    }
    put_list_end(out, to, none, count)
}

pub fn put_ids(out: &mut [u8], at: usize, rndf: &[u8], mdf: &[u8], line: u32) -> usize
    ensures { Wrote (pen out.old at) (told (ids (unlimited_in rndf.now mdf.now line))) (pen out.new result) }
{
    put_unlimited(
        out,
        at,
        b"may stand here: an id that has no limit yet: ",
        b"may stand here: nothing, for every segment and zone has its limit",
        rndf,
        mdf,
        line,
    )
}

pub fn put_missing(out: &mut [u8], at: usize, rndf: &[u8], mdf: &[u8], line: u32) -> usize
    ensures { Wrote (pen out.old at) (told (missing (unlimited_in rndf.now mdf.now line))) (pen out.new result) }
{
    put_unlimited(
        out,
        at,
        b"without a limit: ",
        b"without a limit: ",
        rndf,
        mdf,
        line,
    )
}
