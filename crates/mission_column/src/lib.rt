// The column of a refusal of an MDF, found again once the text is refused: one more walk to the line, and then the field or byte at fault. A good text pays nothing.
// What it finds is said, and shown to be the law's column, in `columns`.
//
// specs/Before: the place behind the lines before the one that is wanted, and where it starts, executable. proofs/Lines: one line of the walk, and the column of the line where it ends.
//
// Rests on `columns`, `column_parts`, `walk` and what they rest on.
#![tactic(auto)]

ghost use Rattle.std.specs.Prelude.{◌≡◌, ◌<◌, ◌≤◌, length};
ghost use Rattle.line.specs.Forms.{fields_in_of, part};
ghost use Rattle.mission_judge.specs.MdfLine.{mdf_kind, judging};
ghost use Rattle.statement.specs.declared.Order.TheVariants as or;
ghost use Rattle.mission_place.specs.Step.{permits_of};
ghost use Rattle.columns.specs.Locating.{tried_of, known_field_of};
ghost use Rattle.columns.specs.MdfColumns.{minimum_wrong_of, limit_wrong_of, mdf_wrong, mdf_kind_field, mdf_field_of, mdf_fields_column, mdf_content_column, mdf_line_column, mdf_column_in};
ghost use Rattle.refusal.specs.Size.{most};
ghost use Rattle.mission_column.specs.Before.{arrived, mission_place_before_of};

use column_parts::{bad_at, listed_at, start_of};
use line::{Fields, fields_of, trimmed};
use made_out::order_fields_needed;
use mission_judge::{MissionVerdict, mission_judge_line};
use mission_place::MissionPlace;
use number::integer_of;
use place_table::mdf_table;
use refusal::LONGEST_TEXT;
use scan::{far_byte_from, two_from};
use statement::orders;

// For 8 spellings alone count; for 9 the values that are permitted. They are tested here and not by `MissionPlace::step`, which the compiler so does inside the judge (as in `column`).
fn tried(number: u8, id: u32, minimum: u32) -> bool
    ensures { result ≡ tried_of number (permits_of (or.Limit id minimum 0)) }
{
    if number == 8 {
        true
    } else {
        permitted::limited(id, minimum, 0)
    }
}

// The field at fault, counted from 0, of a limit's line: its id, with the minimum 0 and no ceiling behind it; its minimum, with no ceiling; its maximum.
fn minimum_wrong(number: u8, id: u32, a: Option<u32>) -> u8
    ensures { result ≡ minimum_wrong_of number id a }
{
    let Some(minimum) = a else {
        return 1;
    };
    if tried(number, id, minimum) { 2 } else { 1 }
}

fn limit_wrong(number: u8, i: Option<u32>, a: Option<u32>) -> u8
    ensures { result ≡ limit_wrong_of number i a }
{
    let Some(id) = i else {
        return 0;
    };
    if tried(number, id, 0) {
        minimum_wrong(number, id, a)
    } else {
        0
    }
}

// Of a line of a kind, with 8 or 9. A goal has one field; the kinds that are not named have one behind their keyword.
fn wrong(number: u8, s: &[u8], f: Fields, kind: u8) -> u8
    requires { f ≡ fields_in_of s.now }
    ensures { result ≡ mdf_wrong number s.now f kind }
{
    let a = f.a;
    let b = f.b;
    let i = a.start;
    let j = a.stop;
    let k = b.start;
    let l = b.stop;
    match kind {
        orders::LIMIT => limit_wrong(number, integer_of(&s[i..j]), integer_of(&s[k..l])),
        orders::GOAL => 0,
        _ => 1,
    }
}

// Of a line of a kind: the first field where the kind may not stand, or has another number of fields.
fn kind_field(
    table: &[[u8; 13]; 12],
    s: &[u8],
    f: Fields,
    p: MissionPlace,
    number: u8,
    kind: u8,
) -> u8
    requires { (f ≡ fields_in_of s.now) × (kind < 13) }
    ensures { result ≡ mdf_kind_field table.now s.now f p number kind }
{
    let cell = p.cell(table, kind);
    let Ok(()) = p.refuses(cell) else {
        return 0;
    };
    if f.count == order_fields_needed(kind) {
        wrong(number, s, f, kind)
    } else {
        0
    }
}

// Of a line, with 8 or 9: the first field where its kind is not known.
fn known_field(table: &[[u8; 13]; 12], s: &[u8], f: Fields, p: MissionPlace, number: u8) -> u8
    requires { f ≡ fields_in_of s.now }
    ensures { result ≡ known_field_of (judging table.now) (λ p. mdf_wrong) s.now f p number (mdf_kind p (part s.now f.a)) }
{
    let first = f.a;
    let a = first.start;
    let e = first.stop;
    let kind = mission_judge::kind_of(p, &s[a..e]);
    if kind < orders::COUNT {
        kind_field(table, s, f, p, number, kind)
    } else {
        0
    }
}

// The field at fault, counted from 0.
fn field_of(table: &[[u8; 13]; 12], s: &[u8], f: Fields, p: MissionPlace, number: u8) -> u8
    requires { f ≡ fields_in_of s.now }
    ensures { result ≡ mdf_field_of table.now s.now f p number }
{
    match number {
        8 => known_field(table, s, f, p, number),
        9 => known_field(table, s, f, p, number),
        _ => listed_at(number),
    }
}

// The same of what stands before a comment, for who asks what may stand there.
pub fn mission_field_at_fault(table: &[[u8; 13]; 12], s: &[u8], p: MissionPlace, number: u8) -> u8
    ensures { result ≡ mdf_field_of table.now s.now (fields_in_of s.now) p number }
{
    let f = fields_of(s);
    field_of(table, s, f, p, number)
}

// The column of the field at fault, of what stands before a comment; 0 where no field does.
fn fields_column(table: &[[u8; 13]; 12], s: &[u8], p: MissionPlace, number: u8) -> usize
    ensures { result ≡ mdf_fields_column table.now s.now p number }
{
    let f = fields_of(s);
    if f.count == 0 {
        return 0;
    }
    let i = field_of(table, s, f, p, number);
    let start = start_of(f, i);
    start + 1
}

// By the number: of the length, the comment, the byte or the field.
fn content_column(table: &[[u8; 13]; 12], s: &[u8], p: MissionPlace, number: u8) -> usize
    ensures { result ≡ mdf_content_column table.now s.now p number }
{
    if number == 2 {
        return 513;
    }
    let mark = two_from(s, 0, b'/', b'*');
    if number == 3 {
        return mark + 1;
    }
    if number == 4 {
        let bad = bad_at(s);
        return bad + 1;
    }
    fields_column(table, &s[..mark], p, number)
}

// The column of a line, without its LF, at a place that refuses it with this number. The table is `place_table::mdf_table()`.
fn line_column(table: &[[u8; 13]; 12], s: &[u8], p: MissionPlace, number: u8) -> usize
    ensures { result ≡ mdf_line_column table.now s.now p number }
{
    let e = trimmed(s);
    content_column(table, &s[..e], p, number)
}

// ## The line in the text

// At line `wanted`; behind all lines where there is no such line. Not behind a line that is refused.
fn arrive(text: &[u8], wanted: u32) -> Option<(MissionPlace, usize)>
    requires { length text.now ≤ most }
    ensures { result ≡ arrived text.now wanted }
{
    let table = mdf_table();
    let mut place = MissionPlace::start();
    let mut from: usize = 0;
    let mut line: u32 = 1;
    while from < text.len() {
        if line == wanted {
            return Some((place, from));
        }
        let e = far_byte_from(text, from, 10);
        let v = mission_judge_line(&table, &text[from..e], from, place);
        match v {
            MissionVerdict::Blank => {}
            MissionVerdict::Said(_, q) => {
                place = q;
            }
            MissionVerdict::Bad(_) => {
                return None;
            }
        }
        from = e + 1;
        line += 1;
    }
    Some((place, from))
}

// The place behind the lines before line `wanted`; behind all of them where there is no such line. None behind a line that is refused, or where the text is too long.
pub fn mission_place_before(text: &[u8], wanted: u32) -> Option<MissionPlace>
    ensures { result ≡ mission_place_before_of text.now wanted }
{
    if LONGEST_TEXT < text.len() {
        return None;
    }
    let Some((place, _)) = arrive(text, wanted) else {
        return None;
    };
    Some(place)
}

// The column of a line of an MDF that is refused with this number; 0 where there is no such line, or the text is too long.
pub fn mdf_column(text: &[u8], wanted: u32, number: u8) -> u32
    ensures { result ≡ mdf_column_in text.now wanted number }
{
    if LONGEST_TEXT < text.len() {
        return 0;
    }
    let Some((place, from)) = arrive(text, wanted) else {
        return 0;
    };
    if text.len() <= from {
        return 0;
    }
    let table = mdf_table();
    let e = far_byte_from(text, from, 10);
    line_column(&table, &text[from..e], place, number) as u32
}
