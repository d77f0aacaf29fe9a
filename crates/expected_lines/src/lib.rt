// What may stand where a line is refused for its form (5 to 10 and 25), in words: the place behind the lines before it is found once more (`column`, `mission_column`), and what may stand there is put (`expected_forms`).
// Asked on a refusal only; a good text pays nothing. Nothing is required: of any other number, of a line that is not there, and behind a line that is refused, nothing is put.
//
// specs/Words: the same, executable.
//
// Rests on `expected_forms`, `column`, `mission_column`, `shown` (the line) and what they rest on.
#![tactic(auto)]

ghost use Rattle.std.specs.Prelude.{◌≡◌};
ghost use Rattle.output.specs.Pen.{pen, Wrote};
ghost use Rattle.expected_lines.specs.Words.{lists, lists_field_of, item_at, kind_words, fields_words, rndf_line_words, rndf_words, goes_on_of, maximum_words, order_words, order_fields_words, mdf_line_words, mdf_words};

use column::{field_at_fault, place_before};
use edition::Edition;
use expected_forms::{order_form, put_field, put_fields, put_mdf_lines, put_rndf_lines, rndf_form};
use expected_words::{Form, Item};
use line::fields_of;
use mission_column::{mission_field_at_fault, mission_place_before};
use mission_place::MissionPlace;
use number::integer_of;
use place::Place;
use place_table::{mdf_table, rndf_table};
use scan::two_from;
use shown::line_of;
use statement::{kinds, orders};

// The numbers of which whole lines are told.
fn lists(number: u8) -> bool
    ensures { result ≡ lists number }
{
    match number {
        5 => true,
        6 => true,
        10 => true,
        25 => true,
        _ => false,
    }
}

// The numbers of which one field is told.
fn lists_field(number: u8) -> bool
    ensures { result ≡ lists_field_of number }
{
    match number {
        8 => true,
        9 => true,
        _ => false,
    }
}

// The item of a form with this number, from 0.
fn item_at(f: Form, i: u8) -> Item
    ensures { result ≡ item_at f i }
{
    let a = f.a;
    let b = f.b;
    let c = f.c;
    match i {
        0 => a,
        1 => b,
        _ => c,
    }
}

// ## An RNDF

// Of a line of a kind, what stands before its comment: 7, 8 and 9.
fn put_kind(
    out: &mut [u8],
    at: usize,
    edition: Edition,
    table: &[[u8; 30]; 27],
    s: &[u8],
    p: Place,
    number: u8,
    kind: u8,
) -> usize
    ensures { Wrote (pen out.old at) (kind_words edition table.now s.now p number kind) (pen out.new result) }
{
    let form = rndf_form(edition, p, kind);
    if number == 7 {
        return put_fields(out, at, form);
    }
    if lists_field(number) {
        let i = field_at_fault(table, s, p, number);
        return put_field(out, at, &s[..0], item_at(form, i));
    }
    at
}

fn put_rndf_fields(
    out: &mut [u8],
    at: usize,
    edition: Edition,
    table: &[[u8; 30]; 27],
    s: &[u8],
    p: Place,
    number: u8,
) -> usize
    ensures { Wrote (pen out.old at) (fields_words edition table.now s.now p number) (pen out.new result) }
{
    let f = fields_of(s);
    let first = f.a;
    let a = first.start;
    let e = first.stop;
    let kind = judge::kind_of(&s[a..e]);
    if kind < kinds::COUNT {
        put_kind(out, at, edition, table, s, p, number, kind)
    } else {
        at
    }
}

// Of a line at a place.
fn put_rndf_line(
    out: &mut [u8],
    at: usize,
    edition: Edition,
    s: &[u8],
    p: Place,
    number: u8,
) -> usize
    ensures { Wrote (pen out.old at) (rndf_line_words edition s.now p number) (pen out.new result) }
{
    let table = rndf_table();
    if lists(number) {
        return put_rndf_lines(out, at, edition, &table, p);
    }
    let e = two_from(s, 0, b'/', b'*');
    put_rndf_fields(out, at, edition, &table, &s[..e], p, number)
}

// Of line `line` of an RNDF, refused with this number; of 10 the line behind the last.
pub fn put_rndf_words(
    out: &mut [u8],
    at: usize,
    edition: Edition,
    text: &[u8],
    line: u32,
    number: u8,
) -> usize
    ensures { Wrote (pen out.old at) (rndf_words edition text.now line number) (pen out.new result) }
{
    let Some(place) = place_before(text, line) else {
        return at;
    };
    put_rndf_line(out, at, edition, line_of(text, line), place, number)
}

// ## An MDF

// Are a limit's id and minimum permitted, with no ceiling behind them?
fn goes_on(i: Option<u32>, m: Option<u32>) -> bool
    ensures { result ≡ goes_on_of i m }
{
    let Some(id) = i else {
        return false;
    };
    let Some(minimum) = m else {
        return false;
    };
    permitted::limited(id, minimum, 0)
}

// A limit's maximum: behind an id and a minimum that are permitted, what goes with the minimum; else by itself.
fn put_maximum(out: &mut [u8], at: usize, s: &[u8]) -> usize
    ensures { Wrote (pen out.old at) (maximum_words s.now) (pen out.new result) }
{
    let f = fields_of(s);
    let a = f.a;
    let b = f.b;
    let i = a.start;
    let j = a.stop;
    let k = b.start;
    let l = b.stop;
    if goes_on(integer_of(&s[i..j]), integer_of(&s[k..l])) {
        return put_field(out, at, &s[k..l], Item::Maximum);
    }
    put_field(out, at, &s[..0], Item::Number(0, 32768))
}

fn put_order(
    out: &mut [u8],
    at: usize,
    table: &[[u8; 13]; 12],
    s: &[u8],
    p: MissionPlace,
    number: u8,
    kind: u8,
) -> usize
    ensures { Wrote (pen out.old at) (order_words table.now s.now p number kind) (pen out.new result) }
{
    let form = order_form(kind);
    if number == 7 {
        return put_fields(out, at, form);
    }
    if lists_field(number) {
        let i = mission_field_at_fault(table, s, p, number);
        if i == 2 {
            return put_maximum(out, at, s);
        }
        return put_field(out, at, &s[..0], item_at(form, i));
    }
    at
}

fn put_order_fields(
    out: &mut [u8],
    at: usize,
    table: &[[u8; 13]; 12],
    s: &[u8],
    p: MissionPlace,
    number: u8,
) -> usize
    ensures { Wrote (pen out.old at) (order_fields_words table.now s.now p number) (pen out.new result) }
{
    let f = fields_of(s);
    let first = f.a;
    let a = first.start;
    let e = first.stop;
    let kind = mission_judge::kind_of(p, &s[a..e]);
    if kind < orders::COUNT {
        put_order(out, at, table, s, p, number, kind)
    } else {
        at
    }
}

fn put_mdf_line(out: &mut [u8], at: usize, s: &[u8], p: MissionPlace, number: u8) -> usize
    ensures { Wrote (pen out.old at) (mdf_line_words s.now p number) (pen out.new result) }
{
    let table = mdf_table();
    if lists(number) {
        return put_mdf_lines(out, at, &table, p);
    }
    let e = two_from(s, 0, b'/', b'*');
    put_order_fields(out, at, &table, &s[..e], p, number)
}

// Of line `line` of an MDF, refused with this number; of 10 the line behind the last.
pub fn put_mdf_words(out: &mut [u8], at: usize, text: &[u8], line: u32, number: u8) -> usize
    ensures { Wrote (pen out.old at) (mdf_words text.now line number) (pen out.new result) }
{
    let Some(place) = mission_place_before(text, line) else {
        return at;
    };
    put_mdf_line(out, at, line_of(text, line), place, number)
}
