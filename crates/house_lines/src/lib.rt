// A text's own lines, put in house order into a lent output. For a text that a reader accepted this is its house writing: every field of such a
// text has one spelling, but for the coordinate `-0.000000`, so nothing is judged, made out or looked up again. One walk over the lines; each
// run of options is walked six times more, once for each rank. RNDF and MDF alike.
//
// specs/Arranged: what is put, for every text. specs/Said: what is known of a line, executable; the contracts of inner functions cite it.
// proofs/Ranks, Heard: what is known of a line is what its fields are. proofs/Order: one line more, in the order in which the loops go.
//
// Rests on `output`, `line`, `word` and `scan`, for its definitions on `text` and `grammar`, for one law on `fill`, and on what they rest on.
//
// Settled: `put_house` says what the output and the place are (`Wrote`), for every text, output and place.
#![tactic(auto)]

ghost use Rattle.std.specs.Prelude.{◌≡◌, [], ◌<◌, eqb};
ghost use Rattle.terms.specs.Words.{pick};
ghost use Rattle.line.specs.Forms.{part, SpanWithin, FieldsWithin};
ghost use Rattle.output.specs.Pen.{pen, Wrote};
ghost use Rattle.grammar.specs.Tables.{gather};
ghost use Rattle.house_lines.specs.Arranged.{line_of, pass, passes, arranged_text};
ghost use Rattle.house_lines.specs.Said.{first_of, rank_word, body_end_of, said_in_of, said_on_of, spoken_from, due, fresh_after_of, mends, mend_if, behind_tab, parts_of};

use line::{Fields, Span, fields_of, trimmed};
use output::{put_bytes, put_line_end, put_tab};
use scan::{far_byte_from, same, two_from};
use word::begins_with_digit;

// ## What is known of a line

// The options that come first among those of their part.
fn is_first(word: &[u8]) -> bool
    ensures { result ≡ first_of word.now }
{
    same(word, b"lane_width")
        || same(word, b"spot_width")
        || same(word, b"segment_name")
        || same(word, b"zone_name")
        || same(word, b"format_version")
}

// The rank of an option that is never put: the house writing leaves the creation date out.
const LEFT_OUT: u8 = 7;

// Where an option stands among the options of its part; 0 for a word that is no option. By comparison: a look into the table of keywords takes
// several times as long, and a line of a run is met seven times.
fn rank_of(word: &[u8]) -> u8
    ensures { result ≡ rank_word word.now }
{
    if same(word, b"exit") {
        return 6;
    }
    if same(word, b"stop") {
        return 5;
    }
    if same(word, b"checkpoint") {
        return 4;
    }
    if same(word, b"right_boundary") {
        return 3;
    }
    if same(word, b"left_boundary") {
        return 2;
    }
    if same(word, b"creation_date") {
        return LEFT_OUT;
    }
    if is_first(word) { 1 } else { 0 }
}

// Where a line's fields end: without its CR, before its comment.
fn body_end(line: &[u8]) -> usize
    ensures { result ≡ body_end_of line.now }
{
    let e = trimmed(line);
    two_from(&line[..e], 0, b'/', b'*')
}

// The rank of a line without fields.
const BLANK: u8 = 8;

// A line's rank and its fields.
#[derive(Clone, Copy)]
struct Said {
    rank: u8,
    fields: Fields,
}

fn said_in(body: &[u8]) -> Said
    ensures { result ≡ said_in_of body.now }
{
    let fields = fields_of(body);
    if fields.count == 0 {
        return Said {
            rank: BLANK,
            fields,
        };
    }
    let rank = rank_of(&body[fields.a.start..fields.a.stop]);
    Said { rank, fields }
}

fn said_on(line: &[u8]) -> Said
    ensures { result ≡ said_on_of line.now }
{
    let e = body_end(line);
    said_in(&line[..e])
}

// ## One line

// The coordinate -0.000000, on a point line.
fn needs_mending(s: &[u8], point: bool) -> bool
    ensures { result ≡ mends point s.now }
{
    point && same(s, b"-0.000000")
}

// A field; that coordinate is written without its sign.
fn put_field(s: &[u8], point: bool, out: &mut [u8], at: usize) -> usize
    ensures { Wrote (pen out.old at) (mend_if point s.now) (pen out.new result) }
{
    if needs_mending(s, point) {
        return put_bytes(out, at, b"0.000000");
    }
    put_bytes(out, at, s)
}

// A tab and a field, where the line has it.
fn put_further(line: &[u8], f: Span, there: bool, point: bool, out: &mut [u8], at: usize) -> usize
    requires { SpanWithin line.now f }
    ensures { Wrote (pen out.old at) (behind_tab there point (part line.now f)) (pen out.new result) }
{
    if there {
        let to = put_tab(out, at);
        return put_field(&line[f.start..f.stop], point, out, to);
    }
    at
}

// The fields of a line that has some, and LF.
fn put_fields(line: &[u8], f: Fields, out: &mut [u8], at: usize) -> usize
    requires { FieldsWithin line.now f }
    ensures { Wrote (pen out.old at) (line_of (parts_of line.now f)) (pen out.new result) }
{
    let first = &line[f.a.start..f.a.stop];
    let point = begins_with_digit(first);
    let one = put_field(first, point, out, at);
    let two = put_further(line, f.b, 1 < f.count, point, out, one);
    let three = put_further(line, f.c, 2 < f.count, point, out, two);
    put_line_end(out, three)
}

// A line, if it has this rank.
fn put_ranked(line: &[u8], s: Said, rank: u8, out: &mut [u8], at: usize) -> usize
    requires { FieldsWithin line.now s.fields }
    ensures { Wrote (pen out.old at) (pick (eqb s.rank rank) (line_of (parts_of line.now s.fields)) []) (pen out.new result) }
{
    if s.rank == rank {
        return put_fields(line, s.fields, out, at);
    }
    at
}

// ## A run of options

// The options of one rank, from a place of the text on, before the first line that is no option.
fn put_pass(text: &[u8], from: usize, rank: u8, out: &mut [u8], at: usize) -> usize
    requires { rank < 7 }
    ensures { Wrote (pen out.old at) (gather line_of (pass rank (spoken_from text.now from))) (pen out.new result) }
{
    let mut to = at;
    let mut start = from;
    while start < text.len() {
        let e = far_byte_from(text, start, 10);
        let s = said_on(&text[start..e]);
        if s.rank == 0 {
            return to;
        }
        to = put_ranked(&text[start..e], s, rank, out, to);
        start = e + 1;
    }
    to
}

// All of them, rank by rank.
fn put_passes(text: &[u8], from: usize, out: &mut [u8], at: usize) -> usize
    ensures { Wrote (pen out.old at) (gather line_of (passes (spoken_from text.now from))) (pen out.new result) }
{
    let a = put_pass(text, from, 1, out, at);
    let b = put_pass(text, from, 2, out, a);
    let c = put_pass(text, from, 3, out, b);
    let d = put_pass(text, from, 4, out, c);
    let e = put_pass(text, from, 5, out, d);
    put_pass(text, from, 6, out, e)
}

// A line of this rank is the first option of a run, where no option was put since the last line that stays.
fn is_due(rank: u8, fresh: bool) -> bool
    ensures { result ≡ due rank fresh }
{
    if rank == 0 || rank == BLANK {
        return false;
    }
    fresh
}

// No option was put since the last line that stays, behind a line of this rank too.
fn fresh_after(rank: u8, fresh: bool) -> bool
    ensures { result ≡ fresh_after_of rank fresh }
{
    rank == 0 || rank == BLANK && fresh
}

// The whole run, where it is due.
fn put_run(text: &[u8], from: usize, due: bool, out: &mut [u8], at: usize) -> usize
    ensures { Wrote (pen out.old at) (pick due (gather line_of (passes (spoken_from text.now from))) []) (pen out.new result) }
{
    if due {
        return put_passes(text, from, out, at);
    }
    at
}

// ## The text

// Each line that stays, and each run of options where its first one stands.
pub fn put_house(text: &[u8], out: &mut [u8], at: usize) -> usize
    ensures { Wrote (pen out.old at) (arranged_text text.now) (pen out.new result) }
{
    let mut to = at;
    let mut from: usize = 0;
    let mut fresh = true;
    while from < text.len() {
        let e = far_byte_from(text, from, 10);
        let s = said_on(&text[from..e]);
        to = put_ranked(&text[from..e], s, 0, out, to);
        to = put_run(text, from, is_due(s.rank, fresh), out, to);
        fresh = fresh_after(s.rank, fresh);
        from = e + 1;
    }
    to
}
