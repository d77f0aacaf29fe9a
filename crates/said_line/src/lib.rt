// What a line of an RNDF says, before its place is asked for its values: nothing, or a statement of a kind; or the number that refuses it: 2, 3 and 4 by its form, 5 and 6 by its kind, 7
// and 8 by its fields. A plain line is read in one pass where it stands (`plain_line`); any other is cut into its fields first, as it always was.
//
// specs/Saying: what an answer stands for: at the place it comes to what the judge gives the line; and where the line's last field starts, for its row. Of a plain line 5 and 6 are not told here, since its kind is not asked for: `stated`
// tells them.
//
// Rests on `plain_line`, `judge` and what they rest on.
#![tactic(auto)]

ghost use Rattle.std.specs.Prelude.{◌≡◌, ◌≤◌, ◌<◌, ◌+◌, length};
ghost use Rattle.line.specs.Forms.{form_of, fields_at};
ghost use Rattle.line_fields.specs.LineFields.{fields_by, line_fields_of, last_start_of};
ghost use Rattle.made_out.specs.Made.{made_from};
ghost use Rattle.judge.specs.Judging.{of_kind, told, content, line};
ghost use Rattle.judge.specs.RndfLine.{judging};
ghost use Rattle.said_line.specs.Saying.{last_in, made_cut, got_of, LastOfFew, LastTold, LineSays};

use judge::kind_of;
use line::{Fields, fields_of, form_of, trimmed};
use made_out::{fields_needed, made_out};
use place::Place;
use plain_line::{Plain, plain_line};
use scan::far_byte_from;
use statement::{Statement, kinds};

const LF: u8 = 10;

// What a line says that is cut into its fields; with a statement, where the last field starts.
#[derive(Clone, Copy)]
enum Cut {
    Blank,
    Said(u8, Statement, usize),
    Bad(u8),
}

// A line that is not blank is made out as one statement, with its kind, the line's end, and where its last field starts; or it is refused.
pub type Said = Result<(u8, Statement, usize, usize), u8>;

// A line: nothing, and where it ends; or what it says.
#[derive(Clone, Copy)]
pub enum Line {
    Blank(usize),
    Filled(Said),
}

// Where the last of at most three fields starts.
fn last_start(f: Fields) -> usize
    ensures { result ≡ last_in f }
{
    match f.count {
        1 => f.a.start,
        2 => f.b.start,
        _ => f.c.start,
    }
}

// 8, or the statement of a kind.
fn made_told(kind: u8, m: Option<Statement>, last: usize) -> Cut
    ensures { result ≡ made_cut kind last (made_from m) }
{
    let Some(s) = m else {
        return Cut::Bad(8);
    };
    Cut::Said(kind, s, last)
}

// 5 or 6 by the kind alone, then 7.
fn kind_cut(
    table: &[[u8; 30]; 27],
    s: &[u8],
    base: usize,
    f: Fields,
    p: Place,
    kind: u8,
    last: usize,
) -> Cut
    requires { (base + length s.now < 4294967296) × (kind < 30) }
    ensures { (got_of table.now p result ≡ of_kind (judging table.now) s.now base f p kind) × LastOfFew f.count last result }
{
    let cell = p.cell(table, kind);
    if let Err(n) = p.refuses(cell) {
        return Cut::Bad(n);
    }
    if f.count == fields_needed(kind) {
        made_told(kind, made_out(s, base, f, kind), last)
    } else {
        Cut::Bad(7)
    }
}

// The fields, cut once: none, or those of a kind.
fn fields_cut(table: &[[u8; 30]; 27], s: &[u8], base: usize, p: Place) -> Cut
    requires { base + length s.now < 4294967296 }
    ensures { (got_of table.now p result ≡ told (judging table.now) s.now base p) × LastTold (last_start_of (fields_at base s.now)) result }
{
    let f = fields_of(s);
    if f.count == 0 {
        return Cut::Blank;
    }
    let first = f.a;
    let a = first.start;
    let e = first.stop;
    let kind = kind_of(&s[a..e]);
    if kind < kinds::COUNT {
        let last = base + last_start(f);
        kind_cut(table, s, base, f, p, kind, last)
    } else {
        Cut::Bad(5)
    }
}

// 2, 3, 4, or the fields before a comment.
fn content_cut(table: &[[u8; 30]; 27], s: &[u8], base: usize, p: Place) -> Cut
    requires { base + length s.now < 4294967296 }
    ensures { (got_of table.now p result ≡ content (judging table.now) s.now base p) × LastTold (last_start_of (fields_by base s.now (form_of s.now))) result }
{
    match form_of(s) {
        Err(n) => Cut::Bad(n),
        Ok(e) => fields_cut(table, &s[..e], base, p),
    }
}

// A line without its LF, which starts at `base` in the text.
fn line_cut(table: &[[u8; 30]; 27], s: &[u8], base: usize, p: Place) -> Cut
    requires { base + length s.now < 4294967296 }
    ensures { (got_of table.now p result ≡ line (judging table.now) s.now base p) × LastTold (last_start_of (line_fields_of base s.now)) result }
{
    let e = trimmed(s);
    content_cut(table, &s[..e], base, p)
}

// The line that starts there, cut into its fields.
fn cut_at(table: &[[u8; 30]; 27], text: &[u8], from: usize, p: Place) -> Line
    requires { (from < length text.now) × (length text.now < 4294967296) }
    ensures { LineSays table.now text.now from p result }
{
    let e = far_byte_from(text, from, LF);
    match line_cut(table, &text[from..e], from, p) {
        Cut::Blank => Line::Blank(e),
        Cut::Said(kind, s, last) => Line::Filled(Ok((kind, s, e, last))),
        Cut::Bad(n) => Line::Filled(Err(n)),
    }
}

// The line that starts there, in one pass where it is plain. 1 where no line starts there, or behind what 32 bits count: no text that is walked has such a line.
pub fn line_said(table: &[[u8; 30]; 27], text: &[u8], from: usize, p: Place) -> Line
    ensures { from < length text.now → length text.now < 4294967296 → LineSays table.now text.now from p result }
{
    if text.len() <= from {
        return Line::Filled(Err(1));
    }
    if 4294967295 < text.len() {
        return Line::Filled(Err(1));
    }
    match plain_line(text, from) {
        Plain::Said(kind, s, e, last) => Line::Filled(Ok((kind, s, e, last))),
        Plain::Blank(e) => Line::Blank(e),
        Plain::No => cut_at(table, text, from, p),
    }
}
