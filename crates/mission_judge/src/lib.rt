// One line of an MDF at a place: blank, an order with the next place, or one number of document 01, 2 to 9.
// The faults are told in document 01's order: 2, 3, 4 by the line's form; 5 and 6 by the kind alone; 7 by the count of fields; 8 over every field; 9 last.
//
// specs/MdfLine: the same, executable, from what `judge` says for every file. proofs/: it is what `text` says of the line (MdfTies).
//
// Rests on `line`, `word`, `made_out`, `mission_place`, `judge`, `statement` and what they rest on.
#![tactic(auto)]

ghost use Rattle.std.specs.Prelude.{◌≡◌, ◌≤◌, ◌<◌, ◌+◌, length};
ghost use Rattle.made_out.specs.MadeOrders.{order_from};
ghost use Rattle.judge.specs.Judging.{taken, valued, of_kind, known, told, content};
ghost use Rattle.mission_place.specs.Abstract.{seen};
ghost use Rattle.mission_judge.specs.MdfLine.{mdf_kind, judging, mdf_judging, verdict, line_by};

use line::{Fields, fields_of, form_of, trimmed};
use made_out::{line_fits, order_fields_needed, order_made_out};
use mission_place::MissionPlace;
use statement::{Order, orders};
use word::{begins_with_digit, mdf_keyword};

// What a line of an MDF gets.
#[derive(Clone, Copy)]
pub enum MissionVerdict {
    Blank,
    Said(Order, MissionPlace),
    Bad(u8),
}

// The kind of a line by its first field: its column, of which those of a goal and a limit are the last; no kind for a word that is no keyword.
pub fn kind_of(p: MissionPlace, s: &[u8]) -> u8
    ensures { result ≡ mdf_kind p s.now }
{
    if begins_with_digit(s) {
        return p.number_kind();
    }
    let i = mdf_keyword(s);
    if i < orders::GOAL { i } else { orders::COUNT }
}

// The place's own number, 9, or the next place.
fn taken_told(s: Order, o: Result<MissionPlace, u8>) -> MissionVerdict
    ensures { result ≡ verdict (taken mdf_judging s (seen o)) }
{
    match o {
        Ok(q) => MissionVerdict::Said(s, q),
        Err(n) => MissionVerdict::Bad(n),
    }
}

// 8, or what comes of the order with the cell of its kind.
fn values_told(p: MissionPlace, cell: u8, m: Option<Order>) -> MissionVerdict
    ensures { result ≡ verdict (valued mdf_judging p cell (order_from m)) }
{
    let Some(s) = m else {
        return MissionVerdict::Bad(8);
    };
    taken_told(s, p.step(cell, s))
}

// 5 or 6 by the kind alone, then 7. The kind is looked up here, once for the line.
fn kind_told(
    table: &[[u8; 13]; 12],
    s: &[u8],
    base: usize,
    f: Fields,
    p: MissionPlace,
    kind: u8,
) -> MissionVerdict
    requires { (base + length s.now < 4294967296) × (kind < 13) }
    ensures { result ≡ verdict (of_kind (judging table.now) s.now base f p kind) }
{
    let cell = p.cell(table, kind);
    if let Err(n) = p.refuses(cell) {
        return MissionVerdict::Bad(n);
    }
    if f.count == order_fields_needed(kind) {
        values_told(p, cell, order_made_out(s, base, f, kind))
    } else {
        MissionVerdict::Bad(7)
    }
}

// The fields, cut once: blank, or a line of its kind.
fn fields_told(table: &[[u8; 13]; 12], s: &[u8], base: usize, p: MissionPlace) -> MissionVerdict
    requires { base + length s.now < 4294967296 }
    ensures { result ≡ verdict (told (judging table.now) s.now base p) }
{
    let f = fields_of(s);
    if f.count == 0 {
        return MissionVerdict::Blank;
    }
    let first = f.a;
    let a = first.start;
    let e = first.stop;
    let kind = kind_of(p, &s[a..e]);
    if kind < orders::COUNT {
        kind_told(table, s, base, f, p, kind)
    } else {
        MissionVerdict::Bad(5)
    }
}

// 2, 3, 4, or the fields before a comment.
fn content_told(table: &[[u8; 13]; 12], s: &[u8], base: usize, p: MissionPlace) -> MissionVerdict
    requires { base + length s.now < 4294967296 }
    ensures { result ≡ verdict (content (judging table.now) s.now base p) }
{
    match form_of(s) {
        Err(n) => MissionVerdict::Bad(n),
        Ok(e) => fields_told(table, &s[..e], base, p),
    }
}

// A line, without its LF, that starts at `base` in the text. The table is `place_table::mdf_table()`, made once for the text.
// 1 where it ends behind what 32 bits count: no text that is walked has such a line.
pub fn mission_judge_line(
    table: &[[u8; 13]; 12],
    s: &[u8],
    base: usize,
    p: MissionPlace,
) -> MissionVerdict
    ensures { result ≡ line_by table.now s.now base p }
{
    if line_fits(base, s.len()) {
        let e = trimmed(s);
        content_told(table, &s[..e], base, p)
    } else {
        MissionVerdict::Bad(1)
    }
}
