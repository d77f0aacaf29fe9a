// What a line of an MDF says at its place: nothing, or an order with the place behind it; or the number that refuses it. A goal or a limit is read where it stands in the text, in one pass and
// without cutting its line first, where it is plain: one integer, or three, with separators, perhaps a comment and one CR around them. Any other line is cut into its fields and judged (`mission_judge`).
//
// specs/Orders: what is said of a line: where it ends, and what the judge makes of it; of a plain one, that this is what it makes of the order alone. proofs/Orders: why. proofs/Lines: every line.
//
// Rests on `plain_parts`, `plain_fields`, `mission_judge`, `mission_place`, `statement` and what they rest on.
#![tactic(auto)]

ghost use Rattle.std.specs.Prelude.{◌≡◌, ◌<◌, length};
ghost use Rattle.plain_fields.specs.LineStands.{stated};
ghost use Rattle.judge.specs.Judging.{taken};
ghost use Rattle.mission_place.specs.Abstract.{seen};
ghost use Rattle.mission_judge.specs.MdfLine.{judging};
ghost use Rattle.plain_order.specs.Orders.{OrderStands, OrderLine, stood_as, LineSays};

use mission_judge::{MissionVerdict, mission_judge_line};
use mission_place::MissionPlace;
use plain_parts::{end_at, gap_at, integer_at};
use scan::{far_byte_from, not_separator_from};
use statement::{Order, orders};

const LF: u8 = 10;

// A line that is not blank is made out as one order, with the place behind it and the line's end; or it is refused.
pub type MissionSaid = Result<(Order, MissionPlace, usize), u8>;

// A line: nothing, and where it ends; or what it says.
#[derive(Clone, Copy)]
pub enum MissionLine {
    Blank(usize),
    Filled(MissionSaid),
}

// One integer, then the line's end.
fn goal_at(text: &[u8], from: usize) -> Option<(Order, usize)>
    ensures { OrderStands text.now from 11 result }
{
    let (n, a) = integer_at(text, from)?;
    let stop = end_at(text, a)?;
    Some((Order::Goal(n), stop))
}

// Three integers, then the line's end.
fn limit_at(text: &[u8], from: usize) -> Option<(Order, usize)>
    ensures { OrderStands text.now from 12 result }
{
    let (id, a) = integer_at(text, from)?;
    let second = gap_at(text, a)?;
    let (minimum, b) = integer_at(text, second)?;
    let third = gap_at(text, b)?;
    let (maximum, d) = integer_at(text, third)?;
    let stop = end_at(text, d)?;
    Some((Order::Limit(id, minimum, maximum), stop))
}

fn order_at(text: &[u8], from: usize, kind: u8) -> Option<(Order, usize)>
    ensures { OrderStands text.now from kind result }
{
    match kind {
        orders::GOAL => goal_at(text, from),
        orders::LIMIT => limit_at(text, from),
        _ => None,
    }
}

// The line that starts at a place, where it is plain and a goal or a limit is due, as `kind` says.
fn plain_order(text: &[u8], from: usize, kind: u8) -> Option<(Order, usize)>
    ensures { OrderLine text.now from kind result }
{
    let at = not_separator_from(text, from);
    let (o, stop) = order_at(text, at, kind)?;
    if stop - from <= 512 {
        Some((o, stop))
    } else {
        None
    }
}

// The place behind an order of a plain line, or the number that its kind or its place refuses it with.
fn stand(table: &[[u8; 13]; 12], kind: u8, said: Order, p: MissionPlace) -> Result<MissionPlace, u8>
    ensures { taken (judging table.now) said (seen result) ≡ stated (judging table.now) kind said p }
{
    let cell = p.cell(table, kind);
    if let Err(n) = p.refuses(cell) {
        return Err(n);
    }
    p.step(cell, said)
}

// The line of an order that ends there, by what becomes of the order at its place.
fn stood(s: Order, e: usize, o: Result<MissionPlace, u8>) -> MissionLine
    ensures { result ≡ stood_as s e (seen o) }
{
    match o {
        Ok(q) => MissionLine::Filled(Ok((s, q, e))),
        Err(n) => MissionLine::Filled(Err(n)),
    }
}

// The line that starts there, cut into its fields.
fn cut_at(table: &[[u8; 13]; 12], text: &[u8], from: usize, p: MissionPlace) -> MissionLine
    requires { from < length text.now }
    ensures { length text.now < 4294967296 → LineSays table.now text.now from p result }
{
    let e = far_byte_from(text, from, LF);
    match mission_judge_line(table, &text[from..e], from, p) {
        MissionVerdict::Blank => MissionLine::Blank(e),
        MissionVerdict::Said(s, q) => MissionLine::Filled(Ok((s, q, e))),
        MissionVerdict::Bad(n) => MissionLine::Filled(Err(n)),
    }
}

// The line that starts there, in one pass where it is plain. The table is `place_table::mdf_table()`. 1 where no line starts there, or behind what 32 bits count: no text that is walked has such a line.
pub fn line_said(table: &[[u8; 13]; 12], text: &[u8], from: usize, p: MissionPlace) -> MissionLine
    ensures { from < length text.now → length text.now < 4294967296 → LineSays table.now text.now from p result }
{
    if text.len() <= from {
        return MissionLine::Filled(Err(1));
    }
    let kind = p.number_kind();
    match plain_order(text, from, kind) {
        Some((s, e)) => stood(s, e, stand(table, kind, s, p)),
        None => cut_at(table, text, from, p),
    }
}
