// The readers' replies in plain words, one sentence each: `network.rndf:9:12: the entry is no declared lane waypoint or perimeter point (12)` with the
// line and a caret below it, or the rows used. What is put are the definitions of specs/Sentences and Answers, for every name, text and reply; nothing is required.
// Rests on `output` (each put ensures `Wrote`), `reasons` (the words of each number), `shown` and `replies`.
#![tactic(auto)]

ghost use Rattle.std.specs.Prelude.{◌≡◌, ◌++◌, length};
ghost use Rattle.terms.specs.Ascii.{ascii};
ghost use Rattle.output.specs.Pen.{pen, Wrote};
ghost use Rattle.answers.specs.Sentences.{place, detail, why_of, sentence, WholeOrNone};
ghost use Rattle.answers.specs.Answers.{unplaced, refused, counted, next, network_counts, mission_counts, rndf_accepted, rndf_answer_of, pair_answer_of, goal_number_of, way_from, no_way, goal_line_of, goal_column_of, stuck_at, stuck, no_start, not_driven, mission_answer};

use counts::{Counts, MissionCounts};
use find_line::mdf_line;
use output::{clear_output, finish, put_byte, put_bytes, put_integer};
use read_rows::goal_at;
use reasons::{put_reason, put_reason_of};
use refusal::Refusal;
use replies::{PairReply, RndfReply};
use scan::not_separator_from;
use shown::{from_column, line_of, put_byte_words, put_picture};
use statement::orders;

// ## Refusals

// `:9`, and nothing for 0.
pub fn put_place(out: &mut [u8], at: usize, n: u32) -> usize
    ensures { Wrote (pen out.old at) (place n) (pen out.new result) }
{
    if n == 0 {
        return at;
    }
    let a = put_bytes(out, at, b":");
    put_integer(out, a, n)
}

// `: a backslash`, for 4 alone: the byte of the line at this column.
fn put_detail(out: &mut [u8], at: usize, line: &[u8], number: u8, column: u32) -> usize
    ensures { Wrote (pen out.old at) (detail line.now number column) (pen out.new result) }
{
    if number != 4 {
        return at;
    }
    let a = put_bytes(out, at, b": ");
    put_byte_words(out, a, from_column(line, column))
}

// The reason and the number, and below them the line with a caret.
pub fn put_why(out: &mut [u8], at: usize, line: &[u8], number: u8, column: u32) -> usize
    ensures { Wrote (pen out.old at) (why_of line.now number column) (pen out.new result) }
{
    let a = put_reason(out, at, number);
    let b = put_detail(out, a, line, number, column);
    let c = put_bytes(out, b, b" (");
    let d = put_integer(out, c, number as u32);
    let e = put_bytes(out, d, b")\n");
    put_picture(out, e, line, column)
}

// The sentence of a refusal: the file's name, the line, the column, the reason, and the line of the file's text.
pub fn put_sentence(
    out: &mut [u8],
    at: usize,
    name: &[u8],
    text: &[u8],
    line: u32,
    number: u8,
    column: u32,
) -> usize
    ensures { Wrote (pen out.old at) (sentence name.now text.now line number column) (pen out.new result) }
{
    let a = put_bytes(out, at, name);
    let b = put_place(out, a, line);
    let c = put_place(out, b, column);
    let d = put_bytes(out, c, b": ");
    put_why(out, d, line_of(text, line), number, column)
}

// The same alone in an output, for callers of the library: its length; where it does not fit, 0, and the output is zero over its whole length.
pub fn write_sentence(
    name: &[u8],
    text: &[u8],
    line: u32,
    number: u8,
    column: u32,
    out: &mut [u8],
) -> u32
    ensures { WholeOrNone (sentence name.now text.now line number column) (length out.old) result out.new }
{
    clear_output(out);
    let at = put_sentence(out, 0, name, text, line, number, column);
    let finished = finish(out, at);
    match finished {
        Some(n) => n as u32,
        None => 0,
    }
}

// The sentence of a refusal that is about no line of a text.
fn put_unplaced(out: &mut [u8], at: usize, name: &[u8], number: u8) -> usize
    ensures { Wrote (pen out.old at) (unplaced name.now number) (pen out.new result) }
{
    let a = put_bytes(out, at, name);
    let b = put_bytes(out, a, b": ");
    let c = put_reason_of(out, b, 0, number);
    let d = put_bytes(out, c, b" (");
    let e = put_integer(out, d, number as u32);
    put_bytes(out, e, b")\n")
}

// The sentence of a pair's refusal, with the name of the file that it is about; file 0: of the mission.
fn put_refused(
    out: &mut [u8],
    at: usize,
    rndf: &[u8],
    mdf: &[u8],
    rndf_text: &[u8],
    mdf_text: &[u8],
    why: Refusal,
) -> usize
    ensures { Wrote (pen out.old at) (refused rndf.now mdf.now rndf_text.now mdf_text.now why) (pen out.new result) }
{
    if why.file == 1 {
        return put_sentence(out, at, rndf, rndf_text, why.line, why.number, why.column);
    }
    if why.file == 0 {
        return put_unplaced(out, at, mdf, why.number);
    }
    put_sentence(out, at, mdf, mdf_text, why.line, why.number, why.column)
}

// ## Rows used

// `1 lane`, `2 lanes`
fn put_counted(out: &mut [u8], at: usize, n: u32, word: &[u8]) -> usize
    ensures { Wrote (pen out.old at) (counted n word.now) (pen out.new result) }
{
    let a = put_integer(out, at, n);
    let b = put_byte(out, a, b' ');
    let c = put_bytes(out, b, word);
    if n == 1 {
        return c;
    }
    put_byte(out, c, b's')
}

// `, 2 lanes`
fn put_next(out: &mut [u8], at: usize, n: u32, word: &[u8]) -> usize
    ensures { Wrote (pen out.old at) (next n word.now) (pen out.new result) }
{
    let a = put_bytes(out, at, b", ");
    put_counted(out, a, n, word)
}

fn put_network_counts(out: &mut [u8], at: usize, c: Counts) -> usize
    ensures { Wrote (pen out.old at) (network_counts c) (pen out.new result) }
{
    let a = put_counted(out, at, c.segments, b"segment");
    let b = put_next(out, a, c.zones, b"zone");
    let d = put_next(out, b, c.lanes, b"lane");
    let e = put_next(out, d, c.points, b"point");
    let f = put_next(out, e, c.spots, b"spot");
    let g = put_next(out, f, c.checkpoints, b"checkpoint");
    let h = put_next(out, g, c.stops, b"stop");
    put_next(out, h, c.exits, b"exit")
}

fn put_mission_counts(out: &mut [u8], at: usize, m: MissionCounts) -> usize
    ensures { Wrote (pen out.old at) (mission_counts m) (pen out.new result) }
{
    let a = put_next(out, at, m.goals, b"goal");
    put_next(out, a, m.limits, b"speed limit")
}

// ## Replies

fn put_rndf_accepted(out: &mut [u8], at: usize, name: &[u8], trouble: &[u8], c: Counts) -> usize
    ensures { Wrote (pen out.old at) (rndf_accepted name.now trouble.now c) (pen out.new result) }
{
    if 0 < trouble.len() {
        return put_bytes(out, at, trouble);
    }
    let a = put_bytes(out, at, name);
    let b = put_bytes(out, a, b": accepted; ");
    let d = put_network_counts(out, b, c);
    put_byte(out, d, b'\n')
}

// What an RNDF of this name and text gets. `trouble` is the sentence of what is the matter with its MDF, empty where nothing is or none is asked for.
pub fn put_rndf_answer(
    out: &mut [u8],
    at: usize,
    name: &[u8],
    text: &[u8],
    trouble: &[u8],
    reply: RndfReply,
) -> usize
    ensures { Wrote (pen out.old at) (rndf_answer_of name.now text.now trouble.now reply) (pen out.new result) }
{
    match reply {
        Ok((c, _)) => put_rndf_accepted(out, at, name, trouble, c),
        Err(why) => { put_sentence(out, at, name, text, why.line, why.number, why.column) }
    }
}

fn put_pair_accepted(
    out: &mut [u8],
    at: usize,
    rndf: &[u8],
    mdf: &[u8],
    c: Counts,
    m: MissionCounts,
) -> usize
    ensures { Wrote (pen out.old at) (rndf.now ++ ascii " with " ++ mdf.now ++ ascii ": accepted; " ++ network_counts c ++ mission_counts m ++ ascii "\n") (pen out.new result) }
{
    let a = put_bytes(out, at, rndf);
    let b = put_bytes(out, a, b" with ");
    let d = put_bytes(out, b, mdf);
    let e = put_bytes(out, d, b": accepted; ");
    let f = put_network_counts(out, e, c);
    let g = put_mission_counts(out, f, m);
    put_byte(out, g, b'\n')
}

// What an RNDF and an MDF of these names and texts get.
pub fn put_pair_answer(
    out: &mut [u8],
    at: usize,
    rndf: &[u8],
    mdf: &[u8],
    rndf_text: &[u8],
    mdf_text: &[u8],
    reply: PairReply,
) -> usize
    ensures { Wrote (pen out.old at) (pair_answer_of rndf.now mdf.now rndf_text.now mdf_text.now reply) (pen out.new result) }
{
    match reply {
        Ok((c, _, m, _)) => put_pair_accepted(out, at, rndf, mdf, c, m),
        Err(why) => put_refused(out, at, rndf, mdf, rndf_text, mdf_text, why),
    }
}

// ## Can the mission be driven? (L13)

// The goal in this row of the filled table.
fn goal_number(goals: &[u32], row: u32) -> u32
    ensures { result ≡ goal_number_of goals.now row }
{
    let goal = goal_at(goals, row as usize);
    goal.number.0 as u32
}

// `goal 9`, or the start.
fn put_way_from(out: &mut [u8], at: usize, start: &[u8], goals: &[u32], row: u32) -> usize
    ensures { Wrote (pen out.old at) (way_from start.now goals.now row) (pen out.new result) }
{
    if row == 0 {
        return put_bytes(out, at, start);
    }
    let a = put_bytes(out, at, b"goal ");
    put_integer(out, a, goal_number(goals, row - 1))
}

// `goal 7 can't be reached from goal 9 (31)`
fn put_no_way(out: &mut [u8], at: usize, start: &[u8], goals: &[u32], row: u32) -> usize
    ensures { Wrote (pen out.old at) (no_way start.now goals.now row) (pen out.new result) }
{
    let a = put_bytes(out, at, b"goal ");
    let b = put_integer(out, a, goal_number(goals, row));
    let c = put_bytes(out, b, b" can't be reached from ");
    let d = put_way_from(out, c, start, goals, row);
    put_bytes(out, d, b" (31)\n")
}

// The line of the goal in this row.
fn goal_line(text: &[u8], row: u32) -> u32
    ensures { result ≡ goal_line_of text.now row }
{
    mdf_line(text, orders::GOAL, row)
}

// The goal is the line's first field.
fn goal_column(text: &[u8], line: u32) -> u32
    ensures { result ≡ goal_column_of text.now line }
{
    let before = not_separator_from(line_of(text, line), 0);
    before as u32 + 1
}

fn put_stuck_at(
    out: &mut [u8],
    at: usize,
    name: &[u8],
    text: &[u8],
    start: &[u8],
    goals: &[u32],
    row: u32,
    line: u32,
    column: u32,
) -> usize
    ensures { Wrote (pen out.old at) (stuck_at name.now text.now (no_way start.now goals.now row) line column) (pen out.new result) }
{
    let a = put_bytes(out, at, name);
    let b = put_place(out, a, line);
    let c = put_place(out, b, column);
    let d = put_bytes(out, c, b": ");
    let e = put_no_way(out, d, start, goals, row);
    put_picture(out, e, line_of(text, line), column)
}

// The sentence of the goal in this row, which can't be reached, with its line of the MDF's text.
fn put_stuck(
    out: &mut [u8],
    at: usize,
    name: &[u8],
    text: &[u8],
    start: &[u8],
    goals: &[u32],
    row: u32,
) -> usize
    ensures { Wrote (pen out.old at) (stuck name.now text.now start.now goals.now row) (pen out.new result) }
{
    let line = goal_line(text, row);
    let column = goal_column(text, line);
    put_stuck_at(out, at, name, text, start, goals, row, line, column)
}

// A start that is no declared point.
pub fn put_no_start(out: &mut [u8], at: usize, rndf: &[u8], start: &[u8]) -> usize
    ensures { Wrote (pen out.old at) (no_start rndf.now start.now) (pen out.new result) }
{
    let a = put_bytes(out, at, start);
    let b = put_bytes(out, a, b" is no point of ");
    let c = put_bytes(out, b, rndf);
    put_bytes(out, c, b" (30)\n")
}

fn put_not_driven(
    out: &mut [u8],
    at: usize,
    rndf: &[u8],
    mdf: &[u8],
    rndf_text: &[u8],
    mdf_text: &[u8],
    start: &[u8],
    goals: &[u32],
    why: Refusal,
) -> usize
    ensures { Wrote (pen out.old at) (not_driven rndf.now mdf.now rndf_text.now mdf_text.now start.now goals.now why) (pen out.new result) }
{
    if why.number == 31 {
        return put_stuck(out, at, mdf, mdf_text, start, goals, why.line);
    }
    if why.number == 30 {
        return put_no_start(out, at, rndf, start);
    }
    put_refused(out, at, rndf, mdf, rndf_text, mdf_text, why)
}

// `mission.mdf: can be driven from 1.1.1`
fn put_driven(out: &mut [u8], at: usize, mdf: &[u8], start: &[u8]) -> usize
    ensures { Wrote (pen out.old at) (mdf.now ++ ascii ": can be driven from " ++ start.now ++ ascii "\n") (pen out.new result) }
{
    let a = put_bytes(out, at, mdf);
    let b = put_bytes(out, a, b": can be driven from ");
    let c = put_bytes(out, b, start);
    put_byte(out, c, b'\n')
}

// What a mission gets that is to be driven from the point with this identifier. `goals`: the table of goals as the reader filled it (a refusal leaves none).
pub fn put_mission_answer(
    out: &mut [u8],
    at: usize,
    rndf: &[u8],
    mdf: &[u8],
    rndf_text: &[u8],
    mdf_text: &[u8],
    start: &[u8],
    goals: &[u32],
    reply: PairReply,
) -> usize
    ensures { Wrote (pen out.old at) (mission_answer rndf.now mdf.now rndf_text.now mdf_text.now start.now goals.now reply) (pen out.new result) }
{
    match reply {
        Ok((_, _, _, _)) => put_driven(out, at, mdf, start),
        Err(why) => { put_not_driven(out, at, rndf, mdf, rndf_text, mdf_text, start, goals, why) }
    }
}
