// What planners are told of the mending tool's work (request L9), as compilers print: a sentence for each changed line, `network.rndf:7: the count is 2, not 3`; and of a text that is past mending
// (26) the first fault of the mended text, with the number of its line in the given one. What is put are the definitions of specs/Told, for every name and text.
//
// The sentences may be more than fit into memory, so they are put one by one: `put_next` tells of one line and goes to the next. proofs/Forward: **all of them, one behind the other, are those of the law's changes**.
//
// Rests on `answers`, `mended_lines`, `mend_pieces`, `mend_lines`, `mend_law`, `output`, `room`, `shown`, `scan` and what they rest on.
#![tactic(auto)]

ghost use Rattle.std.specs.Prelude.{◌≡◌, ◌++◌, ◌+◌, ◌-◌, ◌≤◌, ◌<◌, length, take, drop};
ghost use Rattle.terms.specs.Ascii.{ascii};
ghost use Rattle.room.specs.Room.{fitted};
ghost use Rattle.output.specs.Pen.{pen, Wrote};
ghost use Rattle.mend_words.specs.Told.{at_line, gone_words, nothing_told, fault_told, past_told, count_told, the_told_of, TellsNext};

use answers::{put_place, put_sentence, put_why};
use mend_lines::{Becomes, Before, line_change, line_kind};
use mended_lines::given_line;
use output::{put_bytes, put_integer};
use refusal::Refusal;
use replies::RndfReply;
use room::in_word;
use scan::far_byte_from;
use shown::{first, line_of};

// ## A change

// `network.rndf:7: `
fn put_line(out: &mut [u8], at: usize, name: &[u8], line: usize) -> usize
    ensures { Wrote (pen out.old at) (at_line name.now line) (pen out.new result) }
{
    let a = put_bytes(out, at, name);
    let b = put_bytes(out, a, b":");
    let c = put_integer(out, b, in_word(line));
    put_bytes(out, c, b": ")
}

fn put_gone_words(out: &mut [u8], at: usize, which: u8) -> usize
    ensures { Wrote (pen out.old at) (gone_words which) (pen out.new result) }
{
    if which == 2 {
        return put_bytes(out, at, b"option given again, taken out\n");
    }
    put_bytes(out, at, b"behind end_file, taken out\n")
}

fn put_gone(out: &mut [u8], at: usize, name: &[u8], line: usize, which: u8) -> usize
    ensures { Wrote (pen out.old at) (at_line name.now line ++ gone_words which) (pen out.new result) }
{
    let a = put_line(out, at, name, line);
    put_gone_words(out, a, which)
}

// What stands on a line from a place to another.
fn spelled(given: &[u8], start: usize, stop: usize) -> &[u8]
    ensures { result.now ≡ drop start (take stop given.now) }
{
    let front = first(given, stop);
    if start <= front.len() {
        &front[start..]
    } else {
        &front[..0]
    }
}

// `the count is 2, not 3`
fn put_counts(out: &mut [u8], at: usize, old: &[u8], n: usize) -> usize
    ensures { Wrote (pen out.old at) (count_told old.now n) (pen out.new result) }
{
    let a = put_bytes(out, at, b"the count is ");
    let b = put_integer(out, a, in_word(n));
    let c = put_bytes(out, b, b", not ");
    let d = put_bytes(out, c, old);
    put_bytes(out, d, b"\n")
}

fn put_recounted(out: &mut [u8], at: usize, name: &[u8], line: usize, old: &[u8], n: usize) -> usize
    ensures { Wrote (pen out.old at) (at_line name.now line ++ count_told old.now n) (pen out.new result) }
{
    let a = put_line(out, at, name, line);
    put_counts(out, a, old, n)
}

// The sentence of a line, given without its LF; nothing of one that stays.
fn put_change(
    out: &mut [u8],
    at: usize,
    name: &[u8],
    line: usize,
    given: &[u8],
    becomes: Becomes,
) -> usize
    ensures { Wrote (pen out.old at) (the_told_of name.now line becomes given.now) (pen out.new result) }
{
    match becomes {
        Becomes::Stays => at,
        Becomes::Goes(which) => put_gone(out, at, name, line, which),
        Becomes::Recount(start, stop, n) => {
            put_recounted(out, at, name, line, spelled(given, start, stop), n)
        }
    }
}

// ## Line by line

// Behind a line: so many bytes tell of it; where the next starts, its number, and what the lines up to it have left.
#[derive(Clone, Copy)]
pub struct Next {
    pub at: usize,
    pub from: usize,
    pub line: usize,
    pub before: Before,
}

// What is told of the line that starts at a place of the text, at the front of the output. Lines are numbered from 1, so the number is at most one more than the place; nothing is told of another, and it stays there.
pub fn put_next(
    out: &mut [u8],
    name: &[u8],
    text: &[u8],
    from: usize,
    line: usize,
    before: Before,
) -> Next
    ensures { from < length text.now → line ≤ from + 1 → TellsNext name.now text.now from line before out.old result out.new }
{
    if text.len() <= from {
        return Next {
            at: 0,
            from,
            line,
            before,
        };
    }
    if text.len() < line {
        return Next {
            at: 0,
            from,
            line,
            before,
        };
    }
    let e = far_byte_from(text, from, 10);
    let bytes = &text[from..e];
    let kind = line_kind(bytes);
    let becomes = line_change(text, bytes, e + 1, kind, before);
    let at = put_change(out, 0, name, line, bytes, becomes);
    let behind = before.after(kind);
    Next {
        at,
        from: e + 1,
        line: line + 1,
        before: behind,
    }
}

// `network.rndf: nothing to mend`, where no line is listed.
pub fn put_nothing(out: &mut [u8], at: usize, name: &[u8]) -> usize
    ensures { Wrote (pen out.old at) (nothing_told name.now) (pen out.new result) }
{
    let a = put_bytes(out, at, name);
    put_bytes(out, a, b": nothing to mend\n")
}

// ## Past mending

// A fault of the mended text, as `run-check` says it, with its line's number in the given text.
fn put_fault(
    out: &mut [u8],
    at: usize,
    name: &[u8],
    text: &[u8],
    mended: &[u8],
    why: Refusal,
) -> usize
    ensures { Wrote (pen out.old at) (fault_told name.now text.now mended.now why) (pen out.new result) }
{
    let line = in_word(given_line(text, why.line as usize));
    let a = put_bytes(out, at, name);
    let b = put_place(out, a, line);
    let c = put_place(out, b, why.column);
    let d = put_bytes(out, c, b": ");
    put_why(out, d, line_of(mended, why.line), why.number, why.column)
}

// 26, and what the reader replies of the mended text.
pub fn put_past(
    out: &mut [u8],
    at: usize,
    name: &[u8],
    text: &[u8],
    mended: &[u8],
    reply: RndfReply,
) -> usize
    ensures { Wrote (pen out.old at) (past_told name.now text.now mended.now reply) (pen out.new result) }
{
    let a = put_sentence(out, at, name, b"", 0, 26, 0);
    match reply {
        Ok((_, _)) => a,
        Err(why) => put_fault(out, a, name, text, mended, why),
    }
}
