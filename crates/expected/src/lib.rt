// What may stand where a text was refused: of each refusal that has a line, from the texts, the edition and the refusal's file, line and number; asked on a refusal only. No table is needed: they are zero then.
// Nothing is required: of a line or a number that these texts do not get there, what is told may be about a line that is good, or nothing is told.
//
// specs/Words: what is told, executable. proofs/Right: **what is told of a refusal that a reader gave is what the law says** (expected_law/specs/Tells).
//
// Rests on `expected_lines` (5 to 10 and 25), `expected_references` (12 to 18), `output` and, for its theorem, on `expected_places`, `expected_fields`, `expected_named` and what they rest on.
#![tactic(auto)]

ghost use Rattle.std.specs.Prelude.{◌≡◌, length};
ghost use Rattle.output.specs.Pen.{pen, Wrote};
ghost use Rattle.expected_law.specs.Tells.{AnswersExpected};
ghost use Rattle.expected.specs.Words.{rndf_told_of, mdf_told_of, expected_words_of, line_of, answer_of, too_short_of};

use edition::Edition;
use expected_law::ExpectedAnswer;
use expected_lines::{put_mdf_words, put_rndf_words};
use expected_references::{
    put_entries, put_goals, put_ids, put_missing, put_new_number, put_rndf_name,
};
use output::{clear_output, finish, put_line_end};

fn put_of_rndf(
    out: &mut [u8],
    at: usize,
    edition: Edition,
    rndf: &[u8],
    line: u32,
    number: u8,
) -> usize
    ensures { Wrote (pen out.old at) (rndf_told_of edition rndf.now line number) (pen out.new result) }
{
    match number {
        12 => put_entries(out, at, rndf, line),
        13 => put_new_number(out, at),
        _ => put_rndf_words(out, at, edition, rndf, line, number),
    }
}

fn put_of_mdf(out: &mut [u8], at: usize, rndf: &[u8], mdf: &[u8], line: u32, number: u8) -> usize
    ensures { Wrote (pen out.old at) (mdf_told_of rndf.now mdf.now line number) (pen out.new result) }
{
    match number {
        14 => put_rndf_name(out, at, rndf),
        15 => put_goals(out, at, rndf),
        16 => put_ids(out, at, rndf, mdf, line),
        17 => put_ids(out, at, rndf, mdf, line),
        18 => put_missing(out, at, rndf, mdf, line),
        _ => put_mdf_words(out, at, mdf, line, number),
    }
}

// Without a line feed; nothing of a refusal without a line.
pub fn put_expected(
    out: &mut [u8],
    at: usize,
    edition: Edition,
    rndf: &[u8],
    mdf: &[u8],
    file: u32,
    line: u32,
    number: u8,
) -> usize
    ensures { Wrote (pen out.old at) (expected_words_of edition rndf.now mdf.now file line number) (pen out.new result) }
{
    if line == 0 {
        return at;
    }
    if file == 1 {
        return put_of_rndf(out, at, edition, rndf, line, number);
    }
    if file == 2 {
        return put_of_mdf(out, at, rndf, mdf, line, number);
    }
    at
}

// The same behind other words: a line of its own; nothing where nothing is told.
pub fn put_expected_line(
    out: &mut [u8],
    at: usize,
    edition: Edition,
    rndf: &[u8],
    mdf: &[u8],
    file: u32,
    line: u32,
    number: u8,
) -> usize
    ensures { Wrote (pen out.old at) (line_of (expected_words_of edition rndf.now mdf.now file line number)) (pen out.new result) }
{
    let to = put_expected(out, at, edition, rndf, mdf, file, line, number);
    if to == at {
        return to;
    }
    put_line_end(out, to)
}

fn answer_of(length: u32) -> ExpectedAnswer
    ensures { result ≡ answer_of length }
{
    ExpectedAnswer {
        accepted: 1,
        file: 0,
        line: 0,
        number: 0,
        column: 0,
        length,
    }
}

fn too_short() -> ExpectedAnswer
    ensures { result ≡ too_short_of }
{
    ExpectedAnswer {
        accepted: 0,
        file: 0,
        line: 0,
        number: 19,
        column: 0,
        length: 0,
    }
}

// The words alone in an output, for callers of the library.
pub fn write_expected(
    edition: Edition,
    rndf: &[u8],
    mdf: &[u8],
    file: u32,
    line: u32,
    number: u8,
    out: &mut [u8],
) -> ExpectedAnswer
    ensures { AnswersExpected expected_words_of edition rndf.now mdf.now file line number (length out.old) result out.new }
{
    clear_output(out);
    let at = put_expected(out, 0, edition, rndf, mdf, file, line, number);
    let finished = finish(out, at);
    match finished {
        Some(n) => answer_of(n as u32),
        None => too_short(),
    }
}
