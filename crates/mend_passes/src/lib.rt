// The passes of the mending tool over the given lines (request L9) that walk no places: how many lines there are, what comes out, what is listed, and whether every exit's entry is declared. Each goes forward
// with what the lines before have left (`mend_lines`), and looks ahead for the items of a count line: linear over a text whose form is good, so the tool asks for the form first.
//
// specs/Passes: the entries, executable; the others are specs/Pieces of `mend_pieces` and specs/Tests of `mend_tests`.
//
// Rests on `mend_pieces`, `mend_lines`, `mend_tests`, `references`, `output`, `rows` and what they rest on.
#![tactic(auto)]

ghost use Rattle.std.specs.Prelude.{◌≡◌, [], ◌∷◌, ◌+◌, ◌≤◌, ◌<◌, length};
ghost use Rattle.refusal.specs.Size.{most};
ghost use Rattle.line.specs.Lines.{lines_of};
ghost use Rattle.rows.specs.Lay.{put_row_of};
ghost use Rattle.rows.specs.Table.{put_rows};
ghost use Rattle.output.specs.Pen.{pen, Wrote};
ghost use Rattle.references.specs.Finding.{look_in};
ghost use Rattle.mend_lines.specs.Forward.{none_before_of};
ghost use Rattle.mend_pieces.specs.Pieces.{mended_bytes, changed_rows, row_for};
ghost use Rattle.mend_tests.specs.Tests.{third_id_of, entry_on_of, is_exit_right_of};
ghost use Rattle.mend_passes.specs.Passes.{list_row, exit_right_at, are_exits_right_of};

use find_line::{fields_end, rndf_line_kind};
use line::fields_of;
use mend_lines::{Becomes, Before, line_change, line_kind};
use mend_pieces::{line_stop, put_piece};
use number::{Id, triple_of};
use references::{id_from, resolve};
use refusal::LONGEST_TEXT;
use rows::rows_of;
use scan::far_byte_from;
use statement::kinds;

// ## Lines
pub fn lines_in(text: &[u8]) -> usize
    ensures { result ≡ length (lines_of text.now) }
{
    let mut lines: usize = 0;
    let mut from: usize = 0;
    while from < text.len() {
        lines += 1;
        from = far_byte_from(text, from, 10) + 1;
    }
    lines
}

// ## What comes out
pub fn put_mended(out: &mut [u8], text: &[u8]) -> usize
    ensures { Wrote (pen out.old 0) (mended_bytes none_before_of text.now (lines_of text.now)) (pen out.new result) }
{
    let mut before = Before::none();
    let mut from: usize = 0;
    let mut at: usize = 0;
    while from < text.len() {
        let e = far_byte_from(text, from, 10);
        let line = &text[from..e];
        let kind = line_kind(line);
        let becomes = line_change(text, line, e + 1, kind, before);
        let stop = line_stop(text, from);
        at = put_piece(out, at, &text[from..stop], becomes);
        before = before.after(kind);
        from = e + 1;
    }
    at
}

// How long the mended text is, or one more than the longest that a reader takes: what is put to an output of no bytes is counted.
pub fn mended_length(text: &[u8]) -> usize
    ensures { Wrote (pen [] 0) (mended_bytes none_before_of text.now (lines_of text.now)) (pen [] result) }
{
    let mut nothing: [u8; 0] = [0; 0];
    put_mended(&mut nothing, text)
}

// ## What is listed
// The line with this number in the given text, and which of the three, in a row of two words.
fn store_change(list: &mut [u32], row: u32, line: u32, which: u32)
    ensures { list.new ≡ put_row_of 2 list.old row (line ∷ which ∷ []) }
{
    let at = row as usize;
    if at < rows_of(list.len(), 2) {
        list[at * 2] = line;
        list[at * 2 + 1] = which;
    }
}

// What is listed of a line, behind so many rows; the answer is how many there are then.
fn list_change(list: &mut [u32], rows: u32, line: u32, becomes: Becomes) -> u32
    requires { rows < 4294967295 }
    ensures list_after { list.new ≡ put_rows 2 list_row list.old rows (row_for line becomes) }
    ensures value { result ≡ rows + length (row_for line becomes) }
{
    match becomes {
        Becomes::Stays => rows,
        Becomes::Goes(which) => {
            store_change(list, rows, line, which as u32);
            rows + 1
        }
        Becomes::Recount(_, _, _) => {
            store_change(list, rows, line, 1);
            rows + 1
        }
    }
}

// All changes, in the first rows of the list; the answer is how many there are. Nothing of a text that is too long.
pub fn list_changes(list: &mut [u32], text: &[u8]) -> u32
    ensures list_after { length text.now ≤ most → list.new ≡ put_rows 2 list_row list.old 0 (changed_rows 1 none_before_of (lines_of text.now)) }
    ensures value { length text.now ≤ most → result ≡ length (changed_rows 1 none_before_of (lines_of text.now)) }
{
    if LONGEST_TEXT < text.len() {
        return 0;
    }
    let mut before = Before::none();
    let mut from: usize = 0;
    let mut line: u32 = 1;
    let mut rows: u32 = 0;
    while from < text.len() {
        let e = far_byte_from(text, from, 10);
        let bytes = &text[from..e];
        let kind = line_kind(bytes);
        let becomes = line_change(text, bytes, e + 1, kind, before);
        rows = list_change(list, rows, line, becomes);
        before = before.after(kind);
        from = e + 1;
        line += 1;
    }
    rows
}

// ## Entries of exits
// The third field of a line as an identifier; 0.0.0 where there is none.
fn third_id(s: &[u8]) -> Id
    ensures { result ≡ third_id_of s.now }
{
    let f = fields_of(s);
    let start = f.c.start;
    let stop = f.c.stop;
    id_from(triple_of(&s[start..stop]))
}

fn entry_on(line: &[u8]) -> Id
    ensures { result ≡ entry_on_of line.now }
{
    let e = fields_end(line);
    third_id(&line[..e])
}

// The line is no exit, or its entry is declared.
fn is_exit_right(
    line: &[u8],
    segments: &[u32],
    lanes: &[u32],
    zones: &[u32],
    segment_count: u32,
) -> bool
    ensures { result ≡ is_exit_right_of (look_in segments.now lanes.now zones.now) segment_count line.now }
{
    if rndf_line_kind(line) != kinds::EXIT {
        return true;
    }
    let found = resolve(segments, lanes, zones, segment_count, entry_on(line));
    match found {
        Some(_) => true,
        None => false,
    }
}

// The same of a line that comes out as it is; a count line is no exit.
fn stays_right(
    becomes: Becomes,
    line: &[u8],
    segments: &[u32],
    lanes: &[u32],
    zones: &[u32],
    segment_count: u32,
) -> bool
    ensures { result ≡ exit_right_at (look_in segments.now lanes.now zones.now) segment_count becomes line.now }
{
    match becomes {
        Becomes::Stays => is_exit_right(line, segments, lanes, zones, segment_count),
        Becomes::Goes(_) => true,
        Becomes::Recount(_, _, _) => true,
    }
}

// Every exit of the lines that come out has a declared entry.
pub fn are_exits_right(
    text: &[u8],
    segments: &[u32],
    lanes: &[u32],
    zones: &[u32],
    segment_count: u32,
) -> bool
    ensures { result ≡ are_exits_right_of (look_in segments.now lanes.now zones.now) segment_count none_before_of (lines_of text.now) }
{
    let mut before = Before::none();
    let mut from: usize = 0;
    while from < text.len() {
        let e = far_byte_from(text, from, 10);
        let line = &text[from..e];
        let kind = line_kind(line);
        let becomes = line_change(text, line, e + 1, kind, before);
        if !stays_right(becomes, line, segments, lanes, zones, segment_count) {
            return false;
        }
        before = before.after(kind);
        from = e + 1;
    }
    true
}
