// The line of a statement, found again in a text that has no fault of 2 to 10: for refusals that are found in the filled tables, by a row. One walk over the lines,
// up to the one that is sought. No line is judged again: the first field tells the kind of each.
//
// specs/FoundLines: the count of lines by kind, executable. proofs/Theorems: the line is where the statement stands.
// proofs/FirstFields, RndfLines, MdfLines: what the judge says of a line has the kind of its first field. proofs/Counting: so the count finds what a judged walk finds.
//
// Rests on `line`, `word`, `refusal`, `judge` (the kind of a word) and `walk`, for its theorems on `mission_judge`, and on what they rest on.
#![tactic(auto)]

ghost use Rattle.std.specs.Prelude.{◌≡◌};
ghost use Rattle.judge.specs.RndfLine.{rndf_kind};
ghost use Rattle.find_line.specs.FoundLines.{fields_end_of, first_of, rndf_line_kind_of, digit_kind_of, first_order_of, mdf_line_kind_of, rndf_line_in, mdf_line_in};

use judge::kind_of;
use line::trimmed;
use refusal::LONGEST_TEXT;
use scan::{far_byte_from, not_separator_from, separator_from, two_from};
use statement::orders;
use walk::Seen;
use word::{begins_with_digit, mdf_keyword};

// Where a line's fields end: before its CR and before a comment.
pub fn fields_end(s: &[u8]) -> usize
    ensures { result ≡ fields_end_of s.now }
{
    let e = trimmed(s);
    two_from(&s[..e], 0, b'/', b'*')
}

// The kind of the first field, as the judge tells it: no kind where there is no field.
fn first_kind(s: &[u8]) -> u8
    ensures { result ≡ rndf_kind (first_of s.now) }
{
    let a = not_separator_from(s, 0);
    let e = separator_from(s, a);
    kind_of(&s[a..e])
}

// The kind of a line of an RNDF, without its LF.
pub fn rndf_line_kind(s: &[u8]) -> u8
    ensures { result ≡ rndf_line_kind_of s.now }
{
    let e = fields_end(s);
    first_kind(&s[..e])
}

// The line of the statement of an RNDF that is the one with the number `row`, from 0, of its kind (by its column); 0 where there is none, or where
// the text is too long.
pub fn rndf_line(text: &[u8], kind: u8, row: u32) -> u32
    ensures { result ≡ rndf_line_in text.now kind row }
{
    if LONGEST_TEXT < text.len() {
        return 0;
    }
    let mut seen = Seen::none();
    let mut from: usize = 0;
    let mut line: u32 = 1;
    while from < text.len() {
        let e = far_byte_from(text, from, 10);
        seen = seen.more(rndf_line_kind(&text[from..e]) == kind, row, line);
        if row < seen.count {
            return seen.line;
        }
        from = e + 1;
        line += 1;
    }
    seen.line
}

// The kind of an MDF's line that begins with a digit, by what stands behind its first field, which ends at `stop`: no place is needed to tell it.
fn digit_kind(s: &[u8], stop: usize) -> u8
    ensures { result ≡ digit_kind_of s.now stop }
{
    let a = not_separator_from(s, stop);
    let e = separator_from(s, a);
    if a < e { orders::LIMIT } else { orders::GOAL }
}

// The kind of the first field: a keyword's, or by the fields behind it where it begins with a digit; no kind where there is no field.
fn first_order(s: &[u8]) -> u8
    ensures { result ≡ first_order_of s.now }
{
    let a = not_separator_from(s, 0);
    let e = separator_from(s, a);
    if begins_with_digit(&s[a..e]) {
        return digit_kind(s, e);
    }
    let i = mdf_keyword(&s[a..e]);
    if i < orders::GOAL { i } else { orders::COUNT }
}

// The kind of a line of an MDF, without its LF.
pub fn mdf_line_kind(s: &[u8]) -> u8
    ensures { result ≡ mdf_line_kind_of s.now }
{
    let e = fields_end(s);
    first_order(&s[..e])
}

// The same for an MDF.
pub fn mdf_line(text: &[u8], kind: u8, row: u32) -> u32
    ensures { result ≡ mdf_line_in text.now kind row }
{
    if LONGEST_TEXT < text.len() {
        return 0;
    }
    let mut seen = Seen::none();
    let mut from: usize = 0;
    let mut line: u32 = 1;
    while from < text.len() {
        let e = far_byte_from(text, from, 10);
        seen = seen.more(mdf_line_kind(&text[from..e]) == kind, row, line);
        if row < seen.count {
            return seen.line;
        }
        from = e + 1;
        line += 1;
    }
    seen.line
}
