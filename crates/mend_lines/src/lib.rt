// What becomes of a line in the mending tool (request L9): it stays, it goes, or its number is replaced. One goes forward over the given lines with what the lines before have left (`Before`), and looks ahead only for the items of a count line.
//
// specs/Forward: the step and the change, executable. proofs/WordKinds: a first field's kind says which word it is. proofs/Points: a line that begins with a digit is a point. proofs/Steps: what the lines before have left says what the law asks of them.
// proofs/Changes: **the change is the law's** (mend_law/specs/Mend.change).
//
// Rests on `find_line` (the kind of a line by its first field), `line`, `number`, `scan`, `statement` and `mend_law`, and on what they rest on.
#![tactic(auto)]

ghost use Rattle.std.specs.Prelude.{◌≡◌, take, drop};
ghost use Rattle.terms.specs.Words.{pick};
ghost use Rattle.find_line.specs.FoundLines.{fields_end_of, rndf_line_kind_of};
ghost use Rattle.line.specs.Forms.{fields_in_of};
ghost use Rattle.line.specs.Lines.{lines_of};
ghost use Rattle.mend_lines.specs.Forward.{no_kinds, opens_of, option_of, with_kind_of, has_of, none_before_of, after_of, repeats_of, again_of, counted_of, items_in, second_number_of, number_on_of, corrected_of, behind_of, count_change_of, change_of};

use find_line::{fields_end, rndf_line_kind};
use line::{Fields, Span, fields_of};
use number::integer_of;
use scan::far_byte_from;
use statement::kinds;
use units::LARGEST_INTEGER;
use word::begins_with_digit;

// ## The kind of a line
// By its first field, of a line without its LF. A line that begins with a digit is a point: most lines are, and of those no other byte is looked at.
pub fn line_kind(line: &[u8]) -> u8
    ensures { result ≡ rndf_line_kind_of line.now }
{
    if begins_with_digit(line) {
        return kinds::POINT;
    }
    rndf_line_kind(line)
}

// ## What the lines before have left
// The kinds of first fields since the last line that opens a part, its own too, or since the file's start, one place for each; and whether one of all was `end_file`.
#[derive(Clone, Copy)]
pub struct Before {
    pub since: [bool; 31],
    pub over: bool,
}

fn opens_part(kind: u8) -> bool
    ensures { result ≡ opens_of kind }
{
    matches!(
        kind,
        kinds::SEGMENT | kinds::LANE | kinds::ZONE | kinds::PERIMETER | kinds::SPOT
    )
}

fn is_option(kind: u8) -> bool
    ensures { result ≡ option_of kind }
{
    let file = (kind == kinds::FORMAT_VERSION) | (kind == kinds::CREATION_DATE);
    let lane = (kind == kinds::LANE_WIDTH)
        | ((kind == kinds::LEFT_BOUNDARY) | (kind == kinds::RIGHT_BOUNDARY));
    let more = (kind == kinds::CHECKPOINT) | ((kind == kinds::STOP) | (kind == kinds::EXIT));
    let others = (kind == kinds::SEGMENT_NAME)
        | ((kind == kinds::ZONE_NAME) | (kind == kinds::SPOT_WIDTH));
    file | (lane | (more | others))
}

// Nothing yet, where a part is opened.
fn kept(since: [bool; 31], opens: bool) -> [bool; 31]
    ensures { result ≡ pick opens no_kinds since }
{
    if opens { [false; 31] } else { since }
}

fn with_kind(since: [bool; 31], kind: u8) -> [bool; 31]
    ensures { result ≡ with_kind_of since kind }
{
    let i = kind as usize;
    if i < 31 {
        let mut s = since;
        s[i] = true;
        return s;
    }
    since
}

impl Before {
    pub fn none() -> Before
        ensures { result ≡ none_before_of }
    {
        Before {
            since: [false; 31],
            over: false,
        }
    }

    // A line of this kind stood there since.
    pub fn has(self, kind: u8) -> bool
        ensures { result ≡ has_of self kind }
    {
        let i = kind as usize;
        i < 31 && self.since[i]
    }

    // Behind a line of this kind.
    pub fn after(self, kind: u8) -> Before
        ensures { result ≡ after_of self kind }
    {
        let old = self.since;
        let since = with_kind(kept(old, opens_part(kind)), kind);
        Before {
            since,
            over: self.over | (kind == kinds::END_FILE),
        }
    }

    // An option of this kind may repeat in the part opened last.
    fn repeats(self, kind: u8) -> bool
        ensures { result ≡ repeats_of self kind }
    {
        let lane = self.has(kinds::LANE);
        let perimeter = self.has(kinds::PERIMETER);
        (lane & ((kind == kinds::CHECKPOINT) | ((kind == kinds::STOP) | (kind == kinds::EXIT))))
            | (perimeter & (kind == kinds::EXIT))
    }

    // A single option of this kind was given already.
    pub fn again(self, kind: u8) -> bool
        ensures { result ≡ again_of self kind }
    {
        let option = is_option(kind);
        let given = self.has(kind);
        let repeats = self.repeats(kind);
        option & (given & !repeats)
    }
}

pub fn counts_of(kind: u8) -> Option<(u8, u8)>
    ensures { result ≡ counted_of kind }
{
    match kind {
        kinds::NUM_SEGMENTS => Some((kinds::SEGMENT, kinds::END_FILE)),
        kinds::NUM_ZONES => Some((kinds::ZONE, kinds::END_FILE)),
        kinds::NUM_LANES => Some((kinds::LANE, kinds::END_SEGMENT)),
        kinds::NUM_WAYPOINTS => Some((kinds::POINT, kinds::END_LANE)),
        kinds::NUM_SPOTS => Some((kinds::SPOT, kinds::END_ZONE)),
        kinds::NUM_PERIMETERPOINTS => Some((kinds::POINT, kinds::END_PERIMETER)),
        _ => None,
    }
}

// How many lines from a place on have first fields of the kind `item`, up to the first line that begins with the kind `end`.
pub fn items_from(text: &[u8], at: usize, item: u8, end: u8) -> usize
    ensures { result ≡ items_in text.now at item end }
{
    let mut from = at;
    let mut n: usize = 0;
    while from < text.len() {
        let e = far_byte_from(text, from, 10);
        let kind = line_kind(&text[from..e]);
        if kind == end {
            return n;
        }
        if kind == item {
            n += 1;
        }
        from = e + 1;
    }
    n
}

// The fields of a line, without its LF.
fn fields_on(line: &[u8]) -> Fields
    ensures { result ≡ fields_in_of (take (fields_end_of line.now) line.now) }
{
    let e = fields_end(line);
    fields_of(&line[..e])
}

fn second_number(s: &[u8]) -> Option<(usize, usize, u32)>
    ensures { result ≡ second_number_of s.now }
{
    let f = fields_of(s);
    if f.count != 2 {
        return None;
    }
    let Span { start, stop } = f.b;
    let m = integer_of(&s[start..stop])?;
    (m <= LARGEST_INTEGER).then_some((start, stop, m))
}

fn number_on(line: &[u8]) -> Option<(usize, usize, u32)>
    ensures { result ≡ number_on_of line.now }
{
    let e = fields_end(line);
    second_number(&line[..e])
}

// ## The change
// The line stays; it goes, by 2 or 3; or what stands there from a place of the line to another becomes a number.
// Kept as it is: (1) the C interface: 2 and 3 are what the row of such a line holds in the list that is lent.
#[derive(Clone, Copy)]
pub enum Becomes {
    Stays,
    Goes(u8),
    Recount(usize, usize, usize),
}

// A number, where so many items are.
fn corrected(number: Option<(usize, usize, u32)>, n: usize) -> Becomes
    ensures { result ≡ corrected_of number n }
{
    let Some((start, stop, m)) = number else {
        return Becomes::Stays;
    };
    if n > LARGEST_INTEGER as usize || m as usize == n {
        return Becomes::Stays;
    }
    Becomes::Recount(start, stop, n)
}

// A line behind the file's end.
fn behind_end(line: &[u8]) -> Becomes
    ensures { result ≡ behind_of line.now }
{
    let f = fields_on(line);
    if f.count == 0 {
        Becomes::Stays
    } else {
        Becomes::Goes(3)
    }
}

// A line of this kind, behind which the text goes on at `next`.
fn count_change(text: &[u8], line: &[u8], next: usize, kind: u8) -> Becomes
    ensures { result ≡ count_change_of text.now line.now next kind }
{
    let Some((item, end)) = counts_of(kind) else {
        return Becomes::Stays;
    };
    let number = number_on(line);
    corrected(number, items_from(text, next, item, end))
}

// What becomes of a line, without its LF, behind which the text goes on at `next`. Its kind is handed in, for whoever goes on to the next line needs it too: of another kind nothing is said. For a count line the lines behind it are looked at up to its end word.
pub fn line_change(text: &[u8], line: &[u8], next: usize, kind: u8, before: Before) -> Becomes
    ensures { kind ≡ rndf_line_kind_of line.now → result ≡ change_of before line.now (lines_of (drop next text.now)) }
{
    if before.over {
        return behind_end(line);
    }
    if before.again(kind) {
        return Becomes::Goes(2);
    }
    count_change(text, line, next, kind)
}
