// The parts of a plain line, read where they stand in the text, in one pass and without cutting the line first: an integer, identifiers, a coordinate, a name, what separates fields,
// and the line's end. Where a function answers, the bytes up to the place that it answers are what it says (specs/Stands); `None` says nothing, and such a line is cut and judged
// as any other.
//
// specs/Stands: what each answer says of the text. proofs/Stretches: stretches of a text joined; Digits, Joined and Signs: numbers; Names; Ended: a comment, and where a line ends.
//
// Rests on `scan`, `number`, `coordinate`, `line` and `terms`.
#![tactic(auto)]

ghost use Rattle.std.specs.Prelude.{◌≡◌, ◌≤◌, ◌<◌, ◌+◌, length, get_or};
ghost use Rattle.number.specs.Spelling.{SpellsInteger};
ghost use Rattle.coordinate.specs.Sign.{signed};
ghost use Rattle.plain_parts.specs.Stands.{Stands, DotStands, IntegerStands, PairStands, TripleStands, SixStand, DegreesStand, behind_minus_of, CoordinateStands, GapStands, OpeningStands, CommentStands, BareStands, NoteStands, EndStands, name_byte, NameEnds};

use scan::{is_digit, not_inside_from, not_separator_from, two_from};

const LF: u8 = 10;

const CR: u8 = 13;

// The integer 0, whose digit stands there: no further digit, and something behind it.
fn zero_at(s: &[u8], from: usize) -> Option<(u32, usize)>
    requires { Stands s.now from (from + 1) (λ w. SpellsInteger w 0) }
    ensures { IntegerStands s.now from result }
{
    let i = from + 1;
    if i < s.len() && !is_digit(s[i]) {
        Some((0, i))
    } else {
        None
    }
}

// The integer whose first digit, `first`, stands there and is no zero.
fn digits_from(s: &[u8], from: usize, first: u32) -> Option<(u32, usize)>
    requires { Stands s.now from (from + 1) (λ w. SpellsInteger w first) × (0 < first) }
    ensures { IntegerStands s.now from result }
{
    let mut v = first;
    for i in from + 1..s.len() {
        let d = s[i];
        if !is_digit(d) {
            return Some((v, i));
        }
        if 9999 < v {
            return None;
        }
        v = v * 10 + u32::from(d - b'0');
    }
    None
}

// 1 to 5 digits, no leading zero but 0 itself, and something behind them. The zero goes its own way, so that no turn of the loop tests for it.
pub fn integer_at(s: &[u8], from: usize) -> Option<(u32, usize)>
    ensures { IntegerStands s.now from result }
{
    let b = *s.get(from)?;
    if !is_digit(b) {
        return None;
    }
    let v = u32::from(b - b'0');
    if v == 0 {
        zero_at(s, from)
    } else {
        digits_from(s, from, v)
    }
}

// A dot stands there.
fn dot_at(s: &[u8], at: usize) -> bool
    ensures { DotStands s.now at result }
{
    at < s.len() && s[at] == b'.'
}

pub fn pair_at(s: &[u8], from: usize) -> Option<(u32, u32, usize)>
    ensures { PairStands s.now from result }
{
    let (m, p) = integer_at(s, from)?;
    if !dot_at(s, p) {
        return None;
    }
    let (n, e) = integer_at(s, p + 1)?;
    Some((m, n, e))
}

// Not by `pair_at`: one call more for each identifier costs a twentieth of the time on a text with many.
pub fn triple_at(s: &[u8], from: usize) -> Option<(u32, u32, u32, usize)>
    ensures { TripleStands s.now from result }
{
    let (x, p) = integer_at(s, from)?;
    if !dot_at(s, p) {
        return None;
    }
    let (y, q) = integer_at(s, p + 1)?;
    if !dot_at(s, q) {
        return None;
    }
    let (z, e) = integer_at(s, q + 1)?;
    Some((x, y, z, e))
}

// Six digits, as a number.
fn six_at(s: &[u8], from: usize) -> Option<u32>
    ensures { SixStand s.now from result }
{
    if s.len() < 6 || s.len() - 6 < from {
        return None;
    }
    let mut v: u32 = 0;
    for k in 0..6 {
        let b = s[from + k];
        if !is_digit(b) {
            return None;
        }
        v = v * 10 + u32::from(b - b'0');
    }
    Some(v)
}

// 1 to 3 digits with no leading zero but a single 0, a point, six digits.
fn degrees_at(s: &[u8], from: usize) -> Option<(u32, usize)>
    ensures { DegreesStand s.now from result }
{
    let (whole, p) = integer_at(s, from)?;
    if 999 < whole || !dot_at(s, p) {
        return None;
    }
    let part = six_at(s, p + 1)?;
    Some((whole * 1000000 + part, p + 7))
}

// Behind a minus, where one stands there.
fn behind_minus(s: &[u8], from: usize) -> usize
    ensures { result ≡ behind_minus_of s.now from }
{
    if from < s.len() && s[from] == b'-' {
        from + 1
    } else {
        from
    }
}

// With its sign: -0.500000 is -500,000.
fn with_sign(minus: bool, m: u32) -> i32
    requires { m ≤ 999999999 }
    ensures { result ≡ signed minus m }
{
    let above = m as i32;
    if minus { -above } else { above }
}

pub fn coordinate_at(s: &[u8], from: usize) -> Option<(i32, usize)>
    ensures { CoordinateStands s.now from result }
{
    let a = behind_minus(s, from);
    let (m, e) = degrees_at(s, a)?;
    Some((with_sign(from < a, m), e))
}

// Behind one separator or more.
pub fn gap_at(s: &[u8], from: usize) -> Option<usize>
    ensures { GapStands s.now from result }
{
    let a = not_separator_from(s, from);
    if from < a { Some(a) } else { None }
}

// A comment opens there.
fn opening_at(s: &[u8], at: usize) -> bool
    ensures { OpeningStands s.now at result }
{
    at < s.len() && s[at..].starts_with(b"/*")
}

// Behind a comment that opens there, and the separators behind it. A separator may stand inside a comment too, so that one scan for what may not tells of all up to that place. An
// opening that its line does not close is followed further than the line, but once: such a text is refused.
fn comment_at(s: &[u8], from: usize) -> Option<usize>
    ensures { CommentStands s.now from result }
{
    if !opening_at(s, from) {
        return None;
    }
    let a = from + 2;
    let close = two_from(s, a, b'*', b'/');
    if s.len() <= close {
        return None;
    }
    let e = not_separator_from(s, close + 2);
    if e <= not_inside_from(s, a) {
        Some(e)
    } else {
        None
    }
}

// The end of a line with one CR there.
fn return_end(s: &[u8], from: usize) -> Option<usize>
    requires { (from < length s.now) × (get_or s.now from 0 ≡ 13) }
    ensures { BareStands s.now from result }
{
    let e = from + 1;
    if e < s.len() && s[e] != LF {
        None
    } else {
        Some(e)
    }
}

// The line's end there, or behind one CR.
fn bare_end(s: &[u8], at: usize) -> Option<usize>
    ensures { BareStands s.now at result }
{
    if at < s.len() {
        match s[at] {
            LF => Some(at),
            CR => return_end(s, at),
            _ => None,
        }
    } else if at == s.len() {
        Some(at)
    } else {
        None
    }
}

// The end of a line whose comment opens there.
fn comment_end(s: &[u8], from: usize) -> Option<usize>
    ensures { NoteStands s.now from result }
{
    let e = comment_at(s, from)?;
    bare_end(s, e)
}

// The line's end, where nothing but separators, a comment and one CR stands before it.
pub fn end_at(s: &[u8], from: usize) -> Option<usize>
    ensures { EndStands s.now from result }
{
    let at = not_separator_from(s, from);
    if at < s.len() && s[at] == b'/' {
        comment_end(s, at)
    } else {
        bare_end(s, at)
    }
}

// A byte of a field, with which no comment opens.
fn is_name_byte(b: u8) -> bool
    ensures { result ≡ name_byte b }
{
    ((33 <= b) & (b <= 126) & ((b != b'\\') & (b != b'*'))) & (b != b'/')
}

// Where a name ends: at the first byte that is none of its own, or at the text's end.
pub fn name_end(s: &[u8], from: usize) -> usize
    ensures { NameEnds s.now from result }
{
    for i in from..s.len() {
        if !is_name_byte(s[i]) {
            return i;
        }
    }
    from.max(s.len())
}
