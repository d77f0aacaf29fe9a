// Which line of the given text a line of the mended text is (request L9): where the mended text is refused, planners are told its first fault with the line that they have before them.
//
// specs/Given: the numbers of the lines that come out, and the one that is asked for. proofs/Numbers: **they are the lines of the mended text, one for one and in order**. Nothing is required, whatever the bytes are.
//
// Rests on `mend_pieces`, `mend_lines`, `mend_told`, `mend_law`, `scan` and what they rest on.
#![tactic(auto)]

ghost use Rattle.std.specs.Prelude.{◌≡◌, ◌-◌};
ghost use Rattle.terms.specs.Words.{pick};
ghost use Rattle.line.specs.Lines.{lines_of};
ghost use Rattle.mend_lines.specs.Forward.{none_before_of};
ghost use Rattle.mended_lines.specs.Given.{kept_of, given_from, given_line_of};

use mend_lines::{Becomes, Before, line_change, line_kind};
use scan::far_byte_from;

fn is_kept(becomes: Becomes) -> bool
    ensures { result ≡ kept_of becomes }
{
    match becomes {
        Becomes::Stays => true,
        Becomes::Goes(_) => false,
        Becomes::Recount(_, _, _) => true,
    }
}

// How many are left to pass behind a line.
fn left_behind(left: usize, kept: bool) -> usize
    ensures { result ≡ left - pick kept 1 0 }
{
    if kept {
        if left == 0 {
            return 0;
        }
        return left - 1;
    }
    left
}

// The number of the line in whose place the line behind the first `passed` comes out; one more than there are lines where none does.
fn line_behind(text: &[u8], passed: usize) -> usize
    ensures { result ≡ given_from 1 passed none_before_of (lines_of text.now) }
{
    let mut before = Before::none();
    let mut from: usize = 0;
    let mut line: usize = 1;
    let mut left = passed;
    while from < text.len() {
        let e = far_byte_from(text, from, 10);
        let bytes = &text[from..e];
        let kind = line_kind(bytes);
        let kept = is_kept(line_change(text, bytes, e + 1, kind, before));
        if kept & (left == 0) {
            return line;
        }
        left = left_behind(left, kept);
        before = before.after(kind);
        from = e + 1;
        line += 1;
    }
    line
}

// Of the line with this number in the mended text, its number in the given one; 0 of 0.
pub fn given_line(text: &[u8], wanted: usize) -> usize
    ensures { result ≡ given_line_of text.now wanted }
{
    if wanted == 0 {
        return 0;
    }
    line_behind(text, wanted - 1)
}
