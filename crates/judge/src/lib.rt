// What a line of an RNDF gets at a place: blank, a statement with the next place, or one number of document 01, 2 to 9 or 25; as a definition, with the laws that it is what `text` says.
// The faults are told in document 01's order: 2, 3, 4 by the line's form; 5 and 6 by the kind alone; 7 by the count of fields; 8 over every field; 9, and behind it 25.
// The code that tells it is in two crates, so that a walk can keep its place where it stands: `said_line` up to 8, `place` behind it. Here is only the kind of a line.
//
// specs/Judging: what a line gets, executable, for every file; specs/RndfLine: for an RNDF. proofs/: it is what `text` says of the line (RndfTies).
//
// Rests on `line`, `word`, `made_out`, `place`, `statement` and what they rest on.
#![tactic(auto)]

ghost use Rattle.std.specs.Prelude.{◌≡◌};
ghost use Rattle.judge.specs.RndfLine.{rndf_kind};

use statement::kinds;
use word::{begins_with_digit, rndf_keyword};

// The kind of a line by its first field: its column, of which a point's is the last; no kind for a word that is no keyword.
pub fn kind_of(s: &[u8]) -> u8
    ensures { result ≡ rndf_kind s.now }
{
    if begins_with_digit(s) {
        return kinds::POINT;
    }
    let i = rndf_keyword(s);
    if i < kinds::POINT { i } else { kinds::COUNT }
}
