// What a line of an RNDF gets in an edition of the format (request L10): what it gets in the present one; but in the older one, a line that says what that edition does not have gets 8
// (`solid_yellow`) or 9 (0 spots) for it. One test of the statement that the judge of the present edition made out, so that neither places nor fields know an edition, a text is walked once
// in each, and the present one pays a comparison a line. A function that judges the line and then tests cost a tenth of the reading: what a line gets was copied once more.
//
// specs/EditionLine: the same, executable. proofs/: Lines: it is the line of `judging_in`; Told: it is what `text` says of the line in that edition; EditionWalk: a walk by it finds what
// `text` answers in that edition, and what is gathered in an edition is gathered in the present one.
//
// Rests on `edition`, `editions`, `judge`, `walk` and what they rest on.
#![tactic(auto)]

ghost use Rattle.std.specs.Prelude.{◌≡◌};
ghost use Rattle.grammar.specs.Editions.{december};
ghost use Rattle.edition.specs.Editions.{inner};
ghost use Rattle.place_table.specs.Verdicts.{verdict_of};
ghost use Rattle.edition_judge.specs.EditionLine.{side_bars_of, spots_bar_of, bars_of};

use edition::Edition;
use statement::Statement;

// 8 for the second boundary, `solid_yellow`.
fn side_bars(boundary: u8) -> Result<(), u8>
    ensures { result ≡ verdict_of (side_bars_of boundary) }
{
    if boundary == 2 { Err(8) } else { Ok(()) }
}

// 9 for no spots.
fn spots_bar(count: u32) -> Result<(), u8>
    ensures { result ≡ verdict_of (spots_bar_of count) }
{
    if count == 0 { Err(9) } else { Ok(()) }
}

// What the older edition says of a statement that the present one takes.
fn bars(s: Statement) -> Result<(), u8>
    ensures { result ≡ verdict_of (bars_of december s) }
{
    match s {
        Statement::LeftBoundary(b) => side_bars(b),
        Statement::RightBoundary(b) => side_bars(b),
        Statement::NumSpots(n) => spots_bar(n),
        _ => Ok(()),
    }
}

// What an edition says of a statement that the present one takes. The present one has every statement.
pub fn barred(edition: Edition, s: Statement) -> Result<(), u8>
    ensures { result ≡ verdict_of (bars_of (inner edition) s) }
{
    match edition {
        Edition::March2007 => Ok(()),
        Edition::December2006 => bars(s),
    }
}
