// What the columns of an RNDF and of an MDF have in common: the first byte that is not allowed, the field of a number, and where a field starts.
//
// Rests on `columns` and what it rests on.
#![tactic(auto)]

ghost use Rattle.std.specs.Prelude.{◌≡◌};
ghost use Rattle.law_columns.specs.Finding.{bad_at_of, listed_at};
ghost use Rattle.columns.specs.Locating.{span_start};

use line::Fields;
use scan::{not_inside_from, not_outside_from, two_from};

// How many bytes stand before the first that is not allowed: outside a comment, else in it.
pub fn bad_at(s: &[u8]) -> usize
    ensures { result ≡ bad_at_of s.now }
{
    let mark = two_from(s, 0, b'/', b'*');
    let i = not_outside_from(s, 0);
    if i < mark {
        i
    } else {
        not_inside_from(s, mark)
    }
}

// The field of a number other than 8 and 9, counted from 0: an entry, a checkpoint's number, the RNDF's name, or the first.
pub fn listed_at(number: u8) -> u8
    ensures { result ≡ listed_at number }
{
    match number {
        12 | 13 => 2,
        14 => 1,
        _ => 0,
    }
}

// Where a field of the first three starts.
#[tactic(auto, unfolding(columns::specs::Locating::span_start))]
pub fn start_of(f: Fields, i: u8) -> usize
    ensures { result ≡ span_start f i }
{
    match i {
        _ if f.count <= i => 0,
        0 => f.a.start,
        1 => f.b.start,
        _ => f.c.start,
    }
}
