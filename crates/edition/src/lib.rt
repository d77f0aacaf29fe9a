// Which edition of the format a text is read by (request L10): the caller says it.
//
// specs/Editions: **what each means**, as the law has it.
//
// Rests on `law` and what it rests on.
#![tactic(auto)]

ghost use Rattle.std.specs.Prelude.{◌≡◌};
ghost use Rattle.edition.specs.Editions.{edition_numbered};

// The present one, of March 14, 2007, and the one as it stood on December 6, 2006.
#[derive(Clone, Copy)]
pub enum Edition {
    March2007,
    December2006,
}

// To C it is a number: 1 is December 6, 2006, any other the present one.
pub fn edition_of(number: u32) -> Edition
    ensures { result ≡ edition_numbered number }
{
    if number == 1 {
        Edition::December2006
    } else {
        Edition::March2007
    }
}
