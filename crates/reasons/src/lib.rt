// The words of each refusal number, put into a lent output: those of specs/Reasons, for every number and output; nothing is required. Rests on `output` (each put ensures `Wrote`).
//
// proofs/Others: the numbers that no refusal has. That the contracts settle every byte: answers/proofs/Settled.
#![tactic(auto)]

ghost use Rattle.std.specs.Prelude.{◌≡◌};
ghost use Rattle.terms.specs.Ascii.{ascii};
ghost use Rattle.output.specs.Pen.{pen, Wrote};
ghost use Rattle.reasons.specs.Reasons.{reason, reason_of};

use output::put_bytes;

// THE TABLE of reasons. docs/REFUSALS.md has the same words (tests/reasons.py).
fn reason(number: u8) -> &'static [u8]
    ensures { result.now ≡ reason number }
{
    match number {
        // a text, its lines and its bytes
        1 => b"the text is over 16,777,215 bytes",
        2 => b"the line is over 512 bytes",
        3 => b"the comment is not closed, or something other than tabs and spaces follows it",
        4 => b"a byte that is not allowed",
        // a statement and its fields
        5 => b"unknown statement, or one that may not stand here",
        6 => b"a single option given again",
        7 => b"wrong number of fields",
        8 => b"a field is not of its kind",
        9 => b"a value that is not permitted here",
        // the end, room for the rows, references of the RNDF, the name of the MDF's RNDF
        10 => b"the text ends before `end_file`",
        11 => b"a table has fewer rows than needed",
        12 => b"the entry is no declared lane waypoint or perimeter point",
        13 => b"the checkpoint number is already declared",
        14 => b"the MDF names another RNDF",
        // references of the MDF
        15 => b"the goal is no checkpoint of the RNDF",
        16 => b"the limit's id is not in the RNDF",
        17 => b"the limit's id was already given",
        18 => b"some segment or zone has no limit",
        // the writers
        19 => b"the writing is over 16,777,215 bytes, or longer than the lent output",
        // what the requests add: a list of numbers, a route
        20 => b"the two lists differ in length",
        21 => b"the route is empty, or does not begin at a declared start",
        22 => b"a step of the route is no move",
        23 => b"a goal is not met in order",
        24 => b"the route does not end at the last goal's point",
        // a spot's checkpoint; mending
        25 => b"the spot has no checkpoint",
        26 => b"past mending",
        // a packed network
        27 => b"the bytes are of another version, or there are none",
        28 =>
            b"a length is wrong: the first is cut short or not the count of the bytes behind it, or a record runs past the end",
        29 => b"the records are not the packed form of a network",
        // whether a mission can be driven
        30 => b"the start is no declared point",
        31 => b"a goal can't be reached",
        // no reply has another number
        _ => b"no such refusal",
    }
}

pub fn put_reason(out: &mut [u8], at: usize, number: u8) -> usize
    ensures { Wrote (pen out.old at) (reason number) (pen out.new result) }
{
    put_bytes(out, at, reason(number))
}

// By the refusal's file too: 11 of file 0 is of a work space.
pub fn put_reason_of(out: &mut [u8], at: usize, file: u8, number: u8) -> usize
    ensures { Wrote (pen out.old at) (reason_of file number) (pen out.new result) }
{
    if file == 0 && number == 11 {
        return put_bytes(out, at, b"the work space has fewer rows than points");
    }
    put_reason(out, at, number)
}
