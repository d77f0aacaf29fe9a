// The unpacker: a packed network (request L11, docs/PACKED.md) read into lent tables, as the reader reads an RNDF. What is replied, and what every lent table then holds, is
// `unpackings`/specs/Unpacks, `Unpacks`: for all bytes and tables. Nothing is required. A refusal leaves every lent table zero. Names have their places in the packed bytes.
//
// Everything but the room is decided on the bytes alone (`look`: 1, 27, 28, and 29 by `packed_check`); then it is seen whether there is room (11), the tables are cleared, and the rows
// of a form that is taken are stored (`unpacked_rows`). That these are the rows of the network whose form the bytes are is `unpacked_tables`.
//
// specs/Telling: what is told of bytes, executable; the contracts of inner functions cite it. proofs/Steps: what the program does, said as the contract says it.
// That no second reply and no second memory satisfies the contract, and one does, is proved in `unpackings` and `packed_tables`, without the code.
//
// Rests on `unpackings`, `packed_check`, `unpacked_rows`, `unpacked_tables`, `room` and what they rest on.
#![tactic(auto)]

ghost use Rattle.std.specs.Prelude.{◌≡◌};
ghost use Rattle.law.specs.Tables.{lent};
ghost use Rattle.replies.specs.Replies.{refusal};
ghost use Rattle.unpackings.specs.Unpacks.{Unpacks};
ghost use Rattle.unpacker.specs.Telling.{looked, roomed};

use counts::Counts;
use packed_check::judged;
use refusal::{LONGEST_TEXT, Refusal};
use replies::RndfReply;
use room::{clear_tables, marks_fit, parts_fit};
use rows::FileRow;
use unpacked_rows::{Places, is_framed, is_version, store_tables};

// ## The bytes alone

fn refusal_of(file: u8, number: u8) -> Refusal
    ensures { result ≡ refusal file 0 number 0 }
{
    Refusal {
        file,
        line: 0,
        number,
        column: 0,
    }
}

fn look(bytes: &[u8]) -> Result<(Counts, FileRow, Places), Refusal>
    ensures { result ≡ looked bytes.now }
{
    if LONGEST_TEXT < bytes.len() {
        return Err(refusal_of(1, 1));
    }
    if !is_version(bytes) {
        return Err(refusal_of(0, 27));
    }
    if !is_framed(bytes) {
        return Err(refusal_of(0, 28));
    }
    judged(bytes).ok_or(refusal_of(0, 29))
}

// ## Room

// What is told, where tables of so many numbers are lent.
fn roomed(
    told: Result<(Counts, FileRow, Places), Refusal>,
    segments: usize,
    lanes: usize,
    zones: usize,
    spots: usize,
    points: usize,
    checkpoints: usize,
    stops: usize,
    exits: usize,
) -> Result<(Counts, FileRow, Places), Refusal>
    ensures { result ≡ roomed told segments lanes zones spots points checkpoints stops exits }
{
    let (c, file, places) = told?;
    let fits = parts_fit(c, segments, lanes, zones, spots)
        && marks_fit(c, points, checkpoints, stops, exits);
    if fits {
        Ok((c, file, places))
    } else {
        Err(refusal_of(1, 11))
    }
}

// ## The entry point

pub fn read_packed(
    bytes: &[u8],
    segments: &mut [u32],
    lanes: &mut [u32],
    zones: &mut [u32],
    spots: &mut [u32],
    points: &mut [i32],
    checkpoints: &mut [u32],
    stops: &mut [u32],
    exits: &mut [u32],
) -> RndfReply
    ensures { Unpacks bytes.now (lent segments.old lanes.old zones.old spots.old points.old checkpoints.old stops.old exits.old) result (lent segments.new lanes.new zones.new spots.new points.new checkpoints.new stops.new exits.new) }
{
    let told = roomed(
        look(bytes),
        segments.len(),
        lanes.len(),
        zones.len(),
        spots.len(),
        points.len(),
        checkpoints.len(),
        stops.len(),
        exits.len(),
    );
    clear_tables(
        segments,
        lanes,
        zones,
        spots,
        points,
        checkpoints,
        stops,
        exits,
    );
    let (c, file, places) = told?;
    store_tables(
        bytes,
        c,
        places,
        segments,
        lanes,
        zones,
        spots,
        points,
        checkpoints,
        stops,
        exits,
    );
    Ok((c, file))
}
