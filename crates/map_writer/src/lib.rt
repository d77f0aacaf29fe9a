// The writer of a map: the GeoJSON of an RNDF's network, put into a lent output. It reads first, as `reader` does, and refuses as it does; then it may refuse with 19. What is replied,
// and what every lent table and the output then hold, is `writings`/specs/Writes, `WritesMap`: for all texts, tables and outputs. Nothing is required. A refusal leaves every lent table
// and the output zero.
//
// What is put is made from the filled tables (`features`); that it is the map of the network that the text spells is `map_tables`.
//
// specs/Answers: what is answered once the text was read, executable. proofs/Steps: what the program does, said as the contract says it. That no second reply and no second memory satisfies the contract, and one does, is proved in `writings`, without the code.
//
// Rests on `writings`, `reader`, `features`, `map_tables`, `output` and what they rest on.
#![tactic(auto)]

ghost use Rattle.std.specs.Prelude.{length};
ghost use Rattle.edition.specs.Editions.{rules_of};
ghost use Rattle.law.specs.Tables.{lent};
ghost use Rattle.output.specs.Pen.{Finishes};
ghost use Rattle.map_writer.specs.Answers.{whole, Answers};
ghost use Rattle.writings.specs.Writes.{WritesMap};

use counts::Counts;
use edition::Edition;
use features::put_map;
use output::{clear_output, finish};
use reader::read_rndf;
use refusal::Refusal;
use replies::RndfReply;
use room::clear_tables;
use writings::WriteReply;

// ## Once the text was read

// The map of what the tables hold, into the whole output.
fn put_whole(
    text: &[u8],
    segments: &[u32],
    lanes: &[u32],
    zones: &[u32],
    spots: &[u32],
    points: &[i32],
    checkpoints: &[u32],
    counts: Counts,
    out: &mut [u8],
) -> Option<usize>
    ensures { Finishes (whole text.now segments.now lanes.now zones.now spots.now points.now checkpoints.now (length out.old) counts).out (whole text.now segments.now lanes.now zones.now spots.now points.now checkpoints.now (length out.old) counts).at out.new result }
{
    clear_output(out);
    let at = put_map(
        out,
        0,
        text,
        segments,
        lanes,
        zones,
        spots,
        points,
        checkpoints,
        counts,
    );
    finish(out, at)
}

// All but the tables of a text that is refused with 19: they are left as they are then.
fn write_read(
    text: &[u8],
    segments: &[u32],
    lanes: &[u32],
    zones: &[u32],
    spots: &[u32],
    points: &[i32],
    checkpoints: &[u32],
    read: RndfReply,
    out: &mut [u8],
) -> WriteReply
    ensures { Answers read (length out.old) (whole text.now segments.now lanes.now zones.now spots.now points.now checkpoints.now (length out.old)) out.new result }
{
    match read {
        Ok((c, file)) => {
            let ended = put_whole(
                text,
                segments,
                lanes,
                zones,
                spots,
                points,
                checkpoints,
                c,
                out,
            );
            match ended {
                Some(n) => Ok((c, file, n as u32)),
                None => Err(Refusal {
                    file: 1,
                    line: 0,
                    number: 19,
                    column: 0,
                }),
            }
        }
        Err(why) => {
            clear_output(out);
            Err(why)
        }
    }
}

// ## The entry point

pub fn write_map(
    edition: Edition,
    text: &[u8],
    segments: &mut [u32],
    lanes: &mut [u32],
    zones: &mut [u32],
    spots: &mut [u32],
    points: &mut [i32],
    checkpoints: &mut [u32],
    stops: &mut [u32],
    exits: &mut [u32],
    out: &mut [u8],
) -> WriteReply
    ensures { WritesMap (rules_of edition) text.now (lent segments.old lanes.old zones.old spots.old points.old checkpoints.old stops.old exits.old) (length out.old) result (lent segments.new lanes.new zones.new spots.new points.new checkpoints.new stops.new exits.new) out.new }
{
    let read = read_rndf(
        edition,
        text,
        segments,
        lanes,
        zones,
        spots,
        points,
        checkpoints,
        stops,
        exits,
    );
    let reply = write_read(
        text,
        segments,
        lanes,
        zones,
        spots,
        points,
        checkpoints,
        read,
        out,
    );
    match reply {
        Ok((c, file, n)) => Ok((c, file, n)),
        Err(why) => {
            clear_tables(
                segments,
                lanes,
                zones,
                spots,
                points,
                checkpoints,
                stops,
                exits,
            );
            Err(why)
        }
    }
}
