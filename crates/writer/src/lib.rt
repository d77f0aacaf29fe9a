// The writers: the house writing of an RNDF, and of the MDF of a pair, put into a lent output. A writer reads first, as `reader` does, and refuses as it does; then it may refuse
// with 19. What is replied, and what every lent table and the output then hold, is `writings`/specs/Writes: for all texts, tables and outputs. Nothing is required. A refusal leaves every
// lent table and the output zero.
//
// What is put are the text's own lines in house order (`house_lines`); that they are the house writing of what the text says is `house_arranged`.
//
// specs/ByStatements: the contracts over statements, as the proofs have it; proofs/Lawful: that both say the same.
// specs/Answers: what is answered once the text was read, executable.
// proofs/Replied: what is taken from the readers' contracts, and nothing else is. proofs/Steps: what the program does, said as the contracts say it.
// That no second reply and no second memory satisfies the contracts, and one does, is proved in `writings`, without the code. The return trip, from the contracts alone, is the
// crate `return_trip`.
//
// Rests on `writings`, `reader`, `house_lines`, `house_arranged`, `house_text`, `output` and what they rest on.
#![tactic(auto)]

ghost use Rattle.std.specs.Prelude.{◌≡◌, length};
ghost use Rattle.edition.specs.Editions.{rules_of};
ghost use Rattle.law.specs.Tables.{lent, mission_lent};
ghost use Rattle.output.specs.Ended.{Output};
ghost use Rattle.house_lines.specs.Arranged.{arranged_text};
ghost use Rattle.writer.specs.Answers.{Answers, AnswersMdf};
ghost use Rattle.writings.specs.Writes.{WritesRndf, WritesMdf};

use edition::Edition;
use house_lines::put_house;
use output::{clear_output, finish};
use reader::{read_pair, read_rndf};
use refusal::Refusal;
use replies::{PairReply, RndfReply};
use room::clear_tables;
use rows::clear;
use writings::{WriteMdfReply, WriteReply};

// ## Once the text was read

// The text's own lines in house order, into the whole output.
fn put_whole(text: &[u8], out: &mut [u8]) -> Option<usize>
    ensures { Output (length out.old) (arranged_text text.now) out.new result }
{
    clear_output(out);
    let at = put_house(text, out, 0);
    finish(out, at)
}

// All but the tables of a text that is refused with 19: they are left as they are then.
fn write_read(text: &[u8], read: RndfReply, out: &mut [u8]) -> WriteReply
    ensures { Answers read (length out.old) (arranged_text text.now) out.new result }
{
    match read {
        Ok((c, file)) => {
            let ended = put_whole(text, out);
            match ended {
                Some(n) => Ok((c, file, n as u32)),
                None => Err(Refusal {
                    file: 1,
                    line: 0,
                    number: 19,
                    column: 0,
                }),
            }
        }
        Err(why) => {
            clear_output(out);
            Err(why)
        }
    }
}

fn write_mdf_read(mdf: &[u8], read: PairReply, out: &mut [u8]) -> WriteMdfReply
    ensures { AnswersMdf read (length out.old) (arranged_text mdf.now) out.new result }
{
    match read {
        Ok((c, file, m, mission_file)) => {
            let ended = put_whole(mdf, out);
            match ended {
                Some(n) => Ok((c, file, m, mission_file, n as u32)),
                None => Err(Refusal {
                    file: 2,
                    line: 0,
                    number: 19,
                    column: 0,
                }),
            }
        }
        Err(why) => {
            clear_output(out);
            Err(why)
        }
    }
}

// ## The entry points

// An RNDF.
pub fn write_rndf(
    edition: Edition,
    text: &[u8],
    segments: &mut [u32],
    lanes: &mut [u32],
    zones: &mut [u32],
    spots: &mut [u32],
    points: &mut [i32],
    checkpoints: &mut [u32],
    stops: &mut [u32],
    exits: &mut [u32],
    out: &mut [u8],
) -> WriteReply
    ensures { WritesRndf (rules_of edition) text.now (lent segments.old lanes.old zones.old spots.old points.old checkpoints.old stops.old exits.old) (length out.old) result (lent segments.new lanes.new zones.new spots.new points.new checkpoints.new stops.new exits.new) out.new }
{
    let read = read_rndf(
        edition,
        text,
        segments,
        lanes,
        zones,
        spots,
        points,
        checkpoints,
        stops,
        exits,
    );
    let reply = write_read(text, read, out);
    match reply {
        Ok((c, file, n)) => Ok((c, file, n)),
        Err(why) => {
            clear_tables(
                segments,
                lanes,
                zones,
                spots,
                points,
                checkpoints,
                stops,
                exits,
            );
            Err(why)
        }
    }
}

// The MDF of a pair.
pub fn write_mdf(
    edition: Edition,
    rndf: &[u8],
    mdf: &[u8],
    segments: &mut [u32],
    lanes: &mut [u32],
    zones: &mut [u32],
    spots: &mut [u32],
    points: &mut [i32],
    checkpoints: &mut [u32],
    stops: &mut [u32],
    exits: &mut [u32],
    goals: &mut [u32],
    limits: &mut [u32],
    out: &mut [u8],
) -> WriteMdfReply
    ensures { WritesMdf (rules_of edition) rndf.now mdf.now (lent segments.old lanes.old zones.old spots.old points.old checkpoints.old stops.old exits.old) (mission_lent goals.old limits.old) (length out.old) result (lent segments.new lanes.new zones.new spots.new points.new checkpoints.new stops.new exits.new) (mission_lent goals.new limits.new) out.new }
{
    let read = read_pair(
        edition,
        rndf,
        mdf,
        segments,
        lanes,
        zones,
        spots,
        points,
        checkpoints,
        stops,
        exits,
        goals,
        limits,
    );
    let reply = write_mdf_read(mdf, read, out);
    match reply {
        Ok((c, file, m, mission_file, n)) => Ok((c, file, m, mission_file, n)),
        Err(why) => {
            clear_tables(
                segments,
                lanes,
                zones,
                spots,
                points,
                checkpoints,
                stops,
                exits,
            );
            clear(goals);
            clear(limits);
            Err(why)
        }
    }
}
