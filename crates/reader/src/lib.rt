// The entry points: an RNDF alone, and an RNDF with its MDF, read into lent tables. What they reply, and what every lent table then holds, is `replies`/specs/Replies: for all texts,
// and all tables, by the edition that the caller says (L10). Nothing is required. A refusal leaves every lent table zero.
//
// specs/ByStatements: the contracts over statements and typed rows, as the proofs have it; proofs/Lawful: that both say the same. specs/Pairs: what a pair gets, executable.
// specs/Columns: the refusal that is replied: its column is found once the text is refused (`column`), so that a good text pays nothing; proofs/Columns: that it is the law's.
// That no second reply and no second memory satisfies the contracts is proved in `replies`, without the code. What follows from the contracts alone is the crate `promises`.
//
// Rests on `replies`, `network_reader`, `mission_reader`, `column`, `edition`, `room` and what they rest on. Beside it: `look_up` (a checkpoint number's point), `rows` (names, and how rows lie in a table).
#![tactic(auto)]

ghost use Rattle.std.specs.Prelude.{◌≡◌, ◌+◌};
ghost use Rattle.room.specs.Room.{fitted};
ghost use Rattle.edition.specs.Editions.{inner, rules_of};
ghost use Rattle.law.specs.Tables.{lent, mission_lent};
ghost use Rattle.replies.specs.Replies.{ReadsRndf, ReadsPair};
ghost use Rattle.reader.specs.Columns.{rndf_told_of, mdf_told_of, rndf_refusal, mdf_refusal};
ghost use Rattle.reader.specs.Pairs.{joined_of, outcome, the_pair_of};

use column::rndf_column;
use counts::{Counts, MissionCounts};
use edition::Edition;
use mission_column::mdf_column;
use mission_reader::{MissionReply, read_mission};
use network_reader::{NetworkReply, read_network};
use refusal::{Fault, Refusal};
use replies::{PairReply, RndfReply};
use room::{clear_tables, in_word};
use rows::{FileRow, clear};

// The column of a refused RNDF: 0 without a line, and for 10.
fn rndf_told(text: &[u8], fault: Fault) -> u32
    ensures { result ≡ rndf_told_of text.now fault.line fault.number }
{
    if fault.number == 10 {
        return 0;
    }
    if fault.line == 0 {
        return 0;
    }
    rndf_column(text, fault.line, fault.number)
}

fn mdf_told(text: &[u8], fault: Fault) -> u32
    ensures { result ≡ mdf_told_of text.now fault.line fault.number }
{
    if fault.number == 10 {
        return 0;
    }
    if fault.line == 0 {
        return 0;
    }
    mdf_column(text, fault.line, fault.number)
}

fn rndf_refused(text: &[u8], fault: Fault) -> Refusal
    ensures { result ≡ rndf_refusal text.now fault.line fault.number }
{
    let column = rndf_told(text, fault);
    Refusal {
        file: 1,
        line: fault.line,
        number: fault.number,
        column,
    }
}

fn mdf_refused(text: &[u8], fault: Fault) -> Refusal
    ensures { result ≡ mdf_refusal text.now fault.line fault.number }
{
    let column = mdf_told(text, fault);
    Refusal {
        file: 2,
        line: fault.line,
        number: fault.number,
        column,
    }
}

// An RNDF alone, by the edition that the caller says.
pub fn read_rndf(
    edition: Edition,
    text: &[u8],
    segments: &mut [u32],
    lanes: &mut [u32],
    zones: &mut [u32],
    spots: &mut [u32],
    points: &mut [i32],
    checkpoints: &mut [u32],
    stops: &mut [u32],
    exits: &mut [u32],
) -> RndfReply
    ensures { ReadsRndf (rules_of edition) text.now (lent segments.old lanes.old zones.old spots.old points.old checkpoints.old stops.old exits.old) result (lent segments.new lanes.new zones.new spots.new points.new checkpoints.new stops.new exits.new) }
{
    let reply = read_network(
        edition,
        text,
        segments,
        lanes,
        zones,
        spots,
        points,
        checkpoints,
        stops,
        exits,
    );
    match reply {
        Ok((c, file)) => Ok((c, file)),
        Err(fault) => {
            clear_tables(
                segments,
                lanes,
                zones,
                spots,
                points,
                checkpoints,
                stops,
                exits,
            );
            Err(rndf_refused(text, fault))
        }
    }
}

// How many segments and zones there are. A number that does not fit into 32 bits is the largest that does; no RNDF that is taken has so many.
fn parts(c: Counts) -> u32
    ensures { result ≡ fitted (c.segments + c.zones) }
{
    in_word(c.segments as usize + c.zones as usize)
}

// What the reader of the MDF answers, with what the RNDF gave.
fn joined(mdf: &[u8], c: Counts, file: FileRow, mission: MissionReply) -> PairReply
    ensures { result ≡ joined_of mdf.now c file mission }
{
    match mission {
        Ok((m, mission_file)) => Ok((c, file, m, mission_file)),
        Err(fault) => Err(mdf_refused(mdf, fault)),
    }
}

// Both files, but for the tables of a pair that is refused: they are left as they are then.
fn read_both(
    edition: Edition,
    rndf: &[u8],
    mdf: &[u8],
    segments: &mut [u32],
    lanes: &mut [u32],
    zones: &mut [u32],
    spots: &mut [u32],
    points: &mut [i32],
    checkpoints: &mut [u32],
    stops: &mut [u32],
    exits: &mut [u32],
    goals: &mut [u32],
    limits: &mut [u32],
) -> PairReply
    ensures { outcome result (lent segments.new lanes.new zones.new spots.new points.new checkpoints.new stops.new exits.new) (mission_lent goals.new limits.new) ≡ the_pair_of (inner edition) rndf.now mdf.now (lent segments.old lanes.old zones.old spots.old points.old checkpoints.old stops.old exits.old) (mission_lent goals.old limits.old) }
{
    let network = read_network(
        edition,
        rndf,
        segments,
        lanes,
        zones,
        spots,
        points,
        checkpoints,
        stops,
        exits,
    );
    match network {
        Ok((c, file)) => {
            let mission = read_mission(
                rndf,
                file.name,
                checkpoints,
                c.checkpoints,
                parts(c),
                mdf,
                goals,
                limits,
            );
            joined(mdf, c, file, mission)
        }
        Err(fault) => Err(rndf_refused(rndf, fault)),
    }
}

// An RNDF with its MDF, by the edition that the caller says. An MDF is the same in each.
pub fn read_pair(
    edition: Edition,
    rndf: &[u8],
    mdf: &[u8],
    segments: &mut [u32],
    lanes: &mut [u32],
    zones: &mut [u32],
    spots: &mut [u32],
    points: &mut [i32],
    checkpoints: &mut [u32],
    stops: &mut [u32],
    exits: &mut [u32],
    goals: &mut [u32],
    limits: &mut [u32],
) -> PairReply
    ensures { ReadsPair (rules_of edition) rndf.now mdf.now (lent segments.old lanes.old zones.old spots.old points.old checkpoints.old stops.old exits.old) (mission_lent goals.old limits.old) result (lent segments.new lanes.new zones.new spots.new points.new checkpoints.new stops.new exits.new) (mission_lent goals.new limits.new) }
{
    let reply = read_both(
        edition,
        rndf,
        mdf,
        segments,
        lanes,
        zones,
        spots,
        points,
        checkpoints,
        stops,
        exits,
        goals,
        limits,
    );
    match reply {
        Ok((c, file, m, mission_file)) => Ok((c, file, m, mission_file)),
        Err(why) => {
            clear_tables(
                segments,
                lanes,
                zones,
                spots,
                points,
                checkpoints,
                stops,
                exits,
            );
            clear(goals);
            clear(limits);
            Err(why)
        }
    }
}
