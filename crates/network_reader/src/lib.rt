// An RNDF read by an edition into lent tables. They are cleared; it is walked once, line by line, each row stored where there is room (`network`); then it is seen whether there was room for all (11),
// the entries of exits are looked up and repeats sought (`references`, `marks`; 12 and 13, whose line is found again by `find_line`).
// What a refusal leaves in the tables is cleared by the entry points (the crate `reader`).
//
// specs/Replies: what a text gets, over statements (replies/specs/Replies says it over lines). specs/Reading: the same, executable. proofs/Theorems: what is answered is so.
//
// Rests on `edition`, `counts`, `refusal`, `room`, `network`, `references`, `marks`, `find_line`, `table_words`, `form_faults`, `fault_lines` and what they rest on.
#![tactic(auto)]

ghost use Rattle.std.specs.Prelude.{◌≡◌};
ghost use Rattle.edition.specs.Editions.{inner};
ghost use Rattle.network.specs.Storing.{memory};
ghost use Rattle.law.specs.Tables.{lent};
ghost use Rattle.network_reader.specs.Reading.{the_counts_of, fault_line_of, referred, refer_of, answered_of, outcome, judged_of, read_of};

use counts::Counts;
use edition::Edition;
use find_line::rndf_line;
use marks::first_repeat;
use network::fill_lines;
use progress::Progress;
use references::resolve_exits;
use refusal::Fault;
use room::{clear_tables, in_word, marks_fit, parts_fit};
use rows::FileRow;
use statement::kinds;

// The rows used and the file's own row; or what is at fault.
pub type NetworkReply = Result<(Counts, FileRow), Fault>;

// 12 or 13, whichever stands on the earlier line.
fn fault_line(text: &[u8], undeclared: Option<u32>, repeated: Option<u32>) -> Result<(), Fault>
    ensures { result ≡ fault_line_of text.now undeclared repeated }
{
    match undeclared {
        Some(e) => {
            let exit_line = rndf_line(text, kinds::EXIT, e);
            match repeated {
                Some(k) => {
                    let checkpoint_line = rndf_line(text, kinds::CHECKPOINT, k);
                    if exit_line < checkpoint_line {
                        Err(Fault {
                            line: exit_line,
                            number: 12,
                        })
                    } else {
                        Err(Fault {
                            line: checkpoint_line,
                            number: 13,
                        })
                    }
                }
                None => Err(Fault {
                    line: exit_line,
                    number: 12,
                }),
            }
        }
        None => match repeated {
            Some(k) => Err(Fault {
                line: rndf_line(text, kinds::CHECKPOINT, k),
                number: 13,
            }),
            None => Ok(()),
        },
    }
}

// The entries of exits are looked up, and repeated checkpoint numbers sought.
fn refer(
    text: &[u8],
    segments: &[u32],
    lanes: &[u32],
    zones: &[u32],
    checkpoints: &[u32],
    exits: &mut [u32],
    gained: Progress,
) -> Result<(), Fault>
    ensures { referred result exits.new ≡ refer_of text.now segments.now lanes.now zones.now checkpoints.now exits.old gained }
{
    let undeclared = resolve_exits(
        text,
        segments,
        lanes,
        zones,
        exits,
        gained.segments,
        gained.exits,
    );
    let repeated = first_repeat(checkpoints, gained.checkpoints);
    fault_line(text, undeclared, repeated)
}

// A number that does not fit into 32 bits is the largest that does. No text that is taken has so many points.
fn rows_used(gained: Progress) -> Counts
    ensures { result ≡ the_counts_of gained }
{
    let points = gained.first as usize + gained.within as usize;
    Counts {
        segments: gained.segments,
        lanes: gained.lanes,
        zones: gained.zones,
        spots: gained.spots,
        points: in_word(points),
        checkpoints: gained.checkpoints,
        stops: gained.stops,
        exits: gained.exits,
    }
}

fn answered(a: Result<(), Fault>, c: Counts, file: FileRow) -> NetworkReply
    ensures { result ≡ answered_of a c file }
{
    match a {
        Ok(()) => Ok((c, file)),
        Err(fault) => Err(fault),
    }
}

// Filled tables: is there room for all rows, and are the references right?
fn judge_rows(
    text: &[u8],
    segments: &[u32],
    lanes: &[u32],
    zones: &[u32],
    spots: &[u32],
    points: &[i32],
    checkpoints: &[u32],
    stops: &[u32],
    exits: &mut [u32],
    gained: Progress,
) -> NetworkReply
    ensures { outcome result (lent segments.now lanes.now zones.now spots.now points.now checkpoints.now stops.now exits.new) ≡ judged_of text.now (memory gained segments.now lanes.now zones.now spots.now points.now checkpoints.now stops.now exits.old) }
{
    let c = rows_used(gained);
    if parts_fit(c, segments.len(), lanes.len(), zones.len(), spots.len()) {
        if marks_fit(c, points.len(), checkpoints.len(), stops.len(), exits.len()) {
            let a = refer(text, segments, lanes, zones, checkpoints, exits, gained);
            answered(a, c, gained.file)
        } else {
            Err(Fault {
                line: 0,
                number: 11,
            })
        }
    } else {
        Err(Fault {
            line: 0,
            number: 11,
        })
    }
}

// The whole reader of an RNDF, but for the tables of a text that is refused: they are left as they are then.
pub fn read_network(
    edition: Edition,
    text: &[u8],
    segments: &mut [u32],
    lanes: &mut [u32],
    zones: &mut [u32],
    spots: &mut [u32],
    points: &mut [i32],
    checkpoints: &mut [u32],
    stops: &mut [u32],
    exits: &mut [u32],
) -> NetworkReply
    ensures { outcome result (lent segments.new lanes.new zones.new spots.new points.new checkpoints.new stops.new exits.new) ≡ read_of (inner edition) text.now (lent segments.old lanes.old zones.old spots.old points.old checkpoints.old stops.old exits.old) }
{
    clear_tables(
        segments,
        lanes,
        zones,
        spots,
        points,
        checkpoints,
        stops,
        exits,
    );
    let filled = fill_lines(
        edition,
        text,
        segments,
        lanes,
        zones,
        spots,
        points,
        checkpoints,
        stops,
        exits,
    );
    match filled {
        Err(fault) => Err(fault),
        Ok(gained) => judge_rows(
            text,
            segments,
            lanes,
            zones,
            spots,
            points,
            checkpoints,
            stops,
            exits,
            gained,
        ),
    }
}
