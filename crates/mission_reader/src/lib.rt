// The reader of an MDF, given the RNDF that was accepted before it: an MDF read into lent goals and limits.
//
// The tables are cleared; the MDF is walked once, line by line, each row stored where there is room (`mission`); then it is seen whether there was room for all (11), the RNDF's name is compared (14),
// goals and limits are looked up (`marks`; 15 to 17) and the limits counted (18). The line of a fault is found again by `find_line`.
// A refusal leaves the tables as they are then: the caller clears them.
//
// specs/MissionReplies: what an MDF gets, over statements (replies/specs/Replies says it over lines). specs/MissionReading: the same, executable; the contracts cite it. proofs/Theorems: the one is the other.
// proofs/Found: what the walk found. proofs/References: 14 to 18 over filled tables are the first line at fault. proofs/Standing: a name stands in its text where it says.
// proofs/OneReply: no text gets two answers. proofs/Steps: the parts of `read_mission` together.
//
// Rests on `counts`, `refusal`, `room`, `mission`, `marks`, `mission_references`, `find_line`, `rows` and `scan`, for its theorem on `fault_lines`, `form_faults` and `table_words`, and on what they rest on.
//
// Settled: the contract of `read_mission` gives its reply, and where it accepts both tables, by a function of what is lent.
#![tactic(auto)]

ghost use Rattle.std.specs.Prelude.{◌≡◌};
ghost use Rattle.mission.specs.Storing.{memory};
ghost use Rattle.mission_reader.specs.MissionReading.{rndf_of, room, same_name, limits_fault_of, refer_of, answered_of, judged_of, outcome, mission_of};

use counts::MissionCounts;
use find_line::mdf_line;
use marks::{BadLimit, first_bad_limit, first_foreign_goal};
use mission::fill_orders;
use mission_progress::MissionProgress;
use refusal::Fault;
use room::fits;
use rows::{GOAL_STRIDE, LIMIT_STRIDE, MissionFileRow, Stretch, clear, name_of};
use scan::same;
use statement::orders;

// The rows used and the file's own row; or what is at fault.
pub type MissionReply = Result<(MissionCounts, MissionFileRow), Fault>;

// 14: is the name that the MDF gives the RNDF's, byte for byte?
fn same_name(rndf: &[u8], name: Stretch, mdf: &[u8], given: Stretch) -> bool
    ensures { result ≡ same_name rndf.now name mdf.now given }
{
    same(name_of(mdf, given), name_of(rndf, name))
}

// 16 or 17 at the first limit at fault; else 18 where there are not as many limits as segments and zones.
fn limits_fault(mdf: &[u8], limits: &[u32], limit_count: u32, parts: u32) -> Result<(), Fault>
    ensures { result ≡ limits_fault_of mdf.now limits.now limit_count parts }
{
    let bad = first_bad_limit(limits, limit_count, parts);
    match bad {
        BadLimit::NotThere(row) => Err(Fault {
            line: mdf_line(mdf, orders::LIMIT, row),
            number: 16,
        }),
        BadLimit::Again(row) => Err(Fault {
            line: mdf_line(mdf, orders::LIMIT, row),
            number: 17,
        }),
        BadLimit::Nothing => {
            if limit_count == parts {
                Ok(())
            } else {
                Err(Fault {
                    line: mdf_line(mdf, orders::END_SPEED_LIMITS, 0),
                    number: 18,
                })
            }
        }
    }
}

// 14, then 15, then 16 to 18: that is their order in an MDF too, so the first found is on the first line at fault.
fn refer(
    rndf: &[u8],
    name: Stretch,
    checkpoints: &[u32],
    checkpoint_count: u32,
    parts: u32,
    mdf: &[u8],
    goals: &[u32],
    limits: &[u32],
    gained: MissionProgress,
) -> Result<(), Fault>
    ensures { result ≡ refer_of (rndf_of rndf.now name checkpoints.now checkpoint_count parts) mdf.now (memory gained goals.now limits.now) }
{
    if same_name(rndf, name, mdf, gained.file.rndf) {
        let foreign = first_foreign_goal(checkpoints, checkpoint_count, goals, gained.goals);
        match foreign {
            Some(row) => Err(Fault {
                line: mdf_line(mdf, orders::GOAL, row),
                number: 15,
            }),
            None => limits_fault(mdf, limits, gained.limits, parts),
        }
    } else {
        Err(Fault {
            line: mdf_line(mdf, orders::RNDF, 0),
            number: 14,
        })
    }
}

// 11 is not due: both tables have the rows that are needed.
fn both_fit(gained: MissionProgress, goals: usize, limits: usize) -> bool
    ensures { result ≡ room gained goals limits }
{
    if fits(gained.goals, goals, GOAL_STRIDE) {
        fits(gained.limits, limits, LIMIT_STRIDE)
    } else {
        false
    }
}

fn answered(found: Result<(), Fault>, gained: MissionProgress) -> MissionReply
    ensures { result ≡ answered_of found gained }
{
    match found {
        Ok(()) => {
            let file = gained.file;
            Ok((
                MissionCounts {
                    goals: gained.goals,
                    limits: gained.limits,
                },
                file,
            ))
        }
        Err(fault) => Err(fault),
    }
}

// Filled tables: is there room for all rows, and are the references right?
fn judge_rows(
    rndf: &[u8],
    name: Stretch,
    checkpoints: &[u32],
    checkpoint_count: u32,
    parts: u32,
    mdf: &[u8],
    goals: &[u32],
    limits: &[u32],
    gained: MissionProgress,
) -> MissionReply
    ensures { result ≡ judged_of (rndf_of rndf.now name checkpoints.now checkpoint_count parts) mdf.now (memory gained goals.now limits.now) }
{
    if both_fit(gained, goals.len(), limits.len()) {
        let found = refer(
            rndf,
            name,
            checkpoints,
            checkpoint_count,
            parts,
            mdf,
            goals,
            limits,
            gained,
        );
        answered(found, gained)
    } else {
        Err(Fault {
            line: 0,
            number: 11,
        })
    }
}

// `rndf`: the text of an accepted RNDF, `name`: where its name stands in it, `checkpoints`: its filled table of so many rows, `parts`: how many segments and zones it has.
pub fn read_mission(
    rndf: &[u8],
    name: Stretch,
    checkpoints: &[u32],
    checkpoint_count: u32,
    parts: u32,
    mdf: &[u8],
    goals: &mut [u32],
    limits: &mut [u32],
) -> MissionReply
    ensures { outcome result goals.new limits.new ≡ mission_of (rndf_of rndf.now name checkpoints.now checkpoint_count parts) mdf.now goals.old limits.old }
{
    clear(goals);
    clear(limits);
    let filled = fill_orders(mdf, goals, limits);
    match filled {
        Err(fault) => Err(fault),
        Ok(gained) => judge_rows(
            rndf,
            name,
            checkpoints,
            checkpoint_count,
            parts,
            mdf,
            goals,
            limits,
            gained,
        ),
    }
}
