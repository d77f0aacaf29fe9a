// What a mission gets (request L13), over any tables, whatever they hold: 11 where the work space has fewer rows than there are points, 30, 31, or nothing wrong. The work space is 0 afterwards.
//
// specs/Verdict: the same, executable. proofs/Parts: test by test. proofs/Found: where the tables tell of moves and goals what the law says, the verdict is the law's.
//
// Apart from `reach`, which reads the texts first: this is checked in seconds. Rests on `legs`, `room` and what they rest on.
#![tactic(auto)]

ghost use Rattle.std.specs.Prelude.{◌≡◌, length, replicate};
ghost use Rattle.goal_points.specs.Goals.{goal_point_of};
ghost use Rattle.search.specs.Search.{leads_to_of};
ghost use Rattle.drive.specs.Verdict.{verdict};

use counts::{Counts, MissionCounts};
use legs::first_stuck;
use room::in_word;
use rows::clear;

// Whether it can be driven from `start`, a point's row, in the tables of a pair with these counts.
pub fn judged(
    lanes: &[u32],
    zones: &[u32],
    checkpoints: &[u32],
    exits: &[u32],
    goals: &[u32],
    c: Counts,
    m: MissionCounts,
    start: u32,
    work: &mut [u32],
) -> Result<(), (u32, u8)>
    ensures value { result ≡ verdict (leads_to_of lanes.now zones.now exits.now c c.points) (goal_point_of checkpoints.now goals.now) c.points (length work.old) m.goals start }
    ensures work_after { work.new ≡ replicate (length work.old) 0 }
{
    clear(work);
    let points = c.points as usize;
    if work.len() < points {
        return Err((0, 11));
    }
    if start < c.points {
        let stuck = first_stuck(
            lanes,
            zones,
            exits,
            checkpoints,
            goals,
            c,
            m.goals,
            start,
            &mut work[..points],
        );
        if stuck < m.goals as usize {
            return Err((in_word(stuck), 31));
        }
        Ok(())
    } else {
        Err((0, 30))
    }
}
