// Was this number there already? The tests over filled tables that ask it: the first checkpoint number that stood before (13), the first goal that is no
// checkpoint's number (15), the first limit whose id the RNDF has not (16) or that was given before (17). Answers are rows.
// Each test goes once over each table. It keeps a mark for each number from 1 to 32,768, eight to a byte; the marks are its own, cleared before it begins.
//
// specs/Rows and specs/Tests are what others cite: what rows say, and each test over the numbers that were there; neither knows of marks. specs/Marks: the marks, which
// only contracts of `is_marked`, `mark` and private functions here cite (`packed_parts` marks the numbers of packed checkpoints). Only that file, proofs/Marks, `mark` and `is_marked` with their proofs, and the marks' type below know how marks are kept.
// proofs/Seen: the marks say what is among the numbers before. proofs/Walked: the loops' laws. proofs/Rows: what rows say over tables of given rows, for the crates above.
//
// Rests on `fill` (the first fault of a list), `read_rows`, `rows`, `units` and `terms`, and on what `fill` rests on.
//
// Settled: every contract of a public function here reads `r ≡ f ..`, so no second answer satisfies it. None of them has a `requires`.
#![tactic(auto)]

ghost use Rattle.std.specs.Prelude.{◌≡◌};
ghost use Rattle.fill.specs.FirstFaults.{in_parts};
ghost use Rattle.marks.specs.Rows.{checkpoint_says, goal_says, said};
ghost use Rattle.marks.specs.Tests.{ids_to, first_repeat_of, first_foreign_goal_of, first_bad_limit_of};
ghost use Rattle.marks.specs.Marks.{is_marked_of, with_mark, mark_all, first_unmarked_of};

use read_rows::{checkpoint_at, goal_at, limit_at};
use units::{CheckpointNumber, SegmentId};

// The first limit at fault: 16 or 17, at this row.
#[derive(Clone, Copy)]
pub enum BadLimit {
    NotThere(u32),
    Again(u32),
    Nothing,
}

// ## Marks
// 01: "32,768 marks, one for each checkpoint number"; identifiers of segments and zones go no farther. Other numbers have none. That of a number is bit (number - 1) % 8, the lowest bit first, of byte (number - 1) / 8.
pub fn is_marked(marks: &[u8; 4096], number: u16) -> bool
    ensures { result ≡ is_marked_of marks.now number }
{
    if 1 <= number && number <= CheckpointNumber::LARGEST {
        let at = (number - 1) as usize;
        let eight = marks[at / 8];
        return (eight >> (at % 8)) % 2 == 1;
    }
    false
}

pub fn mark(marks: &mut [u8; 4096], number: u16)
    ensures { marks.new ≡ with_mark marks.old number }
{
    if 1 <= number && number <= CheckpointNumber::LARGEST {
        let at = (number - 1) as usize;
        let byte = at / 8;
        let eight = marks[byte];
        let bit: u8 = 1 << (at % 8);
        marks[byte] = eight | bit;
    }
}

// ## Checkpoint numbers
// 13: the first row whose checkpoint number stood before it.
pub fn first_repeat(checkpoints: &[u32], count: u32) -> Option<u32>
    ensures { result ≡ first_repeat_of checkpoints.now count }
{
    let mut marks = [0; 4096];
    for row in 0..count {
        let checkpoint = checkpoint_at(checkpoints, row as usize);
        if is_marked(&marks, checkpoint.number.0) {
            return Some(row);
        }
        mark(&mut marks, checkpoint.number.0);
    }
    None
}

// ## Goals
// The numbers that the checkpoints declare.
fn mark_checkpoints(marks: &mut [u8; 4096], checkpoints: &[u32], count: u32)
    ensures { marks.new ≡ mark_all marks.old (said (checkpoint_says checkpoints.now) count) }
{
    for row in 0..count {
        let checkpoint = checkpoint_at(checkpoints, row as usize);
        mark(marks, checkpoint.number.0);
    }
}

// The first goal whose number has no mark.
fn first_unmarked_goal(marks: &[u8; 4096], goals: &[u32], count: u32) -> Option<u32>
    ensures { result ≡ first_unmarked_of marks.now (goal_says goals.now) count }
{
    for row in 0..count {
        let goal = goal_at(goals, row as usize);
        if !is_marked(marks, goal.number.0) {
            return Some(row);
        }
    }
    None
}

// 15: the first goal that is no checkpoint of the RNDF. Of each table the first rows count, as many as it is said to have.
pub fn first_foreign_goal(
    checkpoints: &[u32],
    checkpoint_count: u32,
    goals: &[u32],
    goal_count: u32,
) -> Option<u32>
    ensures { result ≡ first_foreign_goal_of checkpoints.now checkpoint_count goals.now goal_count }
{
    let mut marks = [0; 4096];
    mark_checkpoints(&mut marks, checkpoints, checkpoint_count);
    first_unmarked_goal(&marks, goals, goal_count)
}

// ## Limits
// The RNDF has the ids 1 to `parts`; no number above the largest id is one.
fn is_there(id: SegmentId, parts: u32) -> bool
    ensures { result ≡ in_parts (ids_to parts) id.0 }
{
    if id.0 < 1 {
        return false;
    }
    if id.0 as u32 <= parts {
        id.0 <= SegmentId::LARGEST
    } else {
        false
    }
}

// 16 or 17: the first limit whose id is not there, or was given before.
pub fn first_bad_limit(limits: &[u32], limit_count: u32, parts: u32) -> BadLimit
    ensures { result ≡ first_bad_limit_of limits.now limit_count parts }
{
    let mut marks = [0; 4096];
    for row in 0..limit_count {
        let limit = limit_at(limits, row as usize);
        if is_there(limit.id, parts) {
            if is_marked(&marks, limit.id.0) {
                return BadLimit::Again(row);
            }
            mark(&mut marks, limit.id.0);
        } else {
            return BadLimit::NotThere(row);
        }
    }
    BadLimit::Nothing
}
