// The look-up of a checkpoint number's point, and of a whole list of numbers (L4), in any checkpoint table, whoever filled it: it asks for nothing.
//
// specs/LookUp, specs/Listed: which answers are right, in the words of document 01 and of request L4. proofs/Answers, proofs/ListSettled: no second answer is, and one there is.
// specs/Others: what is asked of several rows at once, executable; proofs/Others: its laws.
//
// Rests on `refusal`, `rows` (how rows lie in a lent slice), `units` (checkpoint numbers) and `terms`.
#![tactic(auto)]

ghost use Rattle.std.specs.Prelude.{◌≡◌, ◌+◌, ◌≤◌, length};
ghost use Rattle.rows.specs.Lay.{rows_of};
ghost use Rattle.rows.specs.Strides.{checkpoint_stride};
ghost use Rattle.look_up.specs.LookUp.{NoneBefore, PointOf};
ghost use Rattle.look_up.specs.Listed.{PointsOf};
ghost use Rattle.look_up.specs.Others.{others};

use refusal::Refusal;
use rows::{CHECKPOINT_STRIDE, clear, rows_of};
use units::CheckpointNumber;

// The answer where no row has the number: no row of a point table.
pub const NO_POINT: u32 = 4294967295;

// ## Rows of other numbers, eight at a time
// Most rows are not the one that is looked for. What is asked of eight rows at once, with `&` and no branch for each, takes the machine less time.

// The two rows from `row` on have other numbers.
fn two_others(checkpoints: &[u32], row: usize, wanted: u32) -> bool
    requires { row + 2 ≤ rows_of (length checkpoints.now) checkpoint_stride }
    ensures { result ≡ others checkpoints.now wanted row 2 }
{
    let at = row * CHECKPOINT_STRIDE;
    (checkpoints[at] != wanted) & (checkpoints[at + CHECKPOINT_STRIDE] != wanted)
}

// The four.
fn four_others(checkpoints: &[u32], row: usize, wanted: u32) -> bool
    requires { row + 4 ≤ rows_of (length checkpoints.now) checkpoint_stride }
    ensures { result ≡ others checkpoints.now wanted row 4 }
{
    two_others(checkpoints, row, wanted) & two_others(checkpoints, row + 2, wanted)
}

// The eight.
fn eight_others(checkpoints: &[u32], row: usize, wanted: u32) -> bool
    requires { row + 8 ≤ rows_of (length checkpoints.now) checkpoint_stride }
    ensures { result ≡ others checkpoints.now wanted row 8 }
{
    four_others(checkpoints, row, wanted) & four_others(checkpoints, row + 4, wanted)
}

// A row before which no row has the number.
fn passed(checkpoints: &[u32], wanted: u32) -> usize
    ensures { (result ≤ rows_of (length checkpoints.now) checkpoint_stride) × NoneBefore checkpoints.now result wanted }
{
    let eights = rows_of(checkpoints.len(), CHECKPOINT_STRIDE) / 8;
    for eight in 0..eights {
        if !eight_others(checkpoints, 8 * eight, wanted) {
            return 8 * eight;
        }
    }
    8 * eights
}

// The number as a plain word, as it stands in a table: also one that is too large for a checkpoint number.
pub fn point_of_word(checkpoints: &[u32], wanted: u32) -> u32
    ensures { PointOf checkpoints.now wanted result }
{
    if wanted == 0 {
        return NO_POINT;
    }
    for row in passed(checkpoints, wanted)..rows_of(checkpoints.len(), CHECKPOINT_STRIDE) {
        let at = row * CHECKPOINT_STRIDE;
        // whole words are compared
        if checkpoints[at] == wanted {
            return checkpoints[at + 1];
        }
    }
    NO_POINT
}

// For callers in Rattle, who have the number as its own kind.
pub fn point_of(checkpoints: &[u32], number: CheckpointNumber) -> u32
    ensures { PointOf checkpoints.now number.0 result }
{
    point_of_word(checkpoints, number.0 as u32)
}

// ## A list of numbers
// Every number has its answer; or the two lists differ in length.
pub type ListReply = Result<(), Refusal>;

// The points of a list of numbers, as plain words, over any checkpoint table.
pub fn points_of(checkpoints: &[u32], numbers: &[u32], points: &mut [u32]) -> ListReply
    ensures { PointsOf checkpoints.now numbers.now (length points.old) result points.new }
{
    if numbers.len() != points.len() {
        clear(points);
        return Err(Refusal {
            file: 0,
            line: 0,
            number: 20,
            column: 0,
        });
    }
    for i in 0..numbers.len() {
        points[i] = point_of_word(checkpoints, numbers[i]);
    }
    Ok(())
}
