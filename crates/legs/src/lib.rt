// The first goal of a mission that has no chain of moves (request L13), by what a search from a point marks: the points to which one move or more lead.
//
// A search is made once for each number that is started from: after it all legs from that number are looked at, and a later leg from the same number needs none. So two checkpoints in turn,
// however often, are two searches. What the legs cost beside: for each row a scan of the numbers before it, for each search a scan of those behind, and for each leg one look-up of its goal.
//
// specs/Legs: the same, executable. proofs/Steps: that the legs by numbers are the legs one after the other. proofs/Told: that it is the law's first goal without chain, or that all have theirs.
//
// Rests on `search`, `reach_law`, `goal_points` and what they rest on.
#![tactic(auto)]

ghost use Rattle.std.specs.Prelude.{◌≡◌, ◌-◌, ◌<◌, length, replicate};
ghost use Rattle.search.specs.Search.{found_from, leads_to_of};
ghost use Rattle.goal_points.specs.Goals.{goal_point_of};
ghost use Rattle.legs.specs.Legs.{later_stuck_of, first_stuck_of, stood, unmarked, first-of, stuck_from_of};

use counts::Counts;
use goal_points::goal_point;
use rows::clear;
use search::{leads_to, search_from, word};

// Whether a number is that of one of so many goals from the first on. From the last of them back: numbers that come in turn are found at once.
fn stood(goals: &[u32], number: u32, many: usize) -> bool
    ensures { result ≡ stood goals.now number many }
{
    for row in (0..many).rev() {
        if word(goals, row) == number {
            return true;
        }
    }
    false
}

// Whether a leg starts at this number and its goal is not marked. The goal's point, which costs the table of checkpoints, is looked up only for a leg that starts there.
fn unmarked(checkpoints: &[u32], goals: &[u32], work: &[u32], number: u32, leg: usize) -> bool
    requires { 0 < leg }
    ensures { result ≡ unmarked goals.now (goal_point_of checkpoints.now goals.now) work.now number leg }
{
    if word(goals, leg - 1) != number {
        return false;
    }
    let point = goal_point(checkpoints, goals, leg);
    word(work, point as usize) == 0
}

// Of the legs from this row on and before `bad` the first that starts at this number and whose goal is not marked; the one behind them if there is none.
fn first_unmarked(
    checkpoints: &[u32],
    goals: &[u32],
    work: &[u32],
    number: u32,
    row: usize,
    bad: usize,
) -> usize
    requires { 0 < row }
    ensures { result ≡ first-of (unmarked goals.now (goal_point_of checkpoints.now goals.now) work.now number) row (bad - row) }
{
    for leg in row..bad {
        if unmarked(checkpoints, goals, work, number, leg) {
            return leg;
        }
    }
    row.max(bad)
}

// A search from the goal before this row, where its number did not stand before: of the legs from that number the first without chain, where it is before `bad`, else `bad`.
fn stuck_from(
    lanes: &[u32],
    zones: &[u32],
    exits: &[u32],
    checkpoints: &[u32],
    goals: &[u32],
    c: Counts,
    row: usize,
    bad: usize,
    work: &mut [u32],
) -> usize
    requires { 0 < row }
    ensures { result ≡ stuck_from_of goals.now (goal_point_of checkpoints.now goals.now) (found_from lanes.now zones.now exits.now c (length work.old)) row bad }
{
    let before = row - 1;
    let number = word(goals, before);
    if stood(goals, number, before) {
        return bad;
    }
    let from = goal_point(checkpoints, goals, before);
    search_from(lanes, zones, exits, c, work, from);
    first_unmarked(checkpoints, goals, work, number, row, bad)
}

// Behind the first goal the first to which nothing leads from the one before. `bad` is a leg that has no chain, or the one behind all; the legs before it that start at a number of the rows passed have theirs.
// So where the rows have come to `bad`, it is the first without.
fn later_stuck(
    lanes: &[u32],
    zones: &[u32],
    exits: &[u32],
    checkpoints: &[u32],
    goals: &[u32],
    c: Counts,
    count: u32,
    work: &mut [u32],
) -> usize
    requires { 0 < count }
    ensures value { result ≡ later_stuck_of (leads_to_of lanes.now zones.now exits.now c (length work.old)) (goal_point_of checkpoints.now goals.now) (goal_point_of checkpoints.now goals.now 0) 1 (count - 1) }
    ensures work_after { work.new ≡ replicate (length work.old) 0 }
{
    let mut bad = count as usize;
    let mut row: usize = 1;
    // Kept as it is: the new form is no plainer: the loop ends at `bad`, which falls while it runs, so that a `for` up to `count` would need a second test and a `break`.
    while row < bad {
        bad = stuck_from(lanes, zones, exits, checkpoints, goals, c, row, bad, work);
        row += 1;
    }
    clear(work);
    bad
}

// The row of the first goal that has no chain: from the start by no move or more, then from the one before by one move or more; the number of goals if all have theirs. The work space has a
// word for each point, and is 0 afterwards.
pub fn first_stuck(
    lanes: &[u32],
    zones: &[u32],
    exits: &[u32],
    checkpoints: &[u32],
    goals: &[u32],
    c: Counts,
    count: u32,
    start: u32,
    work: &mut [u32],
) -> usize
    ensures value { result ≡ first_stuck_of (leads_to_of lanes.now zones.now exits.now c (length work.old)) (goal_point_of checkpoints.now goals.now) count start }
    ensures work_after { work.new ≡ replicate (length work.old) 0 }
{
    clear(work);
    if count == 0 {
        return 0;
    }
    let first = goal_point(checkpoints, goals, 0);
    if start == first {
        return later_stuck(lanes, zones, exits, checkpoints, goals, c, count, work);
    }
    if leads_to(lanes, zones, exits, c, work, start, first) {
        later_stuck(lanes, zones, exits, checkpoints, goals, c, count, work)
    } else {
        0
    }
}
