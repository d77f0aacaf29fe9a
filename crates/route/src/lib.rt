// Is this route drivable? (request L5): a checker over a pair of texts, a start and a list of points, each told by its row in the point table. It reads the pair first and refuses as the
// reader does; then 21 to 24. What it replies, and what every lent table then holds, is `pair_checks`/specs/Checks: for all texts, tables, starts and lists. Nothing is required.
// A refusal leaves every lent table zero.
//
// Not quadratic: the route is gone over once for its steps and once for its goals; a goal's point is looked up once, when the goals before it are met. What a step costs, `moves` says.
//
// specs/Judged: what a route gets, executable. proofs/Steps, Taking, Found: what that says of the steps and the goals. proofs/Lawful: that it is the law's answer for an accepted pair.
//
// Rests on `reader`, `pair_checks`, `moves`, `move_tables`, `goal_points`, `goal_tables` and what they rest on.
#![tactic(auto)]

ghost use Rattle.std.specs.Prelude.{◌≡◌, length, get_or, ◌-◌};
ghost use Rattle.edition.specs.Editions.{rules_of};
ghost use Rattle.law.specs.Tables.{lent, mission_lent};
ghost use Rattle.moves.specs.Moves.{is_move};
ghost use Rattle.pair_checks.specs.Checks.{ChecksRoute};
ghost use Rattle.goal_points.specs.Goals.{goal_point_of};
ghost use Rattle.route.specs.Judged.{begins, stray, goals_met_of, ends, met_verdict_of, verdict, ruled};

use counts::{Counts, MissionCounts};
use edition::Edition;
use goal_points::goal_point;
use moves::is_move;
use reader::read_pair;
use refusal::Refusal;
use replies::PairReply;
use room::{clear_tables, in_word};
use rows::clear;

// 21: it begins at the start, which is declared.
fn begins(points: u32, start: u32, route: &[u32]) -> bool
    ensures { result ≡ begins points start route.now }
{
    if 0 < route.len() {
        if route[0] == start {
            start < points
        } else {
            false
        }
    } else {
        false
    }
}

// 22: the first place to which the step is no move; the place behind the last if there is none.
fn stray(lanes: &[u32], zones: &[u32], exits: &[u32], c: Counts, route: &[u32]) -> usize
    ensures { result ≡ stray (is_move lanes.now zones.now exits.now c) route.now 1 (length route.now - 1) }
{
    let mut place: usize = 1;
    while place < route.len() {
        if is_move(lanes, zones, exits, c, route[place - 1], route[place]) {
            place += 1;
        } else {
            return place;
        }
    }
    place
}

// 23: how many goals are met, each taken at the earliest place.
fn goals_met(checkpoints: &[u32], goals: &[u32], count: u32, route: &[u32]) -> usize
    ensures { result ≡ goals_met_of (goal_point_of checkpoints.now goals.now) count route.now 0 0 (length route.now) }
{
    let mut taken: usize = 0;
    let mut wanted = goal_point(checkpoints, goals, 0);
    let mut place: usize = 0;
    while place < route.len() {
        if count as usize <= taken {
            return taken;
        }
        if route[place] == wanted {
            taken += 1;
            wanted = goal_point(checkpoints, goals, taken);
            place += 1;
        } else {
            place += 1;
        }
    }
    taken
}

// The row of the last of so many goals.
fn last_row(count: u32) -> usize
    ensures { result ≡ count - 1 }
{
    if count == 0 { 0 } else { count as usize - 1 }
}

// The point at the last place.
fn last_point(route: &[u32]) -> u32
    ensures { result ≡ get_or route.now (length route.now - 1) 0 }
{
    if route.len() == 0 {
        0
    } else {
        route[route.len() - 1]
    }
}

// 24: it ends at the last goal's point.
fn ends(checkpoints: &[u32], goals: &[u32], count: u32, route: &[u32]) -> bool
    ensures { result ≡ ends (goal_point_of checkpoints.now goals.now) count route.now }
{
    last_point(route) == goal_point(checkpoints, goals, last_row(count))
}

fn met_verdict(
    checkpoints: &[u32],
    goals: &[u32],
    count: u32,
    route: &[u32],
) -> Result<(), (u32, u8)>
    ensures { result ≡ met_verdict_of (goal_point_of checkpoints.now goals.now) count route.now }
{
    let met = goals_met(checkpoints, goals, count, route);
    if met < count as usize {
        return Err((in_word(met), 23));
    }
    if ends(checkpoints, goals, count, route) {
        Ok(())
    } else {
        Err((0, 24))
    }
}

fn judged(
    lanes: &[u32],
    zones: &[u32],
    checkpoints: &[u32],
    exits: &[u32],
    goals: &[u32],
    c: Counts,
    m: MissionCounts,
    start: u32,
    route: &[u32],
) -> Result<(), (u32, u8)>
    ensures { result ≡ verdict (is_move lanes.now zones.now exits.now c) (goal_point_of checkpoints.now goals.now) c.points m.goals start route.now }
{
    if begins(c.points, start, route) {
        let place = stray(lanes, zones, exits, c, route);
        if place < route.len() {
            return Err((in_word(place), 22));
        }
        met_verdict(checkpoints, goals, m.goals, route)
    } else {
        Err((0, 21))
    }
}

// The reader's reply, or, where the pair is accepted and the route is not good, the route's refusal.
fn ruled(
    lanes: &[u32],
    zones: &[u32],
    checkpoints: &[u32],
    exits: &[u32],
    goals: &[u32],
    start: u32,
    route: &[u32],
    reply: PairReply,
) -> PairReply
    ensures { result ≡ ruled lanes.now zones.now checkpoints.now exits.now goals.now start route.now reply }
{
    match reply {
        Ok((c, file, m, own)) => {
            let found = judged(lanes, zones, checkpoints, exits, goals, c, m, start, route);
            match found {
                Ok(()) => Ok((c, file, m, own)),
                Err((line, number)) => Err(Refusal {
                    file: 0,
                    line: line,
                    number: number,
                    column: 0,
                }),
            }
        }
        Err(why) => Err(why),
    }
}

// The route over the pair, by the edition that the caller says. start: a point's row; route: such rows.
pub fn check_route(
    edition: Edition,
    rndf: &[u8],
    mdf: &[u8],
    segments: &mut [u32],
    lanes: &mut [u32],
    zones: &mut [u32],
    spots: &mut [u32],
    points: &mut [i32],
    checkpoints: &mut [u32],
    stops: &mut [u32],
    exits: &mut [u32],
    goals: &mut [u32],
    limits: &mut [u32],
    start: u32,
    route: &[u32],
) -> PairReply
    ensures { ChecksRoute (rules_of edition) start route.now rndf.now mdf.now (lent segments.old lanes.old zones.old spots.old points.old checkpoints.old stops.old exits.old) (mission_lent goals.old limits.old) result (lent segments.new lanes.new zones.new spots.new points.new checkpoints.new stops.new exits.new) (mission_lent goals.new limits.new) }
{
    let read = read_pair(
        edition,
        rndf,
        mdf,
        segments,
        lanes,
        zones,
        spots,
        points,
        checkpoints,
        stops,
        exits,
        goals,
        limits,
    );
    let reply = ruled(lanes, zones, checkpoints, exits, goals, start, route, read);
    match reply {
        Ok((c, file, m, own)) => Ok((c, file, m, own)),
        Err(why) => {
            clear_tables(
                segments,
                lanes,
                zones,
                spots,
                points,
                checkpoints,
                stops,
                exits,
            );
            clear(goals);
            clear(limits);
            Err(why)
        }
    }
}
