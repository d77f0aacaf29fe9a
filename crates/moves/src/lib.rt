// Whether a step of a route is a move (request L5), over any tables: it asks for nothing. A step costs the logarithm of the parts, and the exits of the part that it begins in.
//
// specs/Halving: the search by halving, executable; proofs/Halving: what it finds where a column is parted. specs/Moves: parts, exits and moves, executable. That this is the law's `Move` where
// the tables are those of a network is the crate `move_tables`.
//
// Rests on `read_rows`, `rows`, `counts`, `units` and `terms`.
//
// Settled: every contract here reads `r ≡ f ..`, so no second answer satisfies it.
#![tactic(auto)]

ghost use Rattle.std.specs.Prelude.{◌≡◌, ◌<◌, length};
ghost use Rattle.rows.specs.Lay.{rows_of};
ghost use Rattle.rows.specs.Strides.{exit_stride};
ghost use Rattle.moves.specs.Halving.{first_word, rows_there_of, first_row_from_of};
ghost use Rattle.moves.specs.Moves.{inside, lane_part_of, zone_part_of, lane_of, the_the_zone_of, goes, leads, next_in_of, across, lane_move_of, zone_move_of, is_move};

use counts::Counts;
use read_rows::{lane_at, zone_at};
use rows::{EXIT_STRIDE, LANE_STRIDE, ZONE_STRIDE, rows_of};

// A lane or a zone: its points are the rows from `first` on that stand before `behind`.
#[derive(Clone, Copy)]
pub struct Part {
    pub first: usize,
    pub behind: usize,
}

// ## The search
// How many of so many rows the table has.
pub fn rows_there(table: &[u32], stride: usize, count: u32) -> usize
    ensures { result ≡ rows_there_of table.now stride count }
{
    (count as usize).min(rows_of(table.len(), stride))
}

// The first word of a row that is there.
fn first_word(table: &[u32], stride: usize, row: usize) -> u32
    requires { row < rows_of (length table.now) stride }
    ensures { result ≡ first_word table.now stride row }
{
    table[row * stride]
}

// The first row whose first word is not below `least`, where the rows before it are below and the others are not.
pub fn first_row_from(table: &[u32], stride: usize, count: u32, least: usize) -> usize
    ensures { result ≡ first_row_from_of table.now stride count least }
{
    let mut low: usize = 0;
    let mut left = rows_there(table, stride, count);
    // Kept as it is: the new form is no plainer: it halves, so that no range says its turns, and `partition_point` wants a slice with one element for each row, while a row here is `stride` words of a flat one.
    while 0 < left {
        let half = left / 2;
        let middle = low + half;
        if (first_word(table, stride, middle) as usize) < least {
            low = middle + 1;
            left = left - 1 - half;
        } else {
            left = half;
        }
    }
    low
}

// ## Parts
pub fn inside(part: Part, point: u32) -> bool
    ensures { result ≡ inside part point }
{
    let at = point as usize;
    part.first <= at && at < part.behind
}

fn lane_part(lanes: &[u32], row: usize) -> Part
    ensures { result ≡ lane_part_of lanes.now row }
{
    let lane = lane_at(lanes, row);
    let first = lane.first_point as usize;
    let points = lane.points as usize;
    Part {
        first,
        behind: first + points,
    }
}

// Perimeter and spots: two points for each spot.
fn zone_part(zones: &[u32], row: usize) -> Part
    ensures { result ≡ zone_part_of zones.now row }
{
    let zone = zone_at(zones, row);
    let first = zone.first_point as usize;
    let points = zone.points as usize;
    let spots = zone.spots as usize;
    Part {
        first,
        behind: first + points + 2 * spots,
    }
}

// The last lane that begins at this point or before it; none, without points, where there is no such lane.
pub fn lane_of(lanes: &[u32], count: u32, point: u32) -> Part
    ensures { result ≡ lane_of lanes.now count point }
{
    let behind = first_row_from(lanes, LANE_STRIDE, count, point as usize + 1);
    if behind == 0 {
        Part {
            first: 0,
            behind: 0,
        }
    } else {
        lane_part(lanes, behind - 1)
    }
}

pub fn zone_of(zones: &[u32], count: u32, point: u32) -> Part
    ensures { result ≡ the_the_zone_of zones.now count point }
{
    let behind = first_row_from(zones, ZONE_STRIDE, count, point as usize + 1);
    if behind == 0 {
        Part {
            first: 0,
            behind: 0,
        }
    } else {
        zone_part(zones, behind - 1)
    }
}

// ## Exits
// The exit in this row, which is there and leaves `source`, goes from a to b.
fn goes(exits: &[u32], row: usize, source: u32, a: u32, b: u32) -> bool
    requires there { row < rows_of (length exits.now) exit_stride }
    requires left { source ≡ first_word exits.now exit_stride row }
    ensures { result ≡ goes exits.now row a b }
{
    source == a && exits[row * EXIT_STRIDE + 1] == b
}

// One of the part's exits goes from a to b. Their rows stand together, but they are not sorted: each is looked at.
fn leads(exits: &[u32], count: u32, part: Part, a: u32, b: u32) -> bool
    ensures { result ≡ leads exits.now count part a b }
{
    let rows = rows_there(exits, EXIT_STRIDE, count);
    let behind = part.behind;
    for row in first_row_from(exits, EXIT_STRIDE, count, part.first)..rows {
        let source = first_word(exits, EXIT_STRIDE, row);
        if behind <= source as usize {
            return false;
        }
        if goes(exits, row, source, a, b) {
            return true;
        }
    }
    false
}

// ## Moves
fn next_in(lane: Part, a: u32, b: u32) -> bool
    ensures { result ≡ next_in_of lane a b }
{
    b as usize == a as usize + 1 && inside(lane, b)
}

fn across(zone: Part, a: u32, b: u32) -> bool
    ensures { result ≡ across zone a b }
{
    a != b && inside(zone, b)
}

fn lane_move(exits: &[u32], count: u32, lane: Part, a: u32, b: u32) -> bool
    ensures { result ≡ lane_move_of exits.now count lane a b }
{
    next_in(lane, a, b) || leads(exits, count, lane, a, b)
}

fn zone_move(exits: &[u32], count: u32, zone: Part, a: u32, b: u32) -> bool
    ensures { result ≡ zone_move_of exits.now count zone a b }
{
    across(zone, a, b) || leads(exits, count, zone, a, b)
}

// L5: "A move goes from a waypoint to the next in its lane; along an exit; or, in one zone, between any two different points among perimeter and spots."
pub fn is_move(lanes: &[u32], zones: &[u32], exits: &[u32], c: Counts, a: u32, b: u32) -> bool
    ensures { result ≡ is_move lanes.now zones.now exits.now c a b }
{
    let lane = lane_of(lanes, c.lanes, a);
    if inside(lane, a) {
        return lane_move(exits, c.exits, lane, a, b);
    }
    let zone = zone_of(zones, c.zones, a);
    inside(zone, a) && zone_move(exits, c.exits, zone, a, b)
}
