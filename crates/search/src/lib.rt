// Which points can be reached from a point by one move or more (request L13), a word to each point, over any tables.
//
// A word is 0 where its point is not reached; 1 where it was reached beside another, along its lane or with its zone; else it was put on a stack when the top was so much less 2 (0 nothing,
// else a point + 1). Every store goes to a word that is 0, so that a link once written never changes.
// Cost: the points, and for each point that is put on the stack the logarithm of the parts and the exits of its part. A zone is marked whole, once.
//
// specs/Search: the same, executable. proofs/Words: stores to words that are 0. proofs/Found: over any points, exits and parts, what is marked at the end is what one move or more lead to.
//
// Rests on `moves`, `reach_law` and what they rest on.
#![tactic(auto)]

ghost use Rattle.std.specs.Prelude.{◌≡◌, ◌-◌, ◌+◌, ◌*◌, ◌<◌, ◌≤◌, length, get_or, replicate};
ghost use Rattle.rows.specs.Lay.{rows_of};
ghost use Rattle.rows.specs.Strides.{exit_stride};
ghost use Rattle.search.specs.Search.{marks, run, below, reached, reach_all, popped, entry_taken, spread, own_entries, targets, next_of, other_of, firsts, search, found_from, leads_to_of};

use counts::Counts;
use moves::{Part, first_row_from, inside, lane_of, rows_there, zone_of};
use rows::{EXIT_STRIDE, clear};

// From a word on, those that are 0 become 1, up to the first that is not.
fn run(work: &mut [u32], from: usize, behind: usize)
    ensures { work.new ≡ run work.old from (behind - from) }
{
    for i in from..behind {
        if work.len() <= i {
            return;
        }
        if work[i] != 0 {
            return;
        }
        work[i] = 1;
    }
}

// What is marked with a point: its lane from there on, or its zone.
fn spread(lanes: &[u32], zones: &[u32], c: Counts, work: &mut [u32], b: u32)
    ensures { work.new ≡ spread lanes.now zones.now c work.old b }
{
    let at = b as usize;
    let lane = lane_of(lanes, c.lanes, b);
    if inside(lane, b) {
        run(work, at + 1, lane.behind);
        return;
    }
    let zone = zone_of(zones, c.zones, b);
    if inside(zone, b) {
        run(work, zone.first, at);
        run(work, at + 1, zone.behind);
    }
}

// A point is reached: where it is not yet, it is put on the stack, and its own are marked with it. The new top.
fn reach(lanes: &[u32], zones: &[u32], c: Counts, work: &mut [u32], top: usize, b: u32) -> usize
    requires { top < 4294967294 }
    ensures { marks work.new result ≡ reached (spread lanes.now zones.now c) (marks work.old top) b }
{
    let at = b as usize;
    if work.len() <= at {
        return top;
    }
    if work[at] != 0 {
        return top;
    }
    work[at] = (top + 2) as u32;
    spread(lanes, zones, c, work, b);
    at + 1
}

// A word of a table; 0 where it has none.
pub fn word(table: &[u32], at: usize) -> u32
    ensures { result ≡ get_or table.now at 0 }
{
    table.get(at).copied().unwrap_or(0)
}

// The exit in this row, where it leaves a point from `least` to `last`: what it leads to is reached.
fn reach_entry(
    lanes: &[u32],
    zones: &[u32],
    exits: &[u32],
    c: Counts,
    row: usize,
    source: usize,
    least: usize,
    last: usize,
    work: &mut [u32],
    top: usize,
) -> usize
    requires { (top < 4294967294) × (row < rows_of (length exits.now) exit_stride) }
    ensures { marks work.new result ≡ entry_taken (spread lanes.now zones.now c) least last source (get_or exits.now (row * exit_stride + 1) 0) (marks work.old top) }
{
    if source < least {
        return top;
    }
    if last < source {
        return top;
    }
    let entry = word(exits, row * EXIT_STRIDE + 1);
    reach(lanes, zones, c, work, top, entry)
}

// What the exits of a part lead to is reached, of those that leave a point from `least` to `last`.
fn reach_entries(
    lanes: &[u32],
    zones: &[u32],
    exits: &[u32],
    c: Counts,
    part: Part,
    least: usize,
    last: usize,
    work: &mut [u32],
    top: usize,
) -> usize
    requires { (top ≤ length work.old) × (length work.old < 4294967294) }
    ensures { marks work.new result ≡ reach_all (spread lanes.now zones.now c) (marks work.old top) (own_entries exits.now c.exits part least last) }
{
    let rows = rows_there(exits, EXIT_STRIDE, c.exits);
    let behind = part.behind;
    let mut head = top;
    for row in first_row_from(exits, EXIT_STRIDE, c.exits, part.first)..rows {
        let source = word(exits, row * EXIT_STRIDE) as usize;
        if behind <= source {
            return head;
        }
        head = reach_entry(lanes, zones, exits, c, row, source, least, last, work, head);
    }
    head
}

// The top when a point was put on the stack.
fn below(work: &[u32], at: usize) -> usize
    ensures { result ≡ below work.now at }
{
    let link = word(work, at) as usize;
    if link < 2 {
        return 0;
    }
    let under = link - 2;
    if under <= work.len() { under } else { 0 }
}

// The top is taken off, and what the exits of its own lead to is reached. The new top.
fn onward(
    lanes: &[u32],
    zones: &[u32],
    exits: &[u32],
    c: Counts,
    work: &mut [u32],
    top: usize,
) -> usize
    requires { (0 < top) × (top ≤ length work.old) × (length work.old < 4294967294) }
    ensures { marks work.new result ≡ popped (spread lanes.now zones.now c) (targets lanes.now zones.now exits.now c) (marks work.old top) }
{
    let at = top - 1;
    let b = at as u32;
    let under = below(work, at);
    let lane = lane_of(lanes, c.lanes, b);
    if inside(lane, b) {
        let behind = lane.behind;
        return reach_entries(lanes, zones, exits, c, lane, at, behind, work, under);
    }
    let zone = zone_of(zones, c.zones, b);
    if inside(zone, b) {
        let first = zone.first;
        let behind = zone.behind;
        return reach_entries(lanes, zones, exits, c, zone, first, behind, work, under);
    }
    under
}

// Where a search begins, in a lane: the next point in it. The top.
fn reach_next(
    lanes: &[u32],
    zones: &[u32],
    c: Counts,
    part: Part,
    work: &mut [u32],
    from: u32,
) -> usize
    requires { from < 4294967295 }
    ensures { marks work.new result ≡ reach_all (spread lanes.now zones.now c) (marks work.old 0) (next_of part from) }
{
    let next = from + 1;
    if inside(part, next) {
        reach(lanes, zones, c, work, 0, next)
    } else {
        0
    }
}

// In a zone: another point of it, which marks them all. The top.
fn reach_other(
    lanes: &[u32],
    zones: &[u32],
    c: Counts,
    part: Part,
    work: &mut [u32],
    from: u32,
) -> usize
    requires { (from < 4294967295) × (part.first < 4294967296) }
    ensures { marks work.new result ≡ reach_all (spread lanes.now zones.now c) (marks work.old 0) (other_of part from) }
{
    let first = part.first;
    if from as usize == first {
        return reach_next(lanes, zones, c, part, work, from);
    }
    reach(lanes, zones, c, work, 0, first as u32)
}

// Where a search begins: the next point in the lane, or another one of the zone; and what the point's own exits lead to. The top.
fn begin(
    lanes: &[u32],
    zones: &[u32],
    exits: &[u32],
    c: Counts,
    work: &mut [u32],
    from: u32,
) -> usize
    requires { (from < length work.old) × (length work.old < 4294967294) }
    ensures { marks work.new result ≡ reach_all (spread lanes.now zones.now c) (marks work.old 0) (firsts lanes.now zones.now exits.now c from) }
{
    let at = from as usize;
    let lane = lane_of(lanes, c.lanes, from);
    if inside(lane, from) {
        let top = reach_next(lanes, zones, c, lane, work, from);
        return reach_entries(lanes, zones, exits, c, lane, at, at, work, top);
    }
    let zone = zone_of(zones, c.zones, from);
    if inside(zone, from) {
        let top = reach_other(lanes, zones, c, zone, work, from);
        return reach_entries(lanes, zones, exits, c, zone, at, at, work, top);
    }
    0
}

// Every point to which one move or more lead from this one is marked, in words that are 0 before.
fn search(lanes: &[u32], zones: &[u32], exits: &[u32], c: Counts, work: &mut [u32], from: u32)
    requires { (from < length work.old) × (length work.old < 4294967294) }
    ensures { work.new ≡ search lanes.now zones.now exits.now c work.old from }
{
    let mut top = begin(lanes, zones, exits, c, work, from);
    for _ in 0..work.len() {
        if top == 0 {
            return;
        }
        top = onward(lanes, zones, exits, c, work, top);
    }
}

// The marks of the search from a point; none where the point has no word. What the work space held does not matter.
pub fn search_from(
    lanes: &[u32],
    zones: &[u32],
    exits: &[u32],
    c: Counts,
    work: &mut [u32],
    from: u32,
)
    ensures { work.new ≡ found_from lanes.now zones.now exits.now c (length work.old) from }
{
    clear(work);
    if work.len() <= from as usize {
        return;
    }
    if 4294967294 <= work.len() {
        return;
    }
    search(lanes, zones, exits, c, work, from);
}

// Whether one move or more lead from a point to another. The work space has a word for each point; what it held does not matter, and it is 0 afterwards.
pub fn leads_to(
    lanes: &[u32],
    zones: &[u32],
    exits: &[u32],
    c: Counts,
    work: &mut [u32],
    from: u32,
    to: u32,
) -> bool
    ensures value { result ≡ leads_to_of lanes.now zones.now exits.now c (length work.old) from to }
    ensures work_after { work.new ≡ replicate (length work.old) 0 }
{
    search_from(lanes, zones, exits, c, work, from);
    let there = word(work, to as usize) != 0;
    clear(work);
    there
}
