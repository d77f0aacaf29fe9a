// Packed bytes as rows of parts (request L11, parts of the test for 29): records of checkpoints, whose numbers are different; records of exits, whose entries are
// waypoints of lanes or points of perimeters; and the walk over parts: every checkpoint, stop and exit is its part's, part by part in file order.
//
// specs/Numbers, Entries, Parts: the passes, executable. proofs/NumberLaws, EntryLaws, PartLaws: the laws of their loops. What they say of rows: `part_tables`.
// A place of a table is a u32, and so is a row: the place of any row's field is a sum that fits.
//
// Rests on `packed_rows` (records and numbers in bytes) and `marks`, and on what they rest on. Settled: every contract reads `r ≡ f ..`, and none has a `requires`.
#![tactic(auto)]

ghost use Rattle.std.specs.Prelude.{◌≡◌, [], ◌+◌, ◌-◌};
ghost use Rattle.packed_parts.specs.Numbers.{number_new, numbers_right};
ghost use Rattle.packed_parts.specs.Entries.{halve, entry_right, exit_right, exits_right};
ghost use Rattle.packed_parts.specs.Parts.{cell_at, own_point, next_row, lanes_take, all-below, all_marked, zone_exits, zone_checkpoints, last_end, parts_right};

use marks::{is_marked, mark};
use packed_rows::{four_at, is_record};
use units::CheckpointNumber;

// So many records from this place on.
#[derive(Clone, Copy)]
pub struct Table {
    pub from: u32,
    pub count: u32,
}

// ## Checkpoint numbers
// A record of a checkpoint stands at this place, and its number has no mark.
fn is_new(bytes: &[u8], at: usize, marks: &[u8; 4096]) -> bool
    ensures { result ≡ number_new bytes.now at marks.now }
{
    if is_record(bytes, at, 6) {
        let number = four_at(bytes, at + 2) / 65536;
        if 1 <= number {
            if number <= CheckpointNumber::LARGEST as u32 {
                return !is_marked(marks, number as u16);
            }
        }
    }
    false
}

// So many records of checkpoints stand one behind the other from this place on; no number is there twice.
pub fn are_checkpoints(bytes: &[u8], from: usize, count: u32) -> bool
    ensures { result ≡ numbers_right count bytes.now from [] }
{
    let mut marks = [0; 4096];
    let mut at = from;
    for _ in 0..count {
        if !is_new(bytes, at, &marks) {
            return false;
        }
        let number = four_at(bytes, at + 2) / 65536;
        mark(&mut marks, number as u16);
        at = at + 8;
    }
    true
}

// ## Entries
// A field of a row of a table: the four bytes at this offset of the record.
fn cell(bytes: &[u8], from: u32, step: u16, offset: u16, row: u32) -> u32
    ensures { result ≡ cell_at bytes.now from step offset row }
{
    four_at(
        bytes,
        from as usize + step as usize * row as usize + offset as usize,
    )
}

// How many spots, whose first points rise, begin at this point or before it.
fn spots_to(bytes: &[u8], spots: Table, point: u32) -> u32
    ensures { result ≡ halve (cell_at bytes.now spots.from 8 2) point spots.count 0 spots.count }
{
    let mut low = 0;
    let mut high = spots.count;
    // Kept as it is: what may not change: by the clause of `are_exits` (halve of specs/Entries) one row is found also where the points don't rise, and partition_point says nothing of that.
    while low < high {
        let middle = low + (high - low) / 2;
        if cell(bytes, spots.from, 8, 2, middle) <= point {
            low = middle + 1;
        } else {
            high = middle;
        }
    }
    low
}

// A lane's waypoint, or a perimeter's point: below the first zone point, or below the count of points and no spot's.
fn is_entry(bytes: &[u8], spots: Table, points: u32, end: u64, point: u32) -> bool
    ensures { result ≡ entry_right (cell_at bytes.now spots.from 8 2) spots.count points end point }
{
    if (point as u64) < end {
        return true;
    }
    if points <= point {
        return false;
    }
    let to = spots_to(bytes, spots, point);
    if to == 0 {
        return true;
    }
    cell(bytes, spots.from, 8, 2, to - 1) as u64 + 2 <= point as u64
}

// A record of an exit stands at this place, and its entry is one.
fn is_exit(bytes: &[u8], at: usize, spots: Table, points: u32, end: u64) -> bool
    ensures { result ≡ exit_right bytes.now at (cell_at bytes.now spots.from 8 2) spots.count points end }
{
    if is_record(bytes, at, 8) {
        let entry = four_at(bytes, at + 6);
        is_entry(bytes, spots, points, end, entry)
    } else {
        false
    }
}

// So many records of exits stand one behind the other from this place on, each with an entry. end: the first zone point.
pub fn are_exits(bytes: &[u8], from: usize, count: u32, spots: Table, points: u32, end: u64) -> bool
    ensures { result ≡ exits_right count bytes.now from (cell_at bytes.now spots.from 8 2) spots.count points end }
{
    let mut at = from;
    for _ in 0..count {
        if !is_exit(bytes, at, spots, points, end) {
            return false;
        }
        at = at + 10;
    }
    true
}

// ## The walk over parts
// The first zone point: behind the last lane.
pub fn lanes_end(bytes: &[u8], lanes: Table) -> u64
    ensures { result ≡ last_end bytes.now lanes.from lanes.count }
{
    if lanes.count == 0 {
        return 0;
    }
    let first = cell(bytes, lanes.from, 12, 2, lanes.count - 1);
    let counts = cell(bytes, lanes.from, 12, 6, lanes.count - 1);
    first as u64 + (counts / 65536) as u64
}

// The point is one of so many from `first` on.
fn is_own(first: u32, size: u32, point: u32) -> bool
    ensures { result ≡ own_point first size point }
{
    if first <= point {
        (point as u64) < first as u64 + size as u64
    } else {
        false
    }
}

// The rows next in turn, from `row` on, whose point is one of so many from `first` on: the row behind them.
fn behind(bytes: &[u8], rows: Table, step: u16, offset: u16, first: u32, size: u32, row: u32) -> u32
    ensures { result ≡ next_row (cell_at bytes.now rows.from step offset) first size (rows.count - row) row }
{
    for at in row..rows.count {
        let point = cell(bytes, rows.from, step, offset, at);
        if !is_own(first, size, point) {
            return at;
        }
    }
    row.max(rows.count)
}

// Each lane takes the rows next in turn whose point it has: the row behind those of all lanes.
fn taken(bytes: &[u8], lanes: Table, rows: Table, step: u16, offset: u16) -> u32
    ensures { result ≡ lanes_take (cell_at bytes.now rows.from step offset) rows.count lanes.count bytes.now lanes.from 0 }
{
    let mut row = 0;
    for lane in 0..lanes.count {
        let first = cell(bytes, lanes.from, 12, 2, lane);
        let size = cell(bytes, lanes.from, 12, 6, lane) / 65536;
        row = behind(bytes, rows, step, offset, first, size, row);
    }
    row
}

// These exits lead to lanes.
fn lead_to_lanes(bytes: &[u8], exits: Table, row: u32, until: u32, end: u64) -> bool
    ensures { result ≡ all-below (cell_at bytes.now exits.from 10 6) end (until - row) row }
{
    (row..until).all(|at| (cell(bytes, exits.from, 10, 6, at) as u64) < end)
}

// The exits from `row` on are those of the zones' perimeters, zone by zone, and lead to lanes; none is left.
fn are_zone_exits(bytes: &[u8], zones: Table, exits: Table, row: u32, end: u64) -> bool
    ensures { result ≡ zone_exits (cell_at bytes.now exits.from 10 2) (cell_at bytes.now exits.from 10 6) exits.count end zones.count bytes.now zones.from row }
{
    let mut at = zones.from as usize;
    let mut next = row;
    for _ in 0..zones.count {
        let first = four_at(bytes, at + 2);
        let size = four_at(bytes, at + 6) / 65536;
        let until = behind(bytes, exits, 10, 2, first, size, next);
        if !lead_to_lanes(bytes, exits, next, until, end) {
            return false;
        }
        next = until;
        at = at + 2 + (four_at(bytes, at) / 65536) as usize;
    }
    exits.count <= next
}

// The checkpoints from `row` on are those of so many spots, one each, on its second point. The spots stand behind the perimeter.
fn are_marked(bytes: &[u8], checkpoints: Table, row: u32, first: u32, size: u32, spots: u32) -> bool
    ensures { result ≡ all_marked (cell_at bytes.now checkpoints.from 8 4) checkpoints.count (first + size) spots row }
{
    let begin = first as u64 + size as u64;
    for i in 0..spots {
        let at = row + i;
        if checkpoints.count <= at {
            return false;
        }
        if cell(bytes, checkpoints.from, 8, 4, at) as u64 != begin + 2 * i as u64 + 1 {
            return false;
        }
    }
    true
}

// The checkpoints from `row` on are those of the zones' spots, zone by zone; none is left.
fn are_zone_checkpoints(bytes: &[u8], zones: Table, checkpoints: Table, row: u32) -> bool
    ensures { result ≡ zone_checkpoints (cell_at bytes.now checkpoints.from 8 4) checkpoints.count zones.count bytes.now zones.from row }
{
    let mut at = zones.from as usize;
    let mut next = row;
    for _ in 0..zones.count {
        let first = four_at(bytes, at + 2);
        let size = four_at(bytes, at + 6) / 65536;
        let spots = four_at(bytes, at + 12) / 65536;
        if !are_marked(bytes, checkpoints, next, first, size, spots) {
            return false;
        }
        next = next + spots;
        at = at + 2 + (four_at(bytes, at) / 65536) as usize;
    }
    checkpoints.count <= next
}

// Every checkpoint, stop and exit is its part's, part by part in file order. end: the first zone point.
pub fn are_parts(
    bytes: &[u8],
    lanes: Table,
    zones: Table,
    checkpoints: Table,
    stops: Table,
    exits: Table,
    end: u64,
) -> bool
    ensures { result ≡ parts_right bytes.now lanes zones checkpoints stops exits end }
{
    if taken(bytes, lanes, stops, 6, 2) < stops.count {
        return false;
    }
    let checkpoint = taken(bytes, lanes, checkpoints, 8, 4);
    if are_zone_checkpoints(bytes, zones, checkpoints, checkpoint) {
        let exit = taken(bytes, lanes, exits, 10, 2);
        are_zone_exits(bytes, zones, exits, exit, end)
    } else {
        false
    }
}
