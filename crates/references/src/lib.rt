// What is tested of the filled tables of an RNDF: every entry is declared (refusal 12). The answer is a row. (13, that no checkpoint number stands twice, is tested by `marks`; its law
// over given rows is here.)
// The entry of an exit has three numbers, for which its row has no room: while the tables are filled the row's second word holds where the entry
// starts in the text. Here it is read there, and the row of the point that it names takes the place.
//
// specs/: the same, executable, over the words of the tables. proofs/: Entries, the entry at the last field of an exit's line is the one that `text` reads of the line; Exits and Repeats,
// over the tables of given rows the answers are those of `fill`'s specs/FirstFaults.
//
// Rests on `marks` (which row is the first), `room` (a row's number in a word), `rows`, `read_rows`, `number`, `scan`, `statement`, `fill`, `plain_parts`, for its laws on `text` and
// `line_fields`, and on what these rest on.
//
// Settled: every contract here gives the answer by an executable function, and what a lent table holds by another, also where the answer is a row at fault: no second answer and no
// second memory satisfies it. Contracts that give the answer by what it stands for (`found r`, `told r ..`) are settled by proofs/Settled.
#![tactic(auto)]

ghost use Rattle.std.specs.Prelude.{◌≡◌, [], pred};
ghost use Rattle.scan.specs.Reach.{reach, fails};
ghost use Rattle.number.specs.House.{number_byte};
ghost use Rattle.rows.specs.Read.{exit_at};
ghost use Rattle.statement.specs.Meaning.{the_the_point_of};
ghost use Rattle.fill.specs.Resolve as Resolve;
ghost use Rattle.references.specs.Entry.{id_from_of, entry_at};
ghost use Rattle.references.specs.Finding.{found, look_in};
ghost use Rattle.references.specs.Exits.{named_at, done, tried, onward, with_found, told, resolved_from, left_from};

use number::{Id, triple_of};
use plain_parts::triple_at;
use read_rows::{exit_at, lane_at, segment_at, zone_at};
use room::in_word;
use rows::{ExitRow, store_exit};
use scan::is_digit;

// ## The entry at a place
// 0.0.0 where there is no identifier.
pub fn id_from(t: Option<Id>) -> Id
    ensures { result ≡ id_from_of t }
{
    t.unwrap_or(Id { x: 0, y: 0, z: 0 })
}

// A byte of a number or an identifier.
fn is_number_byte(b: u8) -> bool
    ensures { result ≡ number_byte b }
{
    is_digit(b) | ((b == b'.') | (b == b'-'))
}

// Where such bytes end, from a place on.
fn number_end(s: &[u8], from: usize) -> usize
    ensures { result ≡ reach (fails number_byte) s.now from }
{
    for i in from..s.len() {
        if !is_number_byte(s[i]) {
            return i;
        }
    }
    from.max(s.len())
}

// The entry at a place of any text, cut out.
fn entry_cut(text: &[u8], at: usize) -> Id
    ensures { result ≡ entry_at text.now at }
{
    if at < text.len() {
        let e = number_end(text, at);
        id_from(triple_of(&text[at..e]))
    } else {
        Id { x: 0, y: 0, z: 0 }
    }
}

// The entry at a place, read where it stands, as every exit's is; what is read in no such way is cut out.
fn entry_at(text: &[u8], at: usize) -> Id
    ensures { result ≡ entry_at text.now at }
{
    let Some((x, y, z, e)) = triple_at(text, at) else {
        return entry_cut(text, at);
    };
    if e < text.len() {
        if is_number_byte(text[e]) {
            return entry_cut(text, at);
        }
    }
    Id { x, y, z }
}

// Numbers in identifiers count from 1, rows from 0.
fn before(n: u32) -> usize
    ensures { result ≡ pred n }
{
    n.saturating_sub(1) as usize
}

// The z-th of so many points, the first of which has this row.
fn in_part(first: u32, count: u32, z: u32) -> Option<usize>
    ensures { found result ≡ Resolve.in_part_of first count z }
{
    if 0 < z && z <= count {
        Some(first as usize + before(z))
    } else {
        None
    }
}

// A waypoint of lane y of segment x.
fn waypoint_row(segments: &[u32], lanes: &[u32], e: Id) -> Option<usize>
    ensures { found result ≡ Resolve.waypoint_at (look_in segments.now lanes.now []) e.x e.y e.z }
{
    if 0 < e.x {
        let segment = segment_at(segments, before(e.x));
        if e.y <= segment.lanes {
            let lane = lane_at(lanes, segment.first_lane as usize + before(e.y));
            in_part(lane.first_point, lane.points, e.z)
        } else {
            None
        }
    } else {
        None
    }
}

// A point of the perimeter of zone x: zones are numbered behind the segments.
fn border_row(zones: &[u32], segment_count: u32, e: Id) -> Option<usize>
    ensures { found result ≡ Resolve.border_at segment_count (look_in [] [] zones.now) e.x e.z }
{
    if segment_count < e.x {
        let zone = zone_at(zones, before(e.x - segment_count));
        in_part(zone.first_point, zone.points, e.z)
    } else {
        None
    }
}

pub fn resolve(
    segments: &[u32],
    lanes: &[u32],
    zones: &[u32],
    segment_count: u32,
    e: Id,
) -> Option<usize>
    ensures { found result ≡ Resolve.resolve segment_count (look_in segments.now lanes.now zones.now) (the_the_point_of e) }
{
    if e.y == 0 {
        border_row(zones, segment_count, e)
    } else {
        waypoint_row(segments, lanes, e)
    }
}

// ## Every exit
// The point that the entry at a place names.
fn named_at(
    text: &[u8],
    segments: &[u32],
    lanes: &[u32],
    zones: &[u32],
    segment_count: u32,
    at: usize,
) -> Option<usize>
    ensures { found result ≡ named_at text.now (look_in segments.now lanes.now zones.now) segment_count at }
{
    let e = entry_at(text, at);
    resolve(segments, lanes, zones, segment_count, e)
}

// One row: its point stored, or its entry names none. No table has so many rows that a row's number does not fit into a word.
fn resolve_exit(
    text: &[u8],
    segments: &[u32],
    lanes: &[u32],
    zones: &[u32],
    exits: &mut [u32],
    segment_count: u32,
    row: u32,
) -> bool
    ensures exits_after { tried row result exits.new ≡ onward exits.old row (named_at text.now (look_in segments.now lanes.now zones.now) segment_count (exit_at exits.old row).entry) done }
    ensures exits_after_2 { exits.new ≡ with_found exits.old row (named_at text.now (look_in segments.now lanes.now zones.now) segment_count (exit_at exits.old row).entry) }
{
    let exit = exit_at(exits, row as usize);
    let found = named_at(
        text,
        segments,
        lanes,
        zones,
        segment_count,
        exit.entry as usize,
    );
    match found {
        Some(i) => {
            store_exit(
                exits,
                row as usize,
                ExitRow {
                    point: exit.point,
                    entry: in_word(i),
                },
            );
            true
        }
        None => false,
    }
}

// Every row in its turn, up to the first whose entry names no point.
pub fn resolve_exits(
    text: &[u8],
    segments: &[u32],
    lanes: &[u32],
    zones: &[u32],
    exits: &mut [u32],
    segment_count: u32,
    exit_count: u32,
) -> Option<u32>
    ensures exits_after { told result exits.new ≡ resolved_from text.now (look_in segments.now lanes.now zones.now) segment_count exits.old 0 exit_count }
    ensures exits_after_2 { exits.new ≡ left_from text.now (look_in segments.now lanes.now zones.now) segment_count exits.old 0 exit_count }
{
    for row in 0..exit_count {
        if !resolve_exit(text, segments, lanes, zones, exits, segment_count, row) {
            return Some(row);
        }
    }
    None
}
