// The front of a packed network (request L11, docs/PACKED.md), tested (27 and 28), and its rows, read from its bytes and stored into lent tables: of each table so many records from a place on, one behind the other.
// Nothing is asked: a number that is not in the bytes is 0, a record that runs past the end is stepped over by nothing, and a row without room is not stored (`rows`).
//
// specs/Front: the tests of 27 and 28. specs/Told: the row that a record tells, and where the next stands. specs/Stored: the rows of a table, and what the tables hold then; every contract cites them.
// proofs/Storing: the laws of the loops, said once for all tables. That these are the tables of the network whose form the bytes are is `unpacked_tables`.
//
// Rests on `packed_rows`, `rows`, `room`, `law` (what the lent tables are), `counts` and what they rest on. Settled: every contract reads `r ≡ f ..` or `now t.exit ≡ f ..`.
#![tactic(auto)]

ghost use Rattle.std.specs.Prelude.{◌≡◌, ◌+◌};
ghost use Rattle.law.specs.Tables.{lent};
ghost use Rattle.room.specs.Room.{fitted};
ghost use Rattle.packed_rows.specs.Points.{four_at_of};
ghost use Rattle.unpacked_rows.specs.Front.{version_here, framed_here};
ghost use Rattle.unpacked_rows.specs.Told.{signed, name_told, segment_told_of, lane_told_of, zone_told_of, spot_told_of, point_told_of, checkpoint_told_of, stop_told_of, exit_told_of, behind, behind_segment_of, behind_zone_of};
ghost use Rattle.unpacked_rows.specs.Stored.{segments_stored, lanes_stored, zones_stored, spots_stored, points_stored, checkpoints_stored, stops_stored, exits_stored, tables_stored};

use counts::Counts;
use packed_rows::{are_records, four_at};
use room::in_word;
use rows::{
    CheckpointRow, ExitRow, LaneRow, PointRow, SegmentRow, SpotRow, StopRow, Stretch, ZoneRow,
    store_checkpoint, store_exit, store_lane, store_point, store_segment, store_spot, store_stop,
    store_zone,
};
use units::{CheckpointNumber, Feet};

// Where the first record of each table stands in the bytes.
#[derive(Clone, Copy)]
pub struct Places {
    pub segments: usize,
    pub lanes: usize,
    pub zones: usize,
    pub spots: usize,
    pub points: usize,
    pub checkpoints: usize,
    pub stops: usize,
    pub exits: usize,
}

// ## The front: 27 and 28

// The version byte is there and is 2.
pub fn is_version(bytes: &[u8]) -> bool
    ensures { result ≡ version_here bytes.now }
{
    if bytes.len() == 0 {
        return false;
    }
    bytes[0] == 2
}

// The first length is the count of the bytes behind it, and these are records.
pub fn is_framed(bytes: &[u8]) -> bool
    ensures { result ≡ framed_here bytes.now }
{
    if bytes.len() < 5 {
        return false;
    }
    if four_at(bytes, 1) as usize == bytes.len() - 5 {
        are_records(bytes, 5)
    } else {
        false
    }
}

// ## Fields

// A number of four bytes that stands so far behind a place.
fn word_at(bytes: &[u8], at: usize, skip: usize) -> u32
    ensures { result ≡ four_at_of bytes.now (at + skip) }
{
    if bytes.len() < skip {
        return 0;
    }
    if bytes.len() - skip < at {
        return 0;
    }
    four_at(bytes, at + skip)
}

// A coordinate: below 0 it is told as so much less than 2 to the 32nd.
fn signed_of(word: u32) -> i32
    ensures { result ≡ signed word }
{
    if word < 2147483648 {
        return word as i32;
    }
    let below = (4294967295 - word) as i32;
    -1 - below
}

// A place so far behind another, as a word of a table.
fn place_of(at: usize, skip: u32) -> u32
    ensures { result ≡ fitted (at + skip) }
{
    if 4294967295 < at {
        return 4294967295;
    }
    in_word(at + skip as usize)
}

// A name of no bytes is missing.
fn name_of_size(place: u32, size: u32) -> Stretch
    ensures { result ≡ name_told place size }
{
    if size == 0 {
        Stretch {
            start: 0,
            length: 0,
        }
    } else {
        Stretch {
            start: place,
            length: size,
        }
    }
}

// ## Rows

fn segment_told(bytes: &[u8], at: usize) -> SegmentRow
    ensures { result ≡ segment_told_of bytes.now at }
{
    let sizes = word_at(bytes, at, 6);
    SegmentRow {
        first_lane: word_at(bytes, at, 2),
        lanes: sizes / 65536,
        name: name_of_size(place_of(at, 10), sizes % 65536),
    }
}

fn lane_told(bytes: &[u8], at: usize) -> LaneRow
    ensures { result ≡ lane_told_of bytes.now at }
{
    let sizes = word_at(bytes, at, 6);
    let sides = word_at(bytes, at, 8);
    LaneRow {
        first_point: word_at(bytes, at, 2),
        points: sizes / 65536,
        width: Feet((sizes % 65536) as u16),
        left: (sides / 256 % 256) as u8,
        right: (sides % 256) as u8,
    }
}

fn zone_told(bytes: &[u8], at: usize) -> ZoneRow
    ensures { result ≡ zone_told_of bytes.now at }
{
    let sizes = word_at(bytes, at, 12);
    ZoneRow {
        first_point: word_at(bytes, at, 2),
        points: word_at(bytes, at, 6) / 65536,
        first_spot: word_at(bytes, at, 8),
        spots: sizes / 65536,
        name: name_of_size(place_of(at, 16), sizes % 65536),
    }
}

fn spot_told(bytes: &[u8], at: usize) -> SpotRow
    ensures { result ≡ spot_told_of bytes.now at }
{
    let width = word_at(bytes, at, 4) % 65536;
    SpotRow {
        first_point: word_at(bytes, at, 2),
        width: Feet(width as u16),
    }
}

fn point_told(bytes: &[u8], at: usize) -> PointRow
    ensures { result ≡ point_told_of bytes.now at }
{
    PointRow {
        latitude: signed_of(word_at(bytes, at, 2)),
        longitude: signed_of(word_at(bytes, at, 6)),
    }
}

fn checkpoint_told(bytes: &[u8], at: usize) -> CheckpointRow
    ensures { result ≡ checkpoint_told_of bytes.now at }
{
    let number = word_at(bytes, at, 2) / 65536;
    CheckpointRow {
        number: CheckpointNumber(number as u16),
        point: word_at(bytes, at, 4),
    }
}

fn stop_told(bytes: &[u8], at: usize) -> StopRow
    ensures { result ≡ stop_told_of bytes.now at }
{
    StopRow {
        point: word_at(bytes, at, 2),
    }
}

fn exit_told(bytes: &[u8], at: usize) -> ExitRow
    ensures { result ≡ exit_told_of bytes.now at }
{
    ExitRow {
        point: word_at(bytes, at, 2),
        entry: word_at(bytes, at, 6),
    }
}

// ## Places

// So many bytes on, where these are there.
fn behind(long: usize, at: usize, size: usize) -> usize
    ensures { result ≡ behind long at size }
{
    if long < size {
        return at;
    }
    if long - size < at {
        return at;
    }
    at + size
}

fn behind_segment(bytes: &[u8], at: usize) -> usize
    ensures { result ≡ behind_segment_of bytes.now at }
{
    let name = word_at(bytes, at, 6) % 65536;
    behind(bytes.len(), at, 10 + name as usize)
}

fn behind_zone(bytes: &[u8], at: usize) -> usize
    ensures { result ≡ behind_zone_of bytes.now at }
{
    let name = word_at(bytes, at, 12) % 65536;
    behind(bytes.len(), at, 16 + name as usize)
}

// ## Tables: so many records from a place on, stored from row 0 on

pub fn store_segments(bytes: &[u8], from: usize, count: u32, segments: &mut [u32])
    ensures { segments.new ≡ segments_stored bytes.now from count segments.old }
{
    let mut at = from;
    for k in 0..count {
        store_segment(segments, k as usize, segment_told(bytes, at));
        at = behind_segment(bytes, at);
    }
}

pub fn store_lanes(bytes: &[u8], from: usize, count: u32, lanes: &mut [u32])
    ensures { lanes.new ≡ lanes_stored bytes.now from count lanes.old }
{
    let mut at = from;
    for k in 0..count {
        store_lane(lanes, k as usize, lane_told(bytes, at));
        at = behind(bytes.len(), at, 12);
    }
}

pub fn store_zones(bytes: &[u8], from: usize, count: u32, zones: &mut [u32])
    ensures { zones.new ≡ zones_stored bytes.now from count zones.old }
{
    let mut at = from;
    for k in 0..count {
        store_zone(zones, k as usize, zone_told(bytes, at));
        at = behind_zone(bytes, at);
    }
}

pub fn store_spots(bytes: &[u8], from: usize, count: u32, spots: &mut [u32])
    ensures { spots.new ≡ spots_stored bytes.now from count spots.old }
{
    let mut at = from;
    for k in 0..count {
        store_spot(spots, k as usize, spot_told(bytes, at));
        at = behind(bytes.len(), at, 8);
    }
}

pub fn store_points(bytes: &[u8], from: usize, count: u32, points: &mut [i32])
    ensures { points.new ≡ points_stored bytes.now from count points.old }
{
    let mut at = from;
    for k in 0..count {
        store_point(points, k as usize, point_told(bytes, at));
        at = behind(bytes.len(), at, 10);
    }
}

pub fn store_checkpoints(bytes: &[u8], from: usize, count: u32, checkpoints: &mut [u32])
    ensures { checkpoints.new ≡ checkpoints_stored bytes.now from count checkpoints.old }
{
    let mut at = from;
    for k in 0..count {
        store_checkpoint(checkpoints, k as usize, checkpoint_told(bytes, at));
        at = behind(bytes.len(), at, 8);
    }
}

pub fn store_stops(bytes: &[u8], from: usize, count: u32, stops: &mut [u32])
    ensures { stops.new ≡ stops_stored bytes.now from count stops.old }
{
    let mut at = from;
    for k in 0..count {
        store_stop(stops, k as usize, stop_told(bytes, at));
        at = behind(bytes.len(), at, 6);
    }
}

pub fn store_exits(bytes: &[u8], from: usize, count: u32, exits: &mut [u32])
    ensures { exits.new ≡ exits_stored bytes.now from count exits.old }
{
    let mut at = from;
    for k in 0..count {
        store_exit(exits, k as usize, exit_told(bytes, at));
        at = behind(bytes.len(), at, 10);
    }
}

// Every table from its place on.
pub fn store_tables(
    bytes: &[u8],
    c: Counts,
    places: Places,
    segments: &mut [u32],
    lanes: &mut [u32],
    zones: &mut [u32],
    spots: &mut [u32],
    points: &mut [i32],
    checkpoints: &mut [u32],
    stops: &mut [u32],
    exits: &mut [u32],
)
    ensures { lent segments.new lanes.new zones.new spots.new points.new checkpoints.new stops.new exits.new ≡ tables_stored bytes.now c places (lent segments.old lanes.old zones.old spots.old points.old checkpoints.old stops.old exits.old) }
{
    store_segments(bytes, places.segments, c.segments, segments);
    store_lanes(bytes, places.lanes, c.lanes, lanes);
    store_zones(bytes, places.zones, c.zones, zones);
    store_spots(bytes, places.spots, c.spots, spots);
    store_points(bytes, places.points, c.points, points);
    store_checkpoints(bytes, places.checkpoints, c.checkpoints, checkpoints);
    store_stops(bytes, places.stops, c.stops, stops);
    store_exits(bytes, places.exits, c.exits, exits);
}
