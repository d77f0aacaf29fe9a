// The judge of 29 (request L11): whether bytes, behind version and length, are the packed form of some network; if so its counts, its file's row, and where the records of each table stand.
// Each pass begins where the one before it ended: the file's record, segments, lanes, zones (`packed_frame`, `packed_rows`); then nothing stands behind the last exit; then spots, points, checkpoints, stops, exits and the walk over parts (`packed_parts`).
//
// specs/Judgement: what is judged, executable. proofs/Law: a form is told exactly of bytes that are some network's (`Judges`), for bytes up to 16,777,215.
//
// Rests on the passes, on what they say of rows (`frame_tables`, `part_tables`, `packed_tables`) and on what a judge has to say (`unpacked_tables`). Settled: every contract reads `r ≡ f ..`, and none has a `requires`.
#![tactic(auto)]

ghost use Rattle.std.specs.Prelude.{◌≡◌};
ghost use Rattle.packed_check.specs.Judgement.{behind, places_of, table_at, few, tables_right, linked, with_places_of, with_lanes_of, judgement};

use counts::Counts;
use packed_frame::{are_spots, file_at, segments_at, zones_at};
use packed_parts::{Table, are_checkpoints, are_exits, are_parts, lanes_end};
use packed_rows::{are_lanes, are_points, are_records_of};
use room::in_word;
use rows::FileRow;
use units::SegmentId;
use unpacked_rows::Places;

// ## Places
// The place behind so many records of one size.
fn behind(at: usize, size: u16, count: u32) -> usize
    ensures { result ≡ behind at size count }
{
    in_word(at) as usize + size as usize * count as usize
}

// Where each table stands, by the places that stand behind records with names.
fn places_of(c: Counts, segments: usize, lanes: usize, spots: usize) -> Places
    ensures { result ≡ places_of c segments lanes spots }
{
    let zones = behind(lanes, 12, c.lanes);
    let points = behind(spots, 8, c.spots);
    let checkpoints = behind(points, 10, c.points);
    let stops = behind(checkpoints, 8, c.checkpoints);
    let exits = behind(stops, 6, c.stops);
    Places {
        segments,
        lanes,
        zones,
        spots,
        points,
        checkpoints,
        stops,
        exits,
    }
}

fn table_at(from: usize, count: u32) -> Table
    ensures { result ≡ table_at from count }
{
    Table {
        from: in_word(from),
        count,
    }
}

// ## Tests
// There is a segment, and the last identifier, that of the last segment or zone, is not over the largest.
fn are_few(c: Counts) -> bool
    ensures { result ≡ few c }
{
    (1 <= c.segments) & (c.segments as u64 + c.zones as u64 <= SegmentId::LARGEST as u64)
}

// Spots, points, checkpoints and stops, each by itself.
fn are_tables(bytes: &[u8], c: Counts, places: Places) -> bool
    ensures { result ≡ tables_right bytes.now c places }
{
    are_spots(bytes, places.zones, c.zones, places.spots)
        && are_points(bytes, places.points, c.points)
        && are_checkpoints(bytes, places.checkpoints, c.checkpoints)
        && are_records_of(bytes, places.stops, 4, c.stops)
}

// Exits lead to entries, and every checkpoint, stop and exit is its part's. point: the first zone point.
fn are_linked(bytes: &[u8], c: Counts, places: Places, point: u64) -> bool
    ensures { result ≡ linked bytes.now c places point }
{
    let spots = table_at(places.spots, c.spots);
    are_exits(bytes, places.exits, c.exits, spots, c.points, point)
        && are_parts(
            bytes,
            table_at(places.lanes, c.lanes),
            table_at(places.zones, c.zones),
            table_at(places.checkpoints, c.checkpoints),
            table_at(places.stops, c.stops),
            table_at(places.exits, c.exits),
            point,
        )
}

// ## One pass behind the other
// Nothing stands behind the last exit.
fn with_places(
    bytes: &[u8],
    c: Counts,
    row: FileRow,
    places: Places,
    point: u64,
) -> Option<(Counts, FileRow, Places)>
    ensures { result ≡ with_places_of bytes.now c row places point }
{
    let passes = behind(places.exits, 10, c.exits) == bytes.len()
        && are_tables(bytes, c, places)
        && are_linked(bytes, c, places, point);
    passes.then_some((c, row, places))
}

fn with_lanes(
    bytes: &[u8],
    c: Counts,
    row: FileRow,
    segments: usize,
    lanes: usize,
) -> Option<(Counts, FileRow, Places)>
    ensures { result ≡ with_lanes_of bytes.now c row segments lanes }
{
    if !are_lanes(bytes, lanes, c.lanes) {
        return None;
    }
    let point = lanes_end(bytes, table_at(lanes, c.lanes));
    let zones = behind(lanes, 12, c.lanes);
    let (spots, points, count) = zones_at(bytes, zones, c.zones, point)?;
    if points != c.points as u64 || count != c.spots as u64 {
        return None;
    }
    let places = places_of(c, segments, lanes, spots);
    with_places(bytes, c, row, places, point)
}

pub fn judged(bytes: &[u8]) -> Option<(Counts, FileRow, Places)>
    ensures { result ≡ judgement bytes.now }
{
    let (c, row, segments) = file_at(bytes)?;
    if !are_few(c) {
        return None;
    }
    let (lanes, count) = segments_at(bytes, segments, c.segments)?;
    if count != c.lanes as u64 {
        return None;
    }
    with_lanes(bytes, c, row, segments, lanes)
}
