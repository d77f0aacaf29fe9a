// The map of a network (GeoJSON, docs/GEOJSON.md), put into a lent output from the filled tables: lanes, then perimeters, then checkpoints, each in file order.
// One pass over the tables; every function asks for nothing and says what it puts of any tables, whatever they hold. That this is the map of the network whose rows
// they hold is `map_tables`; the entry point is in `map_writer`.
//
// A checkpoint's identifier needs the part that it stands in: the parts are gone through once more, and each takes the checkpoint rows next in turn that stand before
// its end (rows stand part by part, and within a part in any order). A zone's first spot is 0 where it has none, and then it is not looked at.
//
// specs/Drawn: what is put, executable; every contract cites it. Rests on `map_json`, `output` (each put ensures `Wrote`), `read_rows`, `rows` and `counts`.
//
// Settled: every contract says what the output and the place are, for every output and place.
#![tactic(auto)]

ghost use Rattle.std.specs.Prelude.{◌≡◌, ◌+◌, ◌-◌};
ghost use Rattle.output.specs.Pen.{pen, Wrote};
ghost use Rattle.features.specs.Drawn.{lane_shape, perimeter_shape, named, lane, perimeter, behind_one_of, checkpoint, segment_lanes, all_lanes, all_perimeters, walk, part_end, part_checkpoints, steps, part_walk, lane_walk, segment_walk, spot_walk, zone_walk, all_walk, drawn};

use counts::Counts;
use map_json::{put_comma, put_position, put_positions, put_quoted, put_ring};
use output::{put_byte, put_bytes, put_integer, put_pair, put_triple};
use read_rows::{checkpoint_at, lane_at, segment_at, spot_at, zone_at};
use rows::{CheckpointRow, LaneRow, SegmentRow, Stretch, ZoneRow, name_of};

// ## Geometry

// A line string, or, of one point, that point.
fn put_lane_shape(out: &mut [u8], at: usize, points: &[i32], first: u32, count: u32) -> usize
    ensures { Wrote (pen out.old at) (lane_shape points.now first count) (pen out.new result) }
{
    if count == 1 {
        let a = put_bytes(out, at, b"{\"type\":\"Point\",\"coordinates\":");
        let b = put_position(out, a, points, first as usize);
        return put_byte(out, b, b'}');
    }
    let c = put_bytes(out, at, b"{\"type\":\"LineString\",\"coordinates\":[");
    let d = put_positions(out, c, points, first, count);
    put_bytes(out, d, b"]}")
}

// A polygon of one ring, or, of two points or one, what a lane has.
fn put_perimeter_shape(out: &mut [u8], at: usize, points: &[i32], first: u32, count: u32) -> usize
    ensures { Wrote (pen out.old at) (perimeter_shape points.now first count) (pen out.new result) }
{
    if count < 3 {
        return put_lane_shape(out, at, points, first, count);
    }
    let a = put_bytes(out, at, b"{\"type\":\"Polygon\",\"coordinates\":[[");
    let b = put_ring(out, a, points, first, count);
    put_bytes(out, b, b"]]}")
}

// ## Features

// The name, if there is one, and the end of a feature.
fn put_named(out: &mut [u8], at: usize, text: &[u8], name: Stretch) -> usize
    ensures { Wrote (pen out.old at) (named text.now name) (pen out.new result) }
{
    if name.length == 0 {
        return put_bytes(out, at, b"\"}}");
    }
    let a = put_bytes(out, at, b"\",\"name\":");
    let b = put_quoted(out, a, name_of(text, name));
    put_bytes(out, b, b"}}")
}

// Lane m.n.
fn put_lane(
    out: &mut [u8],
    at: usize,
    text: &[u8],
    points: &[i32],
    name: Stretch,
    m: u32,
    n: u32,
    row: LaneRow,
) -> usize
    ensures { Wrote (pen out.old at) (lane text.now points.now name m n row) (pen out.new result) }
{
    let a = put_bytes(out, at, b"{\"type\":\"Feature\",\"geometry\":");
    let b = put_lane_shape(out, a, points, row.first_point, row.points);
    let c = put_bytes(out, b, b",\"properties\":{\"kind\":\"lane\",\"id\":\"");
    let d = put_pair(out, c, m, n);
    put_named(out, d, text, name)
}

// Perimeter m.0.
fn put_perimeter(
    out: &mut [u8],
    at: usize,
    text: &[u8],
    points: &[i32],
    m: u32,
    row: ZoneRow,
) -> usize
    ensures { Wrote (pen out.old at) (perimeter text.now points.now m row) (pen out.new result) }
{
    let a = put_bytes(out, at, b",{\"type\":\"Feature\",\"geometry\":");
    let b = put_perimeter_shape(out, a, points, row.first_point, row.points);
    let c = put_bytes(out, b, b",\"properties\":{\"kind\":\"perimeter\",\"id\":\"");
    let d = put_pair(out, c, m, 0);
    put_named(out, d, text, row.name)
}

// The number of the thing that stands k behind the first one, where so many were numbered before it. No network has so many that it would wrap.
fn behind_one(before: u32, k: u32) -> u32
    ensures { result ≡ behind_one_of before k }
{
    let n = before as u64 + k as u64 + 1;
    if n < 4294967295 { n as u32 } else { 4294967295 }
}

// How many points of a part stand before this one of it.
fn points_before(first: u32, point: u32) -> u32
    ensures { result ≡ point - first }
{
    if point < first {
        return 0;
    }
    point - first
}

// Checkpoint m.n.i, in the part m.n whose first point is at this row.
fn put_checkpoint(
    out: &mut [u8],
    at: usize,
    points: &[i32],
    m: u32,
    n: u32,
    first: u32,
    row: CheckpointRow,
) -> usize
    ensures { Wrote (pen out.old at) (checkpoint points.now m n first row) (pen out.new result) }
{
    let a = put_bytes(
        out,
        at,
        b",{\"type\":\"Feature\",\"geometry\":{\"type\":\"Point\",\"coordinates\":",
    );
    let b = put_position(out, a, points, row.point as usize);
    let c = put_bytes(
        out,
        b,
        b"},\"properties\":{\"kind\":\"checkpoint\",\"id\":\"",
    );
    let d = put_triple(out, c, m, n, behind_one(0, points_before(first, row.point)));
    let e = put_bytes(out, d, b"\",\"number\":");
    let f = put_integer(out, e, row.number.0 as u32);
    put_bytes(out, f, b"}}")
}

// ## Lanes and perimeters

// The lanes of segment m. Lane row 0 is the first feature of a map, so it has no comma in front.
fn put_segment(
    out: &mut [u8],
    at: usize,
    text: &[u8],
    lanes: &[u32],
    points: &[i32],
    m: u32,
    row: SegmentRow,
) -> usize
    ensures { Wrote (pen out.old at) (segment_lanes text.now lanes.now points.now m row) (pen out.new result) }
{
    let mut to = at;
    for k in 0..row.lanes {
        let i = row.first_lane as usize + k as usize;
        let a = put_comma(out, to, i);
        to = put_lane(
            out,
            a,
            text,
            points,
            row.name,
            m,
            behind_one(0, k),
            lane_at(lanes, i),
        );
    }
    to
}

fn put_lanes(
    out: &mut [u8],
    at: usize,
    text: &[u8],
    segments: &[u32],
    lanes: &[u32],
    points: &[i32],
    count: u32,
) -> usize
    ensures { Wrote (pen out.old at) (all_lanes text.now segments.now lanes.now points.now count) (pen out.new result) }
{
    let mut to = at;
    for k in 0..count {
        to = put_segment(
            out,
            to,
            text,
            lanes,
            points,
            behind_one(0, k),
            segment_at(segments, k as usize),
        );
    }
    to
}

// Zones are numbered on behind the segments.
fn put_perimeters(
    out: &mut [u8],
    at: usize,
    text: &[u8],
    zones: &[u32],
    points: &[i32],
    segments: u32,
    count: u32,
) -> usize
    ensures { Wrote (pen out.old at) (all_perimeters text.now zones.now points.now segments count) (pen out.new result) }
{
    let mut to = at;
    for k in 0..count {
        to = put_perimeter(
            out,
            to,
            text,
            points,
            behind_one(segments, k),
            zone_at(zones, k as usize),
        );
    }
    to
}

// ## Checkpoints

// The place of the pen, and the next checkpoint row in turn.
#[derive(Clone, Copy)]
struct Walked {
    at: usize,
    next: usize,
}

// The first checkpoint row from `next` on that does not stand before this point; none behind `count` is asked.
fn part_end(checkpoints: &[u32], count: usize, next: usize, behind: usize) -> usize
    ensures { result ≡ part_end checkpoints.now behind next (count - next) }
{
    for row in next..count {
        if behind <= checkpoint_at(checkpoints, row).point as usize {
            return row;
        }
    }
    next.max(count)
}

// The checkpoint rows from `next` to before `end`, all in part m.n.
fn put_part(
    out: &mut [u8],
    at: usize,
    points: &[i32],
    checkpoints: &[u32],
    m: u32,
    n: u32,
    first: u32,
    next: usize,
    end: usize,
) -> usize
    ensures { Wrote (pen out.old at) (part_checkpoints points.now checkpoints.now m n first next (end - next)) (pen out.new result) }
{
    let mut to = at;
    for row in next..end {
        to = put_checkpoint(
            out,
            to,
            points,
            m,
            n,
            first,
            checkpoint_at(checkpoints, row),
        );
    }
    to
}

// The checkpoints of part m.n, which has so many points.
fn walk_part(
    out: &mut [u8],
    from: Walked,
    points: &[i32],
    checkpoints: &[u32],
    count: usize,
    m: u32,
    n: u32,
    first: u32,
    size: u32,
) -> Walked
    ensures { walk (pen out.new result.at) result.next ≡ part_walk points.now checkpoints.now count m n first size (walk (pen out.old from.at) from.next) }
{
    let end = part_end(
        checkpoints,
        count,
        from.next,
        first as usize + size as usize,
    );
    let at = put_part(
        out,
        from.at,
        points,
        checkpoints,
        m,
        n,
        first,
        from.next,
        end,
    );
    Walked { at, next: end }
}

// Those of the lanes of segment m.
fn walk_segment(
    out: &mut [u8],
    from: Walked,
    lanes: &[u32],
    points: &[i32],
    checkpoints: &[u32],
    count: usize,
    m: u32,
    row: SegmentRow,
) -> Walked
    ensures { walk (pen out.new result.at) result.next ≡ steps (lane_walk lanes.now points.now checkpoints.now count m row) 0 row.lanes (walk (pen out.old from.at) from.next) }
{
    let mut to = from;
    for k in 0..row.lanes {
        let lane = lane_at(lanes, row.first_lane as usize + k as usize);
        to = walk_part(
            out,
            to,
            points,
            checkpoints,
            count,
            m,
            behind_one(0, k),
            lane.first_point,
            lane.points,
        );
    }
    to
}

fn walk_segments(
    out: &mut [u8],
    from: Walked,
    segments: &[u32],
    lanes: &[u32],
    points: &[i32],
    checkpoints: &[u32],
    count: usize,
    segment_count: u32,
) -> Walked
    ensures { walk (pen out.new result.at) result.next ≡ steps (segment_walk segments.now lanes.now points.now checkpoints.now count) 0 segment_count (walk (pen out.old from.at) from.next) }
{
    let mut to = from;
    for k in 0..segment_count {
        to = walk_segment(
            out,
            to,
            lanes,
            points,
            checkpoints,
            count,
            behind_one(0, k),
            segment_at(segments, k as usize),
        );
    }
    to
}

// Those of the spots of zone m, each of two points. A perimeter has none.
fn walk_zone(
    out: &mut [u8],
    from: Walked,
    spots: &[u32],
    points: &[i32],
    checkpoints: &[u32],
    count: usize,
    m: u32,
    row: ZoneRow,
) -> Walked
    ensures { walk (pen out.new result.at) result.next ≡ steps (spot_walk spots.now points.now checkpoints.now count m row) 0 row.spots (walk (pen out.old from.at) from.next) }
{
    let mut to = from;
    for k in 0..row.spots {
        let spot = spot_at(spots, row.first_spot as usize + k as usize);
        to = walk_part(
            out,
            to,
            points,
            checkpoints,
            count,
            m,
            behind_one(0, k),
            spot.first_point,
            2,
        );
    }
    to
}

fn walk_zones(
    out: &mut [u8],
    from: Walked,
    zones: &[u32],
    spots: &[u32],
    points: &[i32],
    checkpoints: &[u32],
    count: usize,
    segments: u32,
    zone_count: u32,
) -> Walked
    ensures { walk (pen out.new result.at) result.next ≡ steps (zone_walk zones.now spots.now points.now checkpoints.now count segments) 0 zone_count (walk (pen out.old from.at) from.next) }
{
    let mut to = from;
    for k in 0..zone_count {
        to = walk_zone(
            out,
            to,
            spots,
            points,
            checkpoints,
            count,
            behind_one(segments, k),
            zone_at(zones, k as usize),
        );
    }
    to
}

// ## The map

// The checkpoints of all lanes, then those of all spots.
fn put_checkpoints(
    out: &mut [u8],
    at: usize,
    segments: &[u32],
    lanes: &[u32],
    zones: &[u32],
    spots: &[u32],
    points: &[i32],
    checkpoints: &[u32],
    counts: Counts,
) -> usize
    ensures { pen out.new result ≡ (all_walk segments.now lanes.now zones.now spots.now points.now checkpoints.now counts (walk (pen out.old at) 0)).pen }
{
    let count = counts.checkpoints as usize;
    let walked = walk_segments(
        out,
        Walked { at, next: 0 },
        segments,
        lanes,
        points,
        checkpoints,
        count,
        counts.segments,
    );
    let done = walk_zones(
        out,
        walked,
        zones,
        spots,
        points,
        checkpoints,
        count,
        counts.segments,
        counts.zones,
    );
    done.at
}

// The map of a network whose rows, so many of each, stand in these tables, and whose names stand in this text.
pub fn put_map(
    out: &mut [u8],
    at: usize,
    text: &[u8],
    segments: &[u32],
    lanes: &[u32],
    zones: &[u32],
    spots: &[u32],
    points: &[i32],
    checkpoints: &[u32],
    counts: Counts,
) -> usize
    ensures { pen out.new result ≡ drawn text.now segments.now lanes.now zones.now spots.now points.now checkpoints.now counts (pen out.old at) }
{
    let a = put_bytes(out, at, b"{\"type\":\"FeatureCollection\",\"features\":[");
    let b = put_lanes(out, a, text, segments, lanes, points, counts.segments);
    let c = put_perimeters(out, b, text, zones, points, counts.segments, counts.zones);
    let d = put_checkpoints(
        out,
        c,
        segments,
        lanes,
        zones,
        spots,
        points,
        checkpoints,
        counts,
    );
    put_bytes(out, d, b"]}")
}
