// What a reader of an RNDF has so far, by value: how many rows each table has, where the points of the last part begin, and the rows of the parts that are open.
// `after` says what a statement changes in it, `row` which row the statement gives; a part's row comes out at its end word. No table is touched here.
//
// specs/After, specs/Given: the same, executable, which the contracts cite. specs/Shown: a state and a row of the theory `fill`, as the program has them.
// proofs/Shown: the running form agrees with `fill`, statement by statement; no statement adds more than one row.
//
// Rests on `rows` (the rows by value), `room` (a count or a row's number in a word), `units`, `statement`, `fill` and `grammar`.
#![tactic(auto)]

ghost use Rattle.std.specs.Prelude.{◌≡◌, suc, pred, ◌+◌};
ghost use Rattle.grammar.specs.Tables.{first_spot_of};
ghost use Rattle.units.specs.Made.{missing_feet};
ghost use Rattle.room.specs.Room.{fitted};
ghost use Rattle.progress.specs.After.{named, no_name_of, segment_row_of, lane_row, zone_row_of, spot_row_of, no_progress, width_of, side_of, next_point_of, with_segment, with_lane, with_zone, with_spot, one_checkpoint_of, one_stop_of, one_exit_of, points_at, begun, after_within};
ghost use Rattle.progress.specs.Given.{point_of, row_of};
ghost use Rattle.statement.specs.declared.Statement.TheVariants as st;

use room::in_word;
use rows::{ExitRow, FileRow, LaneRow, PointRow, SegmentRow, SpotRow, StopRow, Stretch, ZoneRow};
use statement::Statement;
use units::{CheckpointNumber, Feet};

#[derive(Clone, Copy)]
pub struct Progress {
    // rows so far
    pub segments: u32,
    pub lanes: u32,
    pub zones: u32,
    pub spots: u32,
    pub checkpoints: u32,
    pub stops: u32,
    pub exits: u32,
    // the row of the first point of the lane, perimeter or spot that is open, or was last
    pub first: u32,
    // how many points it has so far: the next point's row is first + within
    pub within: u32,
    // the rows of the parts that are open
    pub file: FileRow,
    pub segment: SegmentRow,
    pub lane: LaneRow,
    pub zone: ZoneRow,
    pub spot: SpotRow,
}

// What a statement gives: nothing, or one row of one table. The entry of an exit is where its field starts in the text: it is looked up later.
// A checkpoint's is what its kind answers to the number, and the point: no number that the kind refuses becomes a row (no place lets one through).
#[derive(Clone, Copy)]
pub enum Row {
    Nothing,
    Segment(SegmentRow),
    Lane(LaneRow),
    Zone(ZoneRow),
    Spot(SpotRow),
    Point(PointRow),
    Checkpoint(Option<CheckpointNumber>, u32),
    Stop(StopRow),
    Exit(ExitRow),
}

// A name that is missing, and what stands where no such part is open.
const NO_NAME: Stretch = Stretch {
    start: 0,
    length: 0,
};

const NO_SEGMENT: SegmentRow = SegmentRow {
    first_lane: 0,
    lanes: 0,
    name: NO_NAME,
};

const NO_LANE: LaneRow = LaneRow {
    first_point: 0,
    points: 0,
    width: Feet(0),
    left: 0,
    right: 0,
};

const NO_ZONE: ZoneRow = ZoneRow {
    first_point: 0,
    points: 0,
    first_spot: 0,
    spots: 0,
    name: NO_NAME,
};

const NO_SPOT: SpotRow = SpotRow {
    first_point: 0,
    width: Feet(0),
};

// The width that a number is; a number that is none, as no place lets through, is the width that is missing.
fn feet(n: u32) -> Feet
    ensures { result ≡ width_of n }
{
    match Feet::new(n) {
        Some(width) => width,
        None => Feet::missing(),
    }
}

// A boundary's number, 1 to 4. No other is ever made out of a line; any other would be taken for the last, as `statement` says what it means.
fn side(boundary: u8) -> u8
    ensures { result ≡ side_of boundary }
{
    if boundary == 1 {
        1
    } else if boundary == 2 {
        2
    } else if boundary == 3 {
        3
    } else {
        4
    }
}

// A zone without spots has 0 for its first spot.
fn spots_from(spots: u32, n: u32) -> u32
    ensures { result ≡ first_spot_of spots n }
{
    if n == 0 { 0 } else { spots }
}

// How far waypoint z stands behind the first; 0 counts as the first, as no waypoint is numbered 0.
fn rows_behind(z: u32) -> u32
    ensures { result ≡ pred z }
{
    if z == 0 { 0 } else { z - 1 }
}

// A counter stops by itself where 32 bits end: that costs less than to ask on each line whether all of them have room. No text that is read comes so far.
fn one_more(n: u32) -> u32
    ensures { result ≡ fitted (suc n) }
{
    in_word(n as usize + 1)
}

// The row of the next point, behind those so far; it stops there too.
fn next_point(first: u32, within: u32) -> u32
    ensures { result ≡ fitted (first + within) }
{
    in_word(first as usize + within as usize)
}

fn named(start: u32, length: u32) -> Stretch
    ensures { result ≡ named start length }
{
    Stretch { start, length }
}

impl Progress {
    pub fn none() -> Progress
        ensures { result ≡ no_progress }
    {
        Progress {
            segments: 0,
            lanes: 0,
            zones: 0,
            spots: 0,
            checkpoints: 0,
            stops: 0,
            exits: 0,
            first: 0,
            within: 0,
            file: FileRow {
                name: NO_NAME,
                version: NO_NAME,
                date: NO_NAME,
            },
            segment: NO_SEGMENT,
            lane: NO_LANE,
            zone: NO_ZONE,
            spot: NO_SPOT,
        }
    }

    // What there is behind a statement. By its kind, each changing nothing but what its statement says: so the caller's own counts are changed where they stand.
    pub fn after(self, s: Statement) -> Progress
        ensures { result ≡ after_within s self }
    {
        match s {
            Statement::RndfName(a, l) => self.file_named(a, l),
            Statement::FormatVersion(a, l) => self.version_told(a, l),
            Statement::CreationDate(a, l) => self.date_told(a, l),
            Statement::Segment(_) => self.segment_begun(),
            Statement::NumLanes(n) => self.lanes_told(n),
            Statement::SegmentName(a, l) => self.segment_named(a, l),
            Statement::EndSegment => self.segment_ended(),
            Statement::Lane(_, _) => self.lane_begun(),
            Statement::NumWaypoints(n) => self.waypoints_told(n),
            Statement::LaneWidth(n) => self.lane_wide(n),
            Statement::LeftBoundary(b) => self.left_told(b),
            Statement::RightBoundary(b) => self.right_told(b),
            Statement::Checkpoint(_, _) => self.one_checkpoint(),
            Statement::Stop(_) => self.one_stop(),
            Statement::Exit(_, _) => self.one_exit(),
            Statement::EndLane => self.lane_ended(),
            Statement::Zone(_) => self.zone_begun(),
            Statement::NumSpots(n) => self.spots_told(n),
            Statement::ZoneName(a, l) => self.zone_named(a, l),
            Statement::EndZone => self.zone_ended(),
            Statement::Perimeter(_, _) => self.part_begun(),
            Statement::NumPerimeterpoints(n) => self.perimeterpoints_told(n),
            Statement::Spot(_, _) => self.spot_begun(),
            Statement::SpotWidth(n) => self.spot_wide(n),
            Statement::EndSpot => self.spot_ended(),
            Statement::Point(_, _, _) => self.one_point(),
            _ => self,
        }
    }

    fn file_named(mut self, start: u32, length: u32) -> Progress
        ensures { result ≡ after_within (st.RndfName start length) self }
    {
        self.file.name = named(start, length);
        self
    }

    fn version_told(mut self, start: u32, length: u32) -> Progress
        ensures { result ≡ after_within (st.FormatVersion start length) self }
    {
        self.file.version = named(start, length);
        self
    }

    fn date_told(mut self, start: u32, length: u32) -> Progress
        ensures { result ≡ after_within (st.CreationDate start length) self }
    {
        self.file.date = named(start, length);
        self
    }

    // A segment's lanes follow those of the segment before.
    fn segment_begun(mut self) -> Progress
        ensures { result ≡ with_segment (segment_row_of self.lanes 0 no_name_of) self }
    {
        self.segment = SegmentRow {
            first_lane: self.lanes,
            ..NO_SEGMENT
        };
        self
    }

    fn lanes_told(mut self, n: u32) -> Progress
        ensures { result ≡ after_within (st.NumLanes n) self }
    {
        self.segment.lanes = n;
        self
    }

    fn segment_named(mut self, start: u32, length: u32) -> Progress
        ensures { result ≡ after_within (st.SegmentName start length) self }
    {
        self.segment.name = named(start, length);
        self
    }

    fn segment_ended(mut self) -> Progress
        ensures { result ≡ after_within st.EndSegment self }
    {
        self.segments = one_more(self.segments);
        self.segment = NO_SEGMENT;
        self
    }

    // The points of a lane, perimeter or spot begin behind those of the part before.
    fn part_begun(mut self) -> Progress
        ensures { result ≡ begun fitted self }
    {
        self.first = next_point(self.first, self.within);
        self.within = 0;
        self
    }

    fn lane_begun(mut self) -> Progress
        ensures { result ≡ with_lane (lane_row (fitted (next_point_of self)) 0 missing_feet 0 0) (begun fitted self) }
    {
        let first = next_point(self.first, self.within);
        self.first = first;
        self.within = 0;
        self.lane = LaneRow {
            first_point: first,
            width: Feet::missing(),
            ..NO_LANE
        };
        self
    }

    fn waypoints_told(mut self, n: u32) -> Progress
        ensures { result ≡ after_within (st.NumWaypoints n) self }
    {
        self.lane.points = n;
        self
    }

    fn lane_wide(mut self, n: u32) -> Progress
        ensures { result ≡ after_within (st.LaneWidth n) self }
    {
        self.lane.width = feet(n);
        self
    }

    fn left_told(mut self, b: u8) -> Progress
        ensures { result ≡ after_within (st.LeftBoundary b) self }
    {
        self.lane.left = side(b);
        self
    }

    fn right_told(mut self, b: u8) -> Progress
        ensures { result ≡ after_within (st.RightBoundary b) self }
    {
        self.lane.right = side(b);
        self
    }

    fn one_checkpoint(mut self) -> Progress
        ensures { result ≡ one_checkpoint_of fitted self }
    {
        self.checkpoints = one_more(self.checkpoints);
        self
    }

    fn one_stop(mut self) -> Progress
        ensures { result ≡ one_stop_of fitted self }
    {
        self.stops = one_more(self.stops);
        self
    }

    fn one_exit(mut self) -> Progress
        ensures { result ≡ one_exit_of fitted self }
    {
        self.exits = one_more(self.exits);
        self
    }

    fn lane_ended(mut self) -> Progress
        ensures { result ≡ after_within st.EndLane self }
    {
        self.lanes = one_more(self.lanes);
        self.lane = NO_LANE;
        self
    }

    fn zone_begun(mut self) -> Progress
        ensures { result ≡ with_zone (zone_row_of (fitted (next_point_of self)) 0 0 0 no_name_of) self }
    {
        self.zone = ZoneRow {
            first_point: next_point(self.first, self.within),
            ..NO_ZONE
        };
        self
    }

    fn spots_told(mut self, n: u32) -> Progress
        ensures { result ≡ after_within (st.NumSpots n) self }
    {
        self.zone.first_spot = spots_from(self.spots, n);
        self.zone.spots = n;
        self
    }

    fn zone_named(mut self, start: u32, length: u32) -> Progress
        ensures { result ≡ after_within (st.ZoneName start length) self }
    {
        self.zone.name = named(start, length);
        self
    }

    fn zone_ended(mut self) -> Progress
        ensures { result ≡ after_within st.EndZone self }
    {
        self.zones = one_more(self.zones);
        self.zone = NO_ZONE;
        self
    }

    fn perimeterpoints_told(mut self, n: u32) -> Progress
        ensures { result ≡ after_within (st.NumPerimeterpoints n) self }
    {
        self.zone.points = n;
        self
    }

    fn spot_begun(mut self) -> Progress
        ensures { result ≡ with_spot (spot_row_of (fitted (next_point_of self)) missing_feet) (begun fitted self) }
    {
        let first = next_point(self.first, self.within);
        self.first = first;
        self.within = 0;
        self.spot = SpotRow {
            first_point: first,
            width: Feet::missing(),
        };
        self
    }

    fn spot_wide(mut self, n: u32) -> Progress
        ensures { result ≡ after_within (st.SpotWidth n) self }
    {
        self.spot.width = feet(n);
        self
    }

    fn spot_ended(mut self) -> Progress
        ensures { result ≡ after_within st.EndSpot self }
    {
        self.spots = one_more(self.spots);
        self.spot = NO_SPOT;
        self
    }

    fn one_point(mut self) -> Progress
        ensures { result ≡ points_at self.first (fitted (suc self.within)) self }
    {
        self.within = one_more(self.within);
        self
    }

    // The row that a statement gives, where the last field of its line starts at `start`.
    pub fn row(self, s: Statement, start: u32) -> Row
        ensures { result ≡ row_of s start self }
    {
        match s {
            Statement::EndSegment => Row::Segment(self.segment),
            Statement::EndLane => Row::Lane(self.lane),
            Statement::EndZone => Row::Zone(self.zone),
            Statement::EndSpot => Row::Spot(self.spot),
            Statement::Point(_, latitude, longitude) => Row::Point(PointRow {
                latitude,
                longitude,
            }),
            Statement::Checkpoint(i, n) => {
                Row::Checkpoint(CheckpointNumber::new(n), self.point_row(i.z))
            }
            Statement::Stop(i) => Row::Stop(StopRow {
                point: self.point_row(i.z),
            }),
            Statement::Exit(i, _) => Row::Exit(ExitRow {
                point: self.point_row(i.z),
                entry: start,
            }),
            _ => Row::Nothing,
        }
    }

    // The row of waypoint z of the part that is open. Options come before the points of their part, so its first point is the next row of the points.
    fn point_row(self, z: u32) -> u32
        ensures { result ≡ point_of self z }
    {
        in_word(self.first as usize + self.within as usize + rows_behind(z) as usize)
    }
}
