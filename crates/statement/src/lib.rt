// The statements of an RNDF and the orders of an MDF as running code has them, by value, and the names of their kinds.
// A number is what its digits say, also where no place permits it: ranges are the place's tests. A name is where it starts in the text and how long it is.
//
// specs/Meaning, specs/MissionMeaning: what each means as a statement of `grammar`. specs/Kinds, specs/MissionKinds: the column of its kind in the table of
// places by statements, and the way back from a meaning. proofs/Laws, proofs/MissionLaws: there and back again is the same.
//
// kinds.rt, orders.rt: the names of the kinds, by their columns. Rests on `number` (a point's identifier), `terms` and `grammar`.
#![tactic(auto)]

pub mod kinds;
pub mod orders;

use number::Id;

// A statement of an RNDF; the kinds in the order of the table's columns. A boundary is 1 to 4, in document 01's order.
#[derive(Clone, Copy)]
pub enum Statement {
    RndfName(u32, u32),
    NumSegments(u32),
    NumZones(u32),
    FormatVersion(u32, u32),
    CreationDate(u32, u32),
    Segment(u32),
    NumLanes(u32),
    SegmentName(u32, u32),
    EndSegment,
    Lane(u32, u32),
    NumWaypoints(u32),
    LaneWidth(u32),
    LeftBoundary(u8),
    RightBoundary(u8),
    Checkpoint(Id, u32),
    Stop(Id),
    Exit(Id, Id),
    EndLane,
    Zone(u32),
    NumSpots(u32),
    ZoneName(u32, u32),
    EndZone,
    Perimeter(u32, u32),
    NumPerimeterpoints(u32),
    EndPerimeter,
    Spot(u32, u32),
    SpotWidth(u32),
    EndSpot,
    EndFile,
    Point(Id, i32, i32),
}

// A statement of an MDF. A goal is a checkpoint number; a limit is an id, a minimum and a maximum.
#[derive(Clone, Copy)]
pub enum Order {
    MdfName(u32, u32),
    Rndf(u32, u32),
    FormatVersion(u32, u32),
    CreationDate(u32, u32),
    Checkpoints,
    NumCheckpoints(u32),
    EndCheckpoints,
    SpeedLimits,
    NumSpeedLimits(u32),
    EndSpeedLimits,
    EndFile,
    Goal(u32),
    Limit(u32, u32, u32),
}
