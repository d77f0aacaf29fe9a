// The rows of the RNDF's table: what is due at a place. Where a count says how many are owed, the row behind it stands for a place where none is.
pub const NAME_DUE: u8 = 0;

pub const NUM_SEGMENTS_DUE: u8 = 1;

pub const NUM_ZONES_DUE: u8 = 2;

pub const FIRST_SEGMENT_DUE: u8 = 3;

pub const SEGMENT_DUE: u8 = 4;

pub const ZONE_DUE: u8 = 5;

pub const END_FILE_DUE: u8 = 6;

pub const NUM_LANES_DUE: u8 = 7;

pub const FIRST_LANE_DUE: u8 = 8;

pub const LANE_DUE: u8 = 9;

pub const END_SEGMENT_DUE: u8 = 10;

pub const NUM_WAYPOINTS_DUE: u8 = 11;

pub const FIRST_WAYPOINT_DUE: u8 = 12;

pub const WAYPOINT_DUE: u8 = 13;

pub const END_LANE_DUE: u8 = 14;

pub const NUM_SPOTS_DUE: u8 = 15;

pub const PERIMETER_DUE: u8 = 16;

pub const NUM_PERIMETERPOINTS_DUE: u8 = 17;

pub const FIRST_PERIMETERPOINT_DUE: u8 = 18;

pub const PERIMETERPOINT_DUE: u8 = 19;

pub const END_PERIMETER_DUE: u8 = 20;

pub const SPOT_DUE: u8 = 21;

pub const END_ZONE_DUE: u8 = 22;

pub const FIRST_OF_SPOT_DUE: u8 = 23;

pub const SECOND_OF_SPOT_DUE: u8 = 24;

pub const END_SPOT_DUE: u8 = 25;

pub const OVER: u8 = 26;

// How many rows there are.
pub const COUNT: usize = 27;
