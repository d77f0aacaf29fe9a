// The kinds of statements of an RNDF, by their columns in the table of places by statements.
pub const RNDF_NAME: u8 = 0;

pub const NUM_SEGMENTS: u8 = 1;

pub const NUM_ZONES: u8 = 2;

pub const FORMAT_VERSION: u8 = 3;

pub const CREATION_DATE: u8 = 4;

pub const SEGMENT: u8 = 5;

pub const NUM_LANES: u8 = 6;

pub const SEGMENT_NAME: u8 = 7;

pub const END_SEGMENT: u8 = 8;

pub const LANE: u8 = 9;

pub const NUM_WAYPOINTS: u8 = 10;

pub const LANE_WIDTH: u8 = 11;

pub const LEFT_BOUNDARY: u8 = 12;

pub const RIGHT_BOUNDARY: u8 = 13;

pub const CHECKPOINT: u8 = 14;

pub const STOP: u8 = 15;

pub const EXIT: u8 = 16;

pub const END_LANE: u8 = 17;

pub const ZONE: u8 = 18;

pub const NUM_SPOTS: u8 = 19;

pub const ZONE_NAME: u8 = 20;

pub const END_ZONE: u8 = 21;

pub const PERIMETER: u8 = 22;

pub const NUM_PERIMETERPOINTS: u8 = 23;

pub const END_PERIMETER: u8 = 24;

pub const SPOT: u8 = 25;

pub const SPOT_WIDTH: u8 = 26;

pub const END_SPOT: u8 = 27;

pub const END_FILE: u8 = 28;

pub const POINT: u8 = 29;

// How many kinds there are. As a kind it stands for a word that is no keyword.
pub const COUNT: u8 = 30;
