// The rows of the MDF's table: what is due at a place. Where a count says how many are owed, the row behind it stands for a place where none is.
pub const NAME_DUE: u8 = 0;

pub const RNDF_DUE: u8 = 1;

pub const CHECKPOINTS_DUE: u8 = 2;

pub const NUM_CHECKPOINTS_DUE: u8 = 3;

pub const GOAL_DUE: u8 = 4;

pub const END_CHECKPOINTS_DUE: u8 = 5;

pub const SPEED_LIMITS_DUE: u8 = 6;

pub const NUM_SPEED_LIMITS_DUE: u8 = 7;

pub const LIMIT_DUE: u8 = 8;

pub const END_SPEED_LIMITS_DUE: u8 = 9;

pub const END_FILE_DUE: u8 = 10;

pub const OVER: u8 = 11;

// How many rows there are.
pub const COUNT: usize = 12;
