// The kinds of orders, the statements of an MDF, by their columns in the table of places by statements.
pub const MDF_NAME: u8 = 0;

pub const RNDF: u8 = 1;

pub const FORMAT_VERSION: u8 = 2;

pub const CREATION_DATE: u8 = 3;

pub const CHECKPOINTS: u8 = 4;

pub const NUM_CHECKPOINTS: u8 = 5;

pub const END_CHECKPOINTS: u8 = 6;

pub const SPEED_LIMITS: u8 = 7;

pub const NUM_SPEED_LIMITS: u8 = 8;

pub const END_SPEED_LIMITS: u8 = 9;

pub const END_FILE: u8 = 10;

pub const GOAL: u8 = 11;

pub const LIMIT: u8 = 12;

// How many kinds there are. As a kind it stands for a word that is no keyword.
pub const COUNT: u8 = 13;
