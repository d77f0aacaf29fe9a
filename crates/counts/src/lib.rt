// How many rows of each table were used, as an acceptance replies it. The readers of the two files answer it and the entry points hand it on, so it stands below both.
// There is no code here. Rests on nothing.
#![tactic(auto)]

// Of an RNDF.
#[derive(Clone, Copy)]
pub struct Counts {
    pub segments: u32,
    pub lanes: u32,
    pub zones: u32,
    pub spots: u32,
    pub points: u32,
    pub checkpoints: u32,
    pub stops: u32,
    pub exits: u32,
}

// Of an MDF.
#[derive(Clone, Copy)]
pub struct MissionCounts {
    pub goals: u32,
    pub limits: u32,
}
