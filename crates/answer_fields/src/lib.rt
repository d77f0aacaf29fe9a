// What the library for C and Rust answers, field by field (include/kastepuhm.h), and the contracts of its functions, apart from the code that keeps them. There is no code here.
//
// specs/Answers: the fields, for each case of a reader's or writer's reply, and the contracts: what a reader must believe, with those of the readers and writers (replies/specs/Replies,
// writings/specs/Writes), of unpacking (unpackings/specs/Unpacks), of mending (mend_law/specs/Mends), of the checker of routes (pair_checks/specs/Checks), of the question whether a mission can be driven (reach_checks/specs/Checks) and of the look-up (look_up/specs/LookUp, Listed). proofs/Settled, RouteSettled, MissionSettled, UnpackSettled, MendSettled, PointSettled, ListSettled: no second answer and no second memory satisfies them, and one does. proofs/MissionAgreed: some route is accepted exactly if the mission can be driven. proofs/Whole: an answer tells the whole reply.
//
// Rests on `writings`, `unpackings`, `packed_tables`, `mend_law`, `pair_checks`, `reach_checks`, `look_up` and what they rest on.
#![tactic(auto)]

// A name: its start and length in the lent text, or in the lent packed bytes. A missing name is 0, 0.
#[repr(C)]
#[derive(Clone, Copy)]
pub struct Name {
    pub start: u32,
    pub length: u32,
}

// accepted is 1 or 0. Where it is 0, file, line, number and column are the refusal's and all else is 0; where it is 1, they are 0.
// Where no MDF was read, its fields are 0.
#[repr(C)]
#[derive(Clone, Copy)]
pub struct Answer {
    pub accepted: u32,
    pub file: u32,
    pub line: u32,
    pub number: u32,
    pub column: u32,
    pub segments: u32,
    pub lanes: u32,
    pub zones: u32,
    pub spots: u32,
    pub points: u32,
    pub checkpoints: u32,
    pub stops: u32,
    pub exits: u32,
    pub goals: u32,
    pub limits: u32,
    pub rndf_name: Name,
    pub rndf_version: Name,
    pub rndf_date: Name,
    pub mdf_name: Name,
    pub mdf_rndf: Name,
    pub mdf_version: Name,
    pub mdf_date: Name,
}

// What a writer answers: as the reader of these texts, or 19; and how many bytes it wrote, 0 where it refused.
#[repr(C)]
#[derive(Clone, Copy)]
pub struct WriteAnswer {
    pub answer: Answer,
    pub length: u32,
}

// What the look-up of a list answers: accepted is 1, and file, line, number and column are 0; or 0, and they are the refusal's.
#[repr(C)]
#[derive(Clone, Copy)]
pub struct ListAnswer {
    pub accepted: u32,
    pub file: u32,
    pub line: u32,
    pub number: u32,
    pub column: u32,
}

// What the mending tool answers: accepted is 1, how many rows of the list it used and how many bytes it wrote; or 0, and file, line, number and column are the refusal's. All else is 0.
#[repr(C)]
#[derive(Clone, Copy)]
pub struct MendAnswer {
    pub accepted: u32,
    pub file: u32,
    pub line: u32,
    pub number: u32,
    pub column: u32,
    pub rows: u32,
    pub length: u32,
}
