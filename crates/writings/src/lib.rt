// What the writers `write_rndf`, `write_map`, `write_packed` and `write_mdf` reply, and their contracts, apart from the code that keeps them. One contract, `Writes`, serves every writing of a network. There is no code here.
//
// specs/Writes: the contracts, what a reader must believe. proofs/Settled, proofs/MdfSettled: no second reply and no second memory satisfies them, and one does, for all texts, tables
// and outputs; from the readers' contracts (`replies`) and proofs/OneWriting: a text has one house writing, one map and one packed form.
//
// Rests on `replies`, `house_text`, `map_law`, `packed_law`, `output` and what they rest on.
#![tactic(auto)]

use counts::{Counts, MissionCounts};
use refusal::Refusal;
use rows::{FileRow, MissionFileRow};

// An RNDF: what the reader replies and how many bytes were written; or a refusal.
pub type WriteReply = Result<(Counts, FileRow, u32), Refusal>;

// The MDF of a pair, likewise.
pub type WriteMdfReply = Result<(Counts, FileRow, MissionCounts, MissionFileRow, u32), Refusal>;
