// What the entry points `read_rndf` and `read_pair` reply, and their contracts, apart from the code that keeps them: whoever only reads what is promised needs no reader. There is no
// code here.
//
// specs/Replies: the contracts, what a reader must believe. proofs/Settled: no second reply and no second memory satisfies them, and one does, for all texts and tables; from
// proofs/OneAnswer, which says it of one file, whichever it is, proofs/Alone, what is settled of each fault alone, and proofs/Decided: every text gets an answer. proofs/Said: what a reply alone says.
//
// Rests on `refusal`, `counts`, `rows`, `law`, and for the proofs on the bridges (`law_spelling`, `law_faults`, `law_tables`) and what they rest on.
#![tactic(auto)]

use counts::{Counts, MissionCounts};
use refusal::Refusal;
use rows::{FileRow, MissionFileRow};

// An RNDF alone: the rows used of each table and the file's own row; or a refusal.
pub type RndfReply = Result<(Counts, FileRow), Refusal>;

// An RNDF with its MDF: the rows used and the file's own row, of both; or a refusal.
pub type PairReply = Result<(Counts, FileRow, MissionCounts, MissionFileRow), Refusal>;
