// Where a line starts makes no difference to a walk over an RNDF but for where names start, and exits' entries (request L9). There is no code here.
//
// specs/Plain: statements, what there is so far and tables, without where names start. proofs/: what a line says at two starts is the same but for these (Lines); so is what a statement
// gives and what is stored (Stored); a step of the walk (Walks).
//
// Rests on `network`, `edition_judge`, `progress`, `place`, `judge`, `rows`, `references` (what is read of the tables) and what they rest on.
#![tactic(auto)]
