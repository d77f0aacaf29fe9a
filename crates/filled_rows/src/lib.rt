// Rows that are read one behind the other, from a row on, and that a filled table is read so. There is no code here.
//
// specs/From: from a row on these are read, whatever reads. proofs/From: of a list in two parts, at one place, told in another way; and THE LAWS: a filled table that has room reads as its rows
// (`filled-from`, of any form of row) and as the words of its rows (`words-from`).
//
// Rests on `rows`, `terms` and what they rest on.
#![tactic(auto)]
