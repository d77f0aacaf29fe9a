// The fields of a line, and the last of them. There is no code here.
//
// specs/LineFields: the fields of a line that starts at a place of the text, and where the last of them starts. proofs/LastField: what stands behind the last field in the text.
//
// Rests on `line`, `scan`, `terms`.
#![tactic(auto)]
