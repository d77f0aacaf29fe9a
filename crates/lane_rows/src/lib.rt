// Each lane, perimeter and spot fills the point table from its first row on, and the walk over an RNDF touches no row before it. There is no code here.
//
// specs/Rows: what that says of the walk (network/specs/Reaching), from the line that opens the part on. proofs/Rows: THE THEOREM.
//
// Rests on `network` and what it rests on.
#![tactic(auto)]
