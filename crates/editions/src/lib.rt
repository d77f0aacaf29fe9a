// The editions of the format (request L10) beside each other: what an older one refuses beside the present one, and that it takes all else as the present one does. There is no code here.
//
// specs/Bars: the number that a statement gets which the edition does not have. proofs/: Steps: the places of both. Barred: a line of an edition gets what it gets in the present one, or that number.
//
// Rests on `law_columns`, `text`, `grammar` and what they rest on.
#![tactic(auto)]
