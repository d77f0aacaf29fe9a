// What a text spells: fields spell what a statement says, lines spell statements, a text spells a network or a mission. And how a reader
// that takes one line at a time answers: the faults 2 to 10. There is no code here.
//
// specs/: Said, RndfLines, MdfLines, Spelling and Faults, over statements (`law` says the same over lines); Judge is executable.
// proofs/: the laws; Theorems has the statements that other crates cite.
//
// Rests on `terms`, `scan`, `line`, `number`, `coordinate`, `word` and `grammar`.
#![tactic(auto)]
