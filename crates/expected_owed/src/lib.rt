// How many points, goals or limits are still owed at a place where nothing else may stand. There is no code here.
//
// specs/Owed: so many, executable, by the place alone.
// proofs/: Owing, for every file: behind statements that lead to a place, whole files go on with as many lines that begin with numbers as the place owes. Theorems: the places of both files.
//
// Rests on `expected_law`, `law_faults`, `law_spelling`, `text`, `grammar`, `law`, `line` and `terms`.
#![tactic(auto)]
