// The column of a refusal as a program finds it, over its own statements and places, and that this is the law's column. There is no code here.
//
// specs/Locating: the column of a line and of line i of a text, executable, for every file; RndfColumns, MdfColumns: of each file.
// proofs/Bounds: by which scans a byte is found, and that no column is far behind its line. Ties, RndfTies, MdfTies: it is what `law_columns` finds over the machine's places; Theorems: in a whole text.
//
// Rests on `judge`, `mission_judge`, `made_out`, `place`, `mission_place`, `law_columns`, `refusal` and what they rest on.
#![tactic(auto)]
