// The column of a refusal (request L7): what it is for the law, how it is found, and that what is found is it. There is no code here.
//
// specs/Columns: **what a reader must believe** of it, over lines and from the grammar alone. specs/Finding: the column, executable, of a line at a place, and of line i of a text; for every file.
// proofs/: Bytes, the first byte that is not allowed. Wrong: the first value with which no permitted value goes on. Taking: a place takes or refuses a kind by one test.
//   Starting: from values to fields. LineColumns: the column of a line with a fault of 2 to 9. One: a line has one column at most. TextColumns: the same of line i of a text, for 12 to 18 too.
//   Rndf, Mdf: what is asked of each file. Theorems: the theorems of both files, which other crates cite.
//
// Rests on `law_faults`, `law`, `law_spelling`, `form_faults`, `text`, `grammar`, `word`, `coordinate`, `number`, `line`, `scan` and `terms`.
#![tactic(auto)]
