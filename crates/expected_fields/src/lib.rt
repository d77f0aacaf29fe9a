// What may stand in place of a field at fault (8 and 9): the item with its number in the form of the line's kind. There is no code here.
//
// specs/AtFields: that item, executable, over the places of the grammar; whether the fields before it are permitted; what is told. specs/FileFields: the same of each file.
// proofs/: Instances, the instances of a form, field by field. Passing, the fields before one by their values. Here, the form of a kind is exactly what its place lets through. NextField, so it is exactly what a field may be, behind permitted fields and by itself.
//   Faults, what is told of 8 and 9 is what the law expects; for every file. Editions, the field is the same in every edition. Words, Maximum, the words by the item alone, but for a limit's maximum. Files, the theorems of both files, which other crates cite.
//
// Rests on `expected_exact`, `expected_law`, `editions`, `law_columns`, `law_faults`, `law` and what they rest on.
#![tactic(auto)]
