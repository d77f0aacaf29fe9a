// The law's spelling of lines (crate `law`) and the spelling of statements (crates `grammar` and `text`) are the same: of fields, of lines, of every part of a file, of texts, and of
// the house order. There is no code here.
//
// specs/: LineOf, the line of the law that a statement is.
// proofs/: Fields, Lines; Mixing and Options (options in any order); RndfParts, MdfParts; OneLine (a line is one statement); House; Texts.
//
// Rests on `law`, `text`, `grammar`, `word`, `coordinate`, `number`, `line`, `scan` and `terms`.
#![tactic(auto)]
