// What `expected_references` lists is the law's: the declared parts (12), the name (14), the checkpoint numbers (15), and the ids without a limit (16 to 18). There is no code here.
//
// proofs/LineFields, KeywordKinds: the kind and the fields of a line, by what it says. proofs/Moves: a walk over lines, by what they say. proofs/Networks: a walk over the lines that spell a network, part by part.
// proofs/Numbers, Parts: the walks over an RNDF, what they name. proofs/Entries: the parts are exactly those with points that may be entered. proofs/ExitLines: what line i of a text says.
// proofs/Theorems: what is listed is `ListsEntries`, the name and `all_numbers`.
//
// Rests on `expected_references`, `expected_law`, `law`, `find_line` and what they rest on.
#![tactic(auto)]
