// The law's faults 2 to 10 and 25 (crate `law`), stated over lines and from the grammar alone, are those of `text` and `form_faults`, which go through the places. There is no code here.
//
// specs/Bare: what 25 tells of the lines before, and of the line.
// proofs/: Sorts, lines of the same sorts are lines of one kind; Moved, a line's faults do not depend on where it starts; both for every file.
//   Needs: what is asked of a file. Reached: lines begin a well-formed file if and only if they are taken. Opening: which field opens a line. Misspelt: the first field that is not of its kind. Again: an option that was given.
//   LineFaults: 2 to 9, where no option has to be given; Unmarked: 2 to 9 and 25; BadLines: these in a text, and 10. BareSpots, BareTold: 25 at the first waypoint of a bare spot and only there; SpotCases: texts with a spot, by computation; in each edition.
//   Listed, Rndf, Mdf: what is asked, of each file. Theorems: the theorems of both files, which other crates cite.
//
// Rests on `law`, `law_spelling`, `form_faults`, `text`, `grammar`, `word`, `coordinate`, `number`, `line`, `scan` and `terms`.
#![tactic(auto)]
