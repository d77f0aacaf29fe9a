// The table of places by statements, cell by cell: what every cell says holds of every spelling of every network and mission. There is no code here.
//
// specs/Cells: what a cell says: 5, that no spelling has such a statement at such a place; a row, that every spelling goes on in it; an option, that the place stays, and whether the option may come
// again. proofs/CellLaws: the same for every machine whose table fits (grammar/proofs/Tabled). proofs/Theorems: THE THEOREMS, over the whole table, for the RNDF, in each edition, with L8's rule and without, and for the MDF.
//
// Rests on `grammar` and what it rests on.
#![tactic(auto)]
