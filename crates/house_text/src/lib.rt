// The house writing of a network and of a mission as bytes, and the way back: what the house writing spells. There is no code here.
//
// specs/: definitions.
//   House: the house writing over lines, what a reader must believe. HouseText: the same over statements, as the proofs have it: each statement of the house order as a line, with LF behind it. Names: a network, or a mission, whose names can be written.
// proofs/: the laws.
//   Lines: the house writing is cut into the lines it was written from, and these say the statements, with each name at its new place; for every file.
//   Moved: a statement of an RNDF, or of an MDF, at a new place; its line is the same wherever its names stood.
//   Writable: every statement of a network that keeps the ranges, and whose names are names, can be written. Named: what a text spells has such names.
//   Order, SameSpelling, References: the house order, spelling, rows and references do not look into names.
//   Lawful: House and HouseText say the same. Theorems: THE RETURN TRIP, for the RNDF and for the MDF. YardA: yard A's house writing is yard A's text.
//
// Rests on `grammar` (the house order), `text` and `line` (lines, and what a text spells), `number`, `coordinate` and `word` (fields), and `table_words` (names told in another way).
#![tactic(auto)]
