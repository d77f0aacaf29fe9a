// The own lines of an accepted text, in the order that `house_lines` puts them in, are the house writing of what the text says. There is no code here.
//
// specs/: executable. Order: `house_lines`'s order by rank, over anything that has a rank. Ranks: the rank of a statement, by its kind.
// proofs/: the laws.
//   Of statements. Settling: stretches that are put in order one behind the other. OptionRanks: the options of one rank are those of one kind. Networks,
//   Missions: the statements that spell a network or a mission, put in order, are its statements in house order.
//   Of lines. WrittenFields: a field is its house spelling, but for `-0.000000`, which is mended. WrittenLines: the fields of a line, its rank, and what is
//   written of it. Shapes: so it is of every statement. Texts: lines and what they say are put in order alike.
//   Theorems: `arranged-rndf` and `arranged-mdf`.
//
// Rests on `house_lines` (the order of lines), `house_text` (what the house writing is), `text`, `line`, `grammar`, and on what these rest on.
#![tactic(auto)]
