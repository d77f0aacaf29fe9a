// What the words of every lent table are. There is no code here.
//
// specs/: definitions.
//   Over typed rows (`law/specs/Tables` says the same; `law_tables` is the bridge): Words (the words of each table of a network and of a mission, a lent table that holds rows, zero, room for rows),
//   FileRows (the file's own row, which is part of the reply).
//   Executable, for contracts to cite: Shown (the program's typed row of each row of the grammar), Named (tables with their names told in another way).
// proofs/: the laws.
//   Shown: the program's typed rows have exactly these words. Filled: rows stored one by one into cleared tables are the filled tables.
//   Bounds: the numbers in the rows of a good network and mission. RowsAtMost: how many rows a text can have.
//   Spelled, Renamed: the same network, tables and words, whether its names are known as fields or as start and length. Examples: words worked out by hand.
//
// Rests on `rows` and `units` (the typed rows and how they lie), `fill` and `grammar` (the tables), `text`, `line`, `made_out` and `statement` (names and their places).
#![tactic(auto)]
