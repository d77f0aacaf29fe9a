// The law's tables and reference faults (crate `law`) are those of the inner definitions (crates `grammar`, `fill`, `table_words`, `fault_lines`). There is no code here.
//
// specs/Used: the rows used of each table. proofs/: the laws.
//   SameRows: the rows of every table. Entries: the row of an entry's point. SameTables: what the lent tables hold, how many rows are used, when there is room. Rooms: that `room` tests it.
//   NamesStand: every name stands in the text and has a byte at least.
//   SameFits: when a mission fits a network.
//   Among, LineFaults: the first line at fault, for every file. RndfFirst: 12 and 13. MdfFirst: 14 to 18.
//
// Rests on `fault_lines`, `table_words`, `law_spelling`, `fill`, `room`, `counts`, `law` and what they rest on.
#![tactic(auto)]
