// Which line of a text is the first at fault with a number of 12 to 18. There is no code here.
//
// specs/FaultLines: what a line says behind the lines before it, and the first line at fault. Every promise of a line with 12 to 18 rests on it.
// proofs/: the laws.
//   LineOne: a line says one thing only, wherever it stands. LinesGrow: a later statement stands on a later line. Said: line i says the statement that stands there.
//   Files: this for the RNDF and the MDF; a statement is at fault with one number only.
//   Ties: the first line at fault is that of the first statement at fault (`fill`); it is one; no line is at fault where no statement is.
//   RndfFaults: 12 and 13 by the first rows at fault, on the lines that `find_line` finds. MdfFaults: 14 to 18 likewise; it rests on Places, MissionOrder, MissionFaults.
//
// Rests on `find_line`, `walk`, `fill`, `form_faults` (where a line starts), `text` and what they rest on.
#![tactic(auto)]
