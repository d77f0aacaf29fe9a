// Fields that stand one behind the other in a text make a line, and what a line of them gets at a place: whoever reads a line where it stands, and not cut out first, has the judge's
// answer. For every file. There is no code here.
//
// specs/LineStands: fields that stand up to a line's end, and a line of the text with these fields; what a statement alone gets at a place. proofs/Fields: such a line, field by field from its end on.
// proofs/Judged: THE LAW: 2, 3, 4, 7 and 8 are excluded, and 5, 6, 9 and 25 are left.
//
// Rests on `plain_parts`, `judge`, `line`, `scan` and what they rest on.
#![tactic(auto)]
