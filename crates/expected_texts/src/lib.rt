// From a refused text to what is told of it: the words that the program puts for line i are those of what the law expects there. There is no code here.
//
// proofs/: RndfTexts, MdfTexts: the place that the program finds before line i, and what is expected there. Lined, OfLine: that line's fields and their fault, as the program and as the law see them. ItemOf, MaximumWords: the field at fault.
// RndfTold, MdfTold: THE THEOREMS, the words for each number.
//
// Rests on `expected_places`, `expected_fields`, `expected_lines`, `column`, `mission_column` and what they rest on.
#![tactic(auto)]
