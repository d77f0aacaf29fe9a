// The tests by which the mending tool decides whether a reader would take a text (request L9), executable. There is no code here: `mend` makes them over the given text, `mend_good` proves of every text that they
// tell whether a reader with room enough accepts it.
//
// specs/Tests: the walk with few tables, an exit's entry on its line.
//
// Rests on `network`, `find_line`, `references` and what they rest on.
#![tactic(auto)]
