// What document 01 says of texts, in the fewest words: how a network and a mission are spelled as lines, what is wrong with a line, the rows of every table. The contracts of the
// entry points rest on it. There is no code here.
//
// specs/: Network (what an RNDF and an MDF say, what is permitted, how it is spelled), Tables, Faults; House, of the writers; Same, of unpacking. Short, Along: short names, nothing to believe.
// Rests on `line`, `number`, `coordinate`, `scan` and `terms`.
#![tactic(auto)]
