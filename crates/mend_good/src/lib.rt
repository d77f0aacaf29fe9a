// When a reader with room enough accepts a text, told by walks over it that are lent few tables (request L9). There is no code here.
//
// proofs/: the tables that such a walk leaves are the network's (Left); every exit's entry, line by line (Entries); **the tests tell whether it is accepted** (Deciding);
// the rows of segments, lanes and zones of a network fit into twice as many words as it has lines (Room).
//
// Rests on `mend_law`, `network_reader`, `reader`, `network` and what they rest on.
#![tactic(auto)]
