// That `moves` finds the law's moves in the filled tables of an accepted network. There is no code here.
//
// specs/Reads: what a table's rows read as. proofs/Found: the search among rows read one behind the other. proofs/Spans: the parts of a network stand one behind the other.
// proofs/Groups: so do the exits of each. proofs/Filled: what the filled tables read as. proofs/Parts, Leads: the part and the exits that are searched for. proofs/Theorem: a step is a move
// exactly if `moves` says so.
//
// Rests on `moves`, `filled_rows`, `route_law`, `replies`, `law_tables` and what they rest on.
#![tactic(auto)]
