// When two networks (that is `law`'s, handed on), or two missions, that texts spell are the same: each name by its bytes, wherever it stands in its text. There is no code here, and nothing to prove.
//
// specs/Same: the two, which the return trip and any later part that gives a network back (another form of it, or one without its date) speak of.
//
// Rests on `grammar` (names told in another way), `text` (a name as its bytes) and what they rest on.
#![tactic(auto)]
