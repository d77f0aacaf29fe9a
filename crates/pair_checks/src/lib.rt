// The contracts of the parts that judge an accepted pair of texts: they read first and refuse as the reader does, then say whether something is right of the network and of the points
// of its goals (request L5: a route; L13: whether the mission can be driven). Apart from the code that keeps them. There is no code here.
//
// specs/Checks: the contracts, what a reader must believe, with route_law. proofs/Judged: whatever is asked of the pair, if one thing is right or wrong of it and only one, then the contract
// settles the reply and every lent word. proofs/RouteSettled: so does that of routes, and one reply and memory satisfy it. proofs/AllAndOnly: good routes are all accepted, and no others.
//
// Rests on `replies`, `route_law`, `room` and what they rest on.
#![tactic(auto)]
