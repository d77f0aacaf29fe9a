// Moves over a network, which routes are good, and what is wrong with the others (request L5). There is no code here.
//
// specs/Moves: what a move is, and the points of a mission's goals. specs/Routes: a good route, and 21 to 24, over any moves. proofs/Settled: a route is good or has one of these four, and only
// one; from proofs/Places, the laws of places and of goals taken one by one. proofs/Decided: whether a step is a move can be decided. proofs/Goals: every goal has a point, and only one.
// proofs/Worked: yard A's moves and routes; a lane's end, an exit one way and one to itself, a zone.
//
// Rests on `law`, `look_up` (one for one: `Paired`) and what they rest on.
#![tactic(auto)]
