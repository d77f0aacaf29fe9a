// What the tests of `marks` answer over the tables of a network and of a mission: the first goal that is no checkpoint of the RNDF (15), the first limit whose id the
// RNDF has not (16) or that was given before (17). There is no code here. 18 is a count and needs no test over rows (`fill`, proofs/LimitCounts).
//
// specs/Numbers: the refusal that each answer stands for. proofs/Laws: over the tables that hold given rows the refusals are those of `fill`.
//
// Rests on `marks`, `fill`, `rows`, `units`, `terms` and what they rest on.
#![tactic(auto)]
