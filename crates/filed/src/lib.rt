// Same writing, same yard (request L14): two accepted RNDFs have equal house writings exactly when they mean the same network apart from creation dates, and writing a house writing again gives the same bytes; missions likewise. There is no code here.
//
// specs/Filed: what is promised, over the contracts of the writers. proofs/Theorems: that it holds, in each edition, from those contracts alone.
// specs/Pairs, proofs/PairTexts, Pairs: two texts that differ in everything but what they mean, with equal writings; and two that differ in one option, and two in the order of stops, with others.
//
// Rests on `return_trip` (what was written), `writings`, `house_text`, `same`, `promises`, `compared` and what they rest on.
#![tactic(auto)]
