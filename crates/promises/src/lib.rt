// What the entry points promise: theorems that follow from the contracts of `read_rndf` and `read_pair` (the crate `reader`) alone, whatever code meets them, in each edition (L10). There is no code here.
//
// specs: what these theorems speak of beside the contracts, and a reader must believe. proofs/Promises, PairPromises: acceptance, meaning and refusal, in document 01's words;
// Forms: well-formed is no fault of 2 to 10; Names: asking for a name. proofs/YardA, NineCases: yard A, and its nine cases in one table. proofs/ShutOut, PairShutOut: the readers
// that document 01 wants shut out are; EditionCases: and one that does not heed the edition. proofs/Keeping: what was accepted before L3, or by the older edition, is accepted, with the same tables. No statement here speaks of anything but `law`,
// `reader`/Replies, `rows`/Name and specs: statements, kinds and the machine stand only in proofs (Counted, YardTexts, MissionTexts, EditionCases).
//
// Rests on `reader` and what it rests on.
#![tactic(auto)]
