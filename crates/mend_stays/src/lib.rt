// An accepted text comes out of the mending tool the same, with an empty list (request L9). There is no code here.
//
// specs/Again: what was mended once needs no second mending. specs/Said: what the three changes hang on, over what lines say.
// proofs/: from bytes to what is said, Fields, Lines; from what is said to the list, Alike, Told, Unlisted. What lines say, over lists: Passing (tests of first fields), Counting (counts), Giving
// and Groups (options). Part by part: Lanes, Segments, Perimeters, Spots, Zones, Networks. Stays: the theorems, and what the contract then gives.
//
// Rests on `mend_law` and what it rests on.
#![tactic(auto)]
