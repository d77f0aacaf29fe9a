// The rows that bytes of a packed form tell, and whether the bytes are some network's form (request L11, refusal 29). There is no code here.
//
// proofs/Numbers: numbers back from bytes. Reading: slots and rows back from bytes. Names: names of a network and of its tables.
// proofs/Forms: bytes are a network's form exactly if they are the form of the rows read, names in place and right, and these are consistent. Some: 29 is decided, and there is a reply that the contract of unpacking allows (with `unpackings`/proofs/Settled: exactly one).
// proofs/Records, Whole: the same record by record, as code goes. Fixed, Points: the walks of `packed_rows` are those.
//
// Rests on `row_network`, `unpackings`, `packed_rows` and what they rest on.
#![tactic(auto)]
