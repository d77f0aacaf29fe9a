// What unpacking replies (request L11), and its contract, apart from the code that keeps it; and what is promised of packing and unpacking together. There is no code here.
//
// What a reader must believe: specs/Unpacks, the contract; specs/Trip: one form, one network, unpacking gives the network back and takes no other bytes, there and back; specs/Cases: a table of bytes that are refused, and yard A's form. The contract of packing is `writings`/specs/Writes, `WritesPacked`. A reply is a reader's (`replies`).
// proofs/Settled: no second reply and no second memory satisfies the contract (that one does is `packed_tables`/proofs/Some).
//   From Kept (a form's network keeps the ranges, its names are short), Framing (a form's lengths are right), Cutting (bytes give back slots), Rows (records of typed rows), OneNetwork.
// proofs/OneForm: one network has one form. Placing: names where the form has them. Trip: gives-back, no-others, there-and-back. Cases: the table under one theorem, `all-refused`; `yard-unpacked`.
//
// Rests on `packed_law`, `writings`, `replies`, `same`, `promises` and what they rest on.
#![tactic(auto)]
