// What the passes of `packed_frame` say of packed bytes (request L11): each says exactly its part of the test for 29, of the rows that the bytes tell (`packed_tables`/proofs/Whole.rows-told). There is no code here.
//
// proofs/Fields: numbers and names at a place, records with a name. Passes: so many records, one behind the other. File, Segments, Zones, Spots: the passes, both ways: what passes is so (`..-so`), and all that is so passes (`..-all`). Told: where each table stands, table by table. Frame: the passes together.
//
// Rests on `packed_tables`, `packed_frame` and what they rest on.
#![tactic(auto)]
