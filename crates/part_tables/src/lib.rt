// What the passes of `packed_rows` and `packed_parts` over packed bytes say of the rows told (request L11, refusal 29). There is no code here.
//
// proofs/Listed: rows by their numbers, and tables of records of one size as such rows. Fields: fields as code reads them; spots, checkpoints, stops and exits by their numbers.
// proofs/Lanes: are_lanes, and lanes_end. Checkpoints: are_checkpoints. Exits: entries by halving. Turns: what lanes leave. Zones: what zones take. Parts: are_exits and are_parts, both ways.
// Each pass is true exactly if its tables are framed (`packed_tables`/proofs/Records.all-here) and its part of `row_network`/specs/Consistent holds of the rows told. Where each table stands: `frame_tables`/proofs/Told.
//
// Rests on `packed_tables`, `row_network`, `packed_parts` and what they rest on.
#![tactic(auto)]
