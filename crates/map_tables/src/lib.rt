// What `features` puts of the filled tables of an accepted network is that network's map. There is no code here.
//
// specs/Marked: a list with commas, told from the place of each in the list. specs/Passed: a walk over checkpoints' rows.
// proofs/:
//   Marks: that a list with commas by place is JSON's list. Reading: that filled tables read as their rows.
//   Shapes, Identifiers, Features: positions, rings, names, identifiers and features. Lanes, Segments, Perimeters: those of all lanes and perimeters.
//   Passing: walks one behind the other. Checkpoints: the walk over a part. LaneCheckpoints, SpotCheckpoints: over all segments, over all zones.
//   Theorem: the theorem of the whole, `map-drawn`.
//
// Rests on `replies`, `features`, `filled_rows`, `map_law`, `table_words`, `law_tables` and what they rest on.
#![tactic(auto)]
