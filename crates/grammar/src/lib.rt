// What an RNDF and an MDF are: networks and missions as trees, how each is spelled as statements, the places of a reader,
// the table of places by statements, the tables of rows, and what is proved of them. There is no code here.
//
// specs/: definitions over statements; `law` says the same over lines, and holds the tree of a network, which these hand on (`law_spelling` is the bridge).
//   Statements, Network (RNDF); MissionStatements, Mission (MDF); HouseOrder; Tables; References. They speak of spelling alone, never of reading.
//   Language says what a statement is.
//   The others (Machine, Forms, Choices, Places, MissionPlaces, PlaceTable) are the reader's places: how statements are taken one by one.
// proofs/: the laws. Theorems has the statements that other crates cite. What every cell of the table says of every spelling stands in the crate `cells`.
//
// Rests on `law` and `terms`.
#![tactic(auto)]
