// The return trip: what was written of an accepted text is accepted again by the same edition, as the same network or mission but for a missing date (L12), names by their bytes. There is no code here.
//
// specs/RoundTrip, proofs/RoundTrip: THE RETURN TRIP, from the contracts of readers and writers alone: what was written of an RNDF, or of a pair, read into the same tables, is accepted with the same
// rows used and the same names, and leaves the same tables but for where names start.
// specs/ReadBack, proofs/Writings: the same network, or mission, in any tables with room, also of an MDF with the RNDF that was read; written again it is the same bytes.
// specs/Returns, proofs/Returns: what these rest on: that there is one house writing (house_text/specs/House), that it is accepted so, and what a reader then replies. proofs/Within: that it stays within the edition (L10).
// specs/OneWriting, proofs/OneWriting: what is the same apart from its date has equal writings (L12).
//
// Rests on `writings` and `replies` (the contracts), `house_text` (the house writing and what it spells), `promises`, `same` (when networks are the same) and what these rest on.
#![tactic(auto)]
