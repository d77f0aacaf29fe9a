// What comes out of the mending tool, going forward (`mend_pieces`), is what the law says (request L9). There is no code here.
//
// proofs/: Bounds, where a number that is replaced stands in its line; Told, the pieces are the law's mended text, the rows its listed rows; Lines, **the mended text is cut into the lines that come out**;
// Recounted, a line whose number is replaced stays a count line.
//
// Rests on `mend_pieces`, `mend_lines`, `mend_law` and what they rest on.
#![tactic(auto)]
