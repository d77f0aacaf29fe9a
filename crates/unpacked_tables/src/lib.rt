// What is stored of a packed form (`unpacked_rows`) is what the lent tables hold of the network whose form it is (request L11). There is no code here.
//
// proofs/Fields: numbers read four bytes at a time, as code reads them. Rows: the row that each record tells. Tables: all rows of a table, stored; said once for all.
// proofs/Frame: the tests of 27 and 28 say what packed_law/specs/Packed.OfThisVersion and LengthsRight say. Judging: what a judge of 29 has to say (`Right`, `FormTold`).
// proofs/Network: of bytes that are taken, counts, file's row, room and tables are those of the network; only these are a form.
//
// Rests on `packed_tables`, `unpacked_rows`, `law_tables`, `table_words` and what they rest on.
#![tactic(auto)]
