// That what is listed at a place is exactly what may stand there. There is no code here.
//
// specs/Listed: the forms of a place of the grammar, executable.
// proofs/: Shapes, each test of a place lets through exactly what its form allows. Exact, so what is listed at a place is exactly what it takes; for every file. Files, the places of both files. Live, no form is idle.
//   Behind, Fields: behind the first fields of a line. Theorems: behind lines that begin a well-formed file, what is listed is exactly what may stand. Worked: examples.
//
// Rests on `expected_law`, `law_columns`, `law_faults`, `law` and what they rest on.
#![tactic(auto)]
