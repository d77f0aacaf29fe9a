// What it says of a text that it gets 2 to 9 at a line, or 10: in terms of lines and of the grammar, and not of a reader's walk. There is no code here.
//
// specs/: FormFaults, over statements and the machine; `law/specs/Faults` says the same from the grammar alone (`law_faults` is the bridge).
// proofs/: FileFaults, the laws for every file; FormFaults, the same for the RNDF and for the MDF, which other crates cite.
//
// Rests on `terms`, `scan`, `line`, `number`, `coordinate`, `word`, `grammar` and `text`.
#![tactic(auto)]
