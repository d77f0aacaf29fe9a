// How statements fill the tables, and what is tested of the filled tables. There is no code here.
//
// specs/: definitions.
//   Over statements (`law` says the same over lines; `law_tables` is the bridge): Counts (how many rows the count lines declare), Faults (which row or statement is the first at fault, and with which number).
//   Executable, for contracts to cite: Filling (the fold), NetworkRows and MissionRows (the rows of an RNDF and of an MDF), Tally (rows counted on the way),
//   Resolve (entries looked up by arithmetic), FirstFaults (12, 13 and 15 to 18 over rows), FirstLines (12 to 18 over statements).
// proofs/: the laws.
//   NetworkFills, MissionFills: what is spelled fills its own tables. SizeLaws: their rows are as many as declared; CountLaws: the tally counts them.
//   ResolveLaws: found is declared. FaultLaws: the first fault, right and only. ReferenceLaws, MissionLaws: no fault is the same as right references.
//   LimitCounts: 18 by a count. ReferenceLines, MissionLines, MissionFits: the first statement at fault, by the first rows at fault.
//
// Rests on `terms`, `law` and `grammar`.
#![tactic(auto)]
