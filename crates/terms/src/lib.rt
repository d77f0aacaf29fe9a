// The words that every definition of the project uses, in specs/, and the laws of those words, in proofs/.
// There is no code here. Rests on the kit's libraries alone.
#![tactic(auto)]
