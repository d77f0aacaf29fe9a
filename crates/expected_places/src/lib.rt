// That the forms which the program lists at its place are exactly what may stand there. There is no code here.
//
// proofs/: Keywords, the words of the program's items. RndfForms, RndfKinds, MdfForms: at a place that stands for the machine's, the form of each kind is the machine's form, the lists have the same forms (SameForms, KindListed), and as many lines are owed.
// RndfPlaces, MdfPlaces: so what is listed there is expected (OwedBehind), and the form of a line's kind is what is expected of its fields. LineWalks: the place behind lines that are taken stands for the machine's.
//
// Rests on `expected_forms`, `expected_exact`, `expected_owed`, `judge`, `mission_judge` and what they rest on.
#![tactic(auto)]
