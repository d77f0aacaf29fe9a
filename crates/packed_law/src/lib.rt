// The packed form of a network (requests L11 and L12): its exact bytes, as docs/PACKED.md lays them down. There is no code here.
//
// specs/Packed: the bytes, where names lie in them, and what 27 and 28 ask; specs/Yards: yard A and its form: what a reader must believe.
// proofs/Worked: this form, and that of a small yard with zones, byte for byte, and where their names lie. proofs/Told: the records table by table, as proofs go, and that they are the form's. proofs/Cut: what wrong lengths rule out.
//
// Rests on `law`, `output` (numbers, the high byte first) and what they rest on. Settled: a packed form is a function of the network.
#![tactic(auto)]
