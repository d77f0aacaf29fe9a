// What the functions of `references`, and `marks::first_repeat`, answer over the tables that a walk over an RNDF has filled. There is no code here.
//
// specs/: ExitStarts, executable: the exits' rows that hold where their entries start, and what is answered of the exits of a network.
// proofs/: the laws, for a text that spells a network.
//   Entries: the entries at these starts are those of the text's exits. Looks: what is read of the words of the filled tables are the rows of the
//   network's tables. Theorems: `resolve_exits` finds the first undeclared entry or leaves the network's own exits, `first_repeat` the first repeated number.
//
// Rests on `references` and `marks` (what their functions answer over given rows), `walk` (where statements stand), `network` (where the entries of the exits start), `table_words` (the words of the tables), `fill` (the
// first faults), `text`, `line`, `grammar`, and on what these rest on.
#![tactic(auto)]
