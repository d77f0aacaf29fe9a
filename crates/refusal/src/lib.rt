// What a refusal says, in one shape for every crate: line and number of the text at hand (`Fault`), and with the file and the column (`Refusal`) as the entry points reply it.
//
// specs/Shapes: a fault made of its numbers. specs/Numbers: which numbers are of form and which of references, in document 01's words. specs/Size: 1, a text that is too long.
// proofs/Apart: the numbers of form, of references, 1, 10 and 11 are apart. proofs/Sized: either side of the longest text.
//
// Rests on `terms`.
#![tactic(auto)]

// 1: a text over so many bytes.
pub const LONGEST_TEXT: usize = 16777215;

// Line and number, of the text that is being read.
#[derive(Clone, Copy)]
pub struct Fault {
    pub line: u32,
    pub number: u8,
}

// File (1 RNDF, 2 MDF), line, number and column (0 where there is none), as document 01 and L7 of document 02 list them.
#[derive(Clone, Copy)]
pub struct Refusal {
    pub file: u8,
    pub line: u32,
    pub number: u8,
    pub column: u32,
}
