// What may stand where a line is refused: what that is for the law, the words in which planners are told, and what is answered to a caller who asks. Definitions only, and the answer's type.
//
// specs/Expected, specs/Telling, specs/Tells: **what a reader must believe** of it. specs/Items: the items that more than one place has. specs/Short: short names for the proofs. That they are exactly what may stand: `expected_exact` and what rests on it.
//
// Rests on `law_columns`, `law`, `edition` and what they rest on.
#![tactic(auto)]

// What a caller is answered: accepted is 1, and how many bytes were put, 0 where nothing is told; or 0, and number is 19. All else is 0.
#[repr(C)]
#[derive(Clone, Copy)]
pub struct ExpectedAnswer {
    pub accepted: u32,
    pub file: u32,
    pub line: u32,
    pub number: u32,
    pub column: u32,
    pub length: u32,
}
