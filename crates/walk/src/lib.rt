// A text walked line by line, each statement put into what was gathered so far, with where it stands: for every file and everything gathered.
// The loops over lines are written out for each file, and are held to `walked`. The one thing gathered for both files stands here: the line of a statement.
//
// specs/Walking: the walk, executable. specs/Standing: where statements stand: on the lines that are not blank. specs/Seeing: the line of the row-th statement of a kind.
// proofs/Walked: a walk finds what `text` answers: the first fault with its line, 10, or what all statements gather.
// proofs/Cutting: one line of a text, for a loop over it. proofs/SeenLaws: the line that is seen is where the statement stands.
//
// Rests on `judge` and what it rests on, and on `fill`.
#![tactic(auto)]

ghost use Rattle.std.specs.Prelude.{◌≡◌};
ghost use Rattle.walk.specs.Seeing.{none_seen, more_seen};

// A count that is as large as 32 bits hold stays there.
const FULL: u32 = 4294967295;

// How many statements of one kind were seen, and the line of the one that is looked for: 0 until it is met.
#[derive(Clone, Copy)]
pub struct Seen {
    pub count: u32,
    pub line: u32,
}

impl Seen {
    pub fn none() -> Seen
        ensures { result ≡ none_seen }
    {
        Seen { count: 0, line: 0 }
    }

    // Behind a statement that stands on `line`: of the kind or not. Looked for is the one with the number `row`, from 0.
    pub fn more(self, wanted: bool, row: u32, line: u32) -> Seen
        ensures { result ≡ more_seen wanted row line self }
    {
        if self.count == FULL {
            self
        } else if wanted {
            let count = self.count + 1;
            if self.count == row {
                Seen { count, line }
            } else {
                Seen {
                    count,
                    line: self.line,
                }
            }
        } else {
            self
        }
    }
}
