// Where a reader of an MDF stands: what is due and how many goals or limits are still owed, and one step, from an order to the next place or a refusal.
// Which order may stand where is one table of places by statements, which is lent: `cell` looks a kind up in it, once for a line. By that cell `refuses` tells
// 5 and 6, before a field is read, and `step` tells 5, 6 and 9; `number_kind` tells what a line that begins with a digit is here. Every number and every place is handled: nothing here requires anything.
//
// specs/Step: the same, executable, which the contracts cite. proofs/: it is the grammar's machine, step by step (Theorems).
//
// Rests on `terms`, `grammar`, `statement`, `permitted` and `place_table`.
#![tactic(auto)]

ghost use Rattle.std.specs.Prelude.{◌≡◌};
ghost use Rattle.place_table.specs.Verdicts.{verdict_of};
ghost use Rattle.mission_place.specs.Step.{permits_of, placed, first_place, after_of, index_of, has_of, opted_of, due_of, option_of, cell_of, by_cell, refuses_by, over_of, number_kind_of};

use permitted;
use place_table;
use place_table::mdf;
use statement::{Order, orders};

// The place: the row of what is due; how many goals or limits are still owed; the single options given.
#[derive(Clone, Copy)]
pub struct MissionPlace {
    pub row: u8,
    pub owed: u32,
    pub version: bool,
    pub date: bool,
}

// Are the order's values permitted? It is the same at every place.
fn permits(s: Order) -> bool
    ensures { result ≡ permits_of s }
{
    match s {
        Order::NumCheckpoints(k) => permitted::counted(k),
        Order::NumSpeedLimits(k) => permitted::counted(k),
        Order::Goal(k) => permitted::checkpoint_number(k),
        Order::Limit(i, a, b) => permitted::limited(i, a, b),
        _ => true,
    }
}

impl MissionPlace {
    // A place with no option given.
    fn at(row: u8, owed: u32) -> MissionPlace
        ensures { result ≡ placed row owed }
    {
        MissionPlace {
            row,
            owed,
            version: false,
            date: false,
        }
    }

    // Before the first order.
    pub fn start() -> MissionPlace
        ensures { result ≡ first_place }
    {
        MissionPlace::at(mdf::NAME_DUE, 0)
    }

    // `end_file` was taken.
    pub fn is_over(self) -> bool
        ensures { result ≡ over_of self }
    {
        self.row == mdf::OVER
    }

    // The place after the due order, in the row that the table gives.
    fn after(self, s: Order, row: u8) -> MissionPlace
        ensures { result ≡ after_of self s row }
    {
        let owed = self.owed;
        match s {
            Order::NumCheckpoints(k) => MissionPlace::at(row, k),
            Order::NumSpeedLimits(k) => MissionPlace::at(row, k),
            Order::Goal(_) => MissionPlace::at(row, permitted::less(owed)),
            Order::Limit(_, _, _) => MissionPlace::at(row, permitted::less(owed)),
            _ => MissionPlace::at(row, owed),
        }
    }

    // The table's row: one with nothing more owed is another.
    fn index(self) -> u8
        ensures { result ≡ index_of self }
    {
        let row = self.row;
        match row {
            mdf::GOAL_DUE => permitted::owed_row(
                self.owed,
                mdf::GOAL_DUE,
                mdf::END_CHECKPOINTS_DUE,
            ),
            mdf::LIMIT_DUE => permitted::owed_row(
                self.owed,
                mdf::LIMIT_DUE,
                mdf::END_SPEED_LIMITS_DUE,
            ),
            _ => row,
        }
    }

    fn has(self, slot: u8) -> bool
        ensures { result ≡ has_of self slot }
    {
        match slot {
            1 => self.version,
            2 => self.date,
            _ => false,
        }
    }

    fn opted(self, slot: u8) -> MissionPlace
        ensures { result ≡ opted_of self slot }
    {
        match slot {
            1 => MissionPlace {
                version: true,
                ..self
            },
            2 => MissionPlace { date: true, ..self },
            _ => self,
        }
    }

    fn due_step(self, s: Order, row: u8) -> Result<MissionPlace, u8>
        ensures { result ≡ due_of self s row }
    {
        if permits(s) {
            Ok(self.after(s, row))
        } else {
            Err(9)
        }
    }

    fn option_step(self, s: Order, slot: u8) -> Result<MissionPlace, u8>
        ensures { result ≡ option_of self s slot }
    {
        if self.has(slot) {
            return Err(6);
        }
        if permits(s) {
            Ok(self.opted(slot))
        } else {
            Err(9)
        }
    }

    // What a line that begins with a digit is here: the column of a goal or of a limit, or 255 where neither is due.
    pub fn number_kind(self) -> u8
        ensures { result ≡ number_kind_of self }
    {
        match self.index() {
            mdf::GOAL_DUE => orders::GOAL,
            mdf::LIMIT_DUE => orders::LIMIT,
            _ => place_table::REFUSED,
        }
    }

    // The cell of a kind in the table that is lent; refused where there is no such kind.
    pub fn cell(self, table: &[[u8; 13]; 12], kind: u8) -> u8
        ensures { result ≡ cell_of table.now self kind }
    {
        place_table::mdf_cell(table, self.index(), kind)
    }

    // By the cell of a kind, before any field is read: 5, 6, or the order may stand.
    pub fn refuses(self, cell: u8) -> Result<(), u8>
        ensures { result ≡ verdict_of (refuses_by self cell) }
    {
        if cell < place_table::OFTEN {
            Ok(())
        } else if place_table::REFUSED <= cell {
            Err(5)
        } else if self.has(cell - place_table::OFTEN) {
            Err(6)
        } else {
            Ok(())
        }
    }

    // The place after an order with the cell of its kind, or the refusal's number: 5, 6 or 9.
    pub fn step(self, cell: u8, s: Order) -> Result<MissionPlace, u8>
        ensures { result ≡ by_cell self s cell }
    {
        if cell < place_table::OFTEN {
            self.due_step(s, cell)
        } else if cell < place_table::REFUSED {
            self.option_step(s, cell - place_table::OFTEN)
        } else {
            Err(5)
        }
    }
}
