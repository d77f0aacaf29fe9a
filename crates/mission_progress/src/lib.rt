// What a reader of an MDF knows behind each statement: the file's own row as far as it is given, and how many goals and limits there were; and the row that a statement gives.
// No table is touched here.
//
// specs/Progress: the same, executable, over the program's types. proofs/Shown: it is what `fill` says of the statements of an MDF, with names as stretches,
// missing ones 0, 0, and numbers as kinds.
//
// Rests on `fill`, `statement`, `rows`, `units`, `grammar` and `terms`.
#![tactic(auto)]

ghost use Rattle.std.specs.Prelude.{◌≡◌, ◌<◌, leb};
ghost use Rattle.rows.specs.Read.{the_stretch_of};
ghost use Rattle.mission_progress.specs.Given.{goal_given, limit_given};
ghost use Rattle.mission_progress.specs.Progress.{none_read_of, total, file_after_of, mission_after_of, mission_after_within, mission_row_of};

use rows::{GoalRow, LimitRow, MissionFileRow, Stretch};
use statement::Order;
use units::{CheckpointNumber, Mph, SegmentId};

// The number of rows from which on nothing more is counted. No text that is read has so many.
const FULL: u32 = 4294967295;

#[derive(Clone, Copy)]
pub struct MissionProgress {
    pub file: MissionFileRow,
    pub goals: u32,
    pub limits: u32,
}

// The row that one statement gives.
#[derive(Clone, Copy)]
pub enum MissionRow {
    Nothing,
    Goal(GoalRow),
    Limit(LimitRow),
}

// The row of a goal, or of a limit; none where a number is not of its kind, as no place lets through.
fn goal_row(n: u32) -> MissionRow
    ensures { result ≡ goal_given n }
{
    let Some(number) = CheckpointNumber::new(n) else {
        return MissionRow::Nothing;
    };
    MissionRow::Goal(GoalRow { number })
}

fn limit_row(id: u32, minimum: u32, maximum: u32) -> MissionRow
    ensures { result ≡ limit_given id minimum maximum }
{
    let Some(part) = SegmentId::new(id) else {
        return MissionRow::Nothing;
    };
    let Some(least) = Mph::new(minimum) else {
        return MissionRow::Nothing;
    };
    let Some(most) = Mph::new(maximum) else {
        return MissionRow::Nothing;
    };
    MissionRow::Limit(LimitRow {
        id: part,
        minimum: least,
        maximum: most,
    })
}

fn name_at(start: u32, length: u32) -> Stretch
    ensures { result ≡ the_stretch_of start length }
{
    Stretch { start, length }
}

// The file's own row behind a statement.
fn file_after(file: MissionFileRow, o: Order) -> MissionFileRow
    ensures { result ≡ file_after_of o file }
{
    match o {
        Order::MdfName(start, length) => MissionFileRow {
            name: name_at(start, length),
            ..file
        },
        Order::Rndf(start, length) => MissionFileRow {
            rndf: name_at(start, length),
            ..file
        },
        Order::FormatVersion(start, length) => MissionFileRow {
            version: name_at(start, length),
            ..file
        },
        Order::CreationDate(start, length) => MissionFileRow {
            date: name_at(start, length),
            ..file
        },
        _ => file,
    }
}

impl MissionProgress {
    // Before the first statement.
    pub fn none() -> MissionProgress
        ensures { result ≡ none_read_of }
    {
        let missing = name_at(0, 0);
        MissionProgress {
            file: MissionFileRow {
                name: missing,
                rndf: missing,
                version: missing,
                date: missing,
            },
            goals: 0,
            limits: 0,
        }
    }

    // Behind one more statement; the same as before it where one row more might not fit.
    pub fn after(self, o: Order) -> MissionProgress
        ensures { result ≡ mission_after_within o self }
    {
        if self.is_full() { self } else { self.onward(o) }
    }

    // All rows together are as many as 32 bits hold.
    fn is_full(self) -> bool
        ensures { result ≡ leb 4294967295 (total self) }
    {
        FULL as usize <= self.goals as usize + self.limits as usize
    }

    fn onward(self, o: Order) -> MissionProgress
        requires { total self < 4294967295 }
        ensures { result ≡ mission_after_of o self }
    {
        let file = file_after(self.file, o);
        match o {
            Order::Goal(_) => MissionProgress {
                file,
                goals: self.goals + 1,
                ..self
            },
            Order::Limit(_, _, _) => MissionProgress {
                file,
                limits: self.limits + 1,
                ..self
            },
            _ => MissionProgress { file, ..self },
        }
    }
}

// The row that a statement gives, whatever was before it.
pub fn mission_row(o: Order) -> MissionRow
    ensures { result ≡ mission_row_of o }
{
    match o {
        Order::Goal(n) => goal_row(n),
        Order::Limit(id, minimum, maximum) => limit_row(id, minimum, maximum),
        _ => MissionRow::Nothing,
    }
}
