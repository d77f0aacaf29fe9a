// A text of an MDF read into lent tables in one walk over its lines: 1 where it is too long, the first fault of 2 to 10 with its line, or every goal and every limit stored where there is room for it,
// with the file's own row and how many rows there are of each table.
//
// specs/Storing: a row stored in the tables, executable. specs/Reading: the walk.
// proofs/Filled: the walk finds what `text` answers, and stores what `fill` gives; for a text that spells a mission, its tables.
//
// Rests on `refusal`, `walk`, `plain_order`, `mission_judge`, `mission_progress`, `rows`, `fill`, `table_words` and what they rest on.
#![tactic(auto)]

ghost use Rattle.std.specs.Prelude.{◌≡◌, ◌<◌};
ghost use Rattle.mission_progress.specs.Progress.{none_read_of, total};
ghost use Rattle.walk.specs.Standing.{Where};
ghost use Rattle.mission.specs.Storing.{MissionMemory, memory, stored};
ghost use Rattle.mission.specs.Reading.{put, told, filled_in};

use mission_place::MissionPlace;
use mission_progress::{MissionProgress, MissionRow, mission_row};
use place_table::mdf_table;
use plain_order::{MissionLine, MissionSaid, line_said};
use refusal::{Fault, LONGEST_TEXT};
use rows::{store_goal, store_limit};
use statement::Order;

// The row that a statement gave, behind the rows that its table has so far.
fn store(goals: &mut [u32], limits: &mut [u32], gained: MissionProgress, row: MissionRow)
    ensures { memory gained goals.new limits.new ≡ stored row (memory gained goals.old limits.old) }
{
    match row {
        MissionRow::Nothing => {}
        MissionRow::Goal(a) => store_goal(goals, gained.goals as usize, a),
        MissionRow::Limit(a) => store_limit(limits, gained.limits as usize, a),
    }
}

// An order's row is stored, and counted.
fn gather(
    goals: &mut [u32],
    limits: &mut [u32],
    gained: MissionProgress,
    s: Order,
) -> MissionProgress
    requires { total gained < 4294967295 }
    ensures { (w : Where) → memory result goals.new limits.new ≡ put w s (memory gained goals.old limits.old) }
{
    store(goals, limits, gained, mission_row(s));
    gained.after(s)
}

// One walk over the lines of a text.
pub fn fill_orders(
    text: &[u8],
    goals: &mut [u32],
    limits: &mut [u32],
) -> Result<MissionProgress, Fault>
    ensures { told result (λ p. memory p goals.new limits.new) ≡ filled_in text.now (memory none_read_of goals.old limits.old) }
{
    if LONGEST_TEXT < text.len() {
        return Err(Fault { line: 0, number: 1 });
    }
    let table = mdf_table();
    let mut place = MissionPlace::start();
    let mut gained = MissionProgress::none();
    let mut from: usize = 0;
    let mut line: u32 = 1;
    while from < text.len() {
        match line_said(&table, text, from, place) {
            MissionLine::Blank(e) => {
                from = e + 1;
            }
            MissionLine::Filled(said) => match said {
                Err(number) => return Err(Fault { line, number }),
                Ok((s, q, e)) => {
                    gained = gather(goals, limits, gained, s);
                    place = q;
                    from = e + 1;
                }
            },
        }
        line += 1;
    }
    if place.is_over() {
        Ok(gained)
    } else {
        Err(Fault { line, number: 10 })
    }
}
