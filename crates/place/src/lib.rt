// Where a reader of an RNDF stands: the open part with its identifiers, what is due and what is still owed, and one step, from a statement to the next place or a refusal.
// Which statement may stand where is one table of places by statements, which is lent: `cell` looks a kind up in it, once for a line. By that cell `refuses` tells
// 5 and 6, before a field is read, `tested` then 9 and 25, and `moved` gives the next place. Every number of a statement is handled, whatever its size, and every place, also one that no run reaches: nothing here requires anything.
//
// Two methods, not one that answers a place or a number: the walk keeps one place and moves it where it stands, while an answer that holds a place would be copied whole for every line.
// Both are asked in one place of the program (`network`), so that the compiler does them there.
//
// specs/Step: the same, executable, which the contracts cite. proofs/: both together are the step (Stepped), and it is the grammar's machine, step by step (Theorems).
//
// Rests on `terms`, `grammar`, `statement`, `permitted` and `place_table`.
#![tactic(auto)]

ghost use Rattle.std.specs.Prelude.{◌≡◌};
ghost use Rattle.permitted.specs.Owed.{owing};
ghost use Rattle.place.specs.Step.{major_of, minor_of, first_marked_of, around_of, the_exits_of, permits_of, placed, first_place, opened_of, passed_of, left_of, after_of, index_of, has_of, marked_of, opted_of, cell_of, refuses_by, over_of, ready_of, tested_of, moved_of};
ghost use Rattle.place_table.specs.Verdicts.{verdict_of};
ghost use Rattle.place_table.specs.RndfRows.{segment_due, zone_due, end_file_due};

use number::Id;
use permitted;
use place_table;
use place_table::rndf;
use statement::Statement;

// The open part, with its identifiers.
#[derive(Clone, Copy)]
pub enum Open {
    File,
    Segment(u32),
    Lane(u32, u32),
    Zone(u32),
    Perimeter(u32),
    Spot(u32, u32),
}

// The single options given at this place, by their slot.
#[derive(Clone, Copy)]
pub struct Given {
    pub first: bool,
    pub second: bool,
    pub third: bool,
}

// No option is given yet.
const NO_OPTION: Given = Given {
    first: false,
    second: false,
    third: false,
};

// The place: the open part; the row of what is due; its number there; how many segments, zones, parts (lanes or spots) and points are still owed;
// the options given. Before the first point all points of the part are owed, so that `points` tells how many there are.
#[derive(Clone, Copy)]
pub struct Place {
    pub part: Open,
    pub row: u8,
    pub due: u64,
    pub segments: u32,
    pub zones: u32,
    pub parts: u32,
    pub points: u32,
    pub given: Given,
}

// The part around a closed one, and the number due there.
#[derive(Clone, Copy)]
pub struct Around {
    pub part: Open,
    pub due: u64,
}

impl Open {
    pub fn major(self) -> u32
        ensures { result ≡ major_of self }
    {
        match self {
            Open::File => 0,
            Open::Segment(m)
            | Open::Lane(m, _)
            | Open::Zone(m)
            | Open::Perimeter(m)
            | Open::Spot(m, _) => m,
        }
    }

    pub fn minor(self) -> u32
        ensures { result ≡ minor_of self }
    {
        match self {
            Open::Lane(_, n) | Open::Spot(_, n) => n,
            _ => 0,
        }
    }

    // The first waypoint that may be a checkpoint. L8: a spot's is its second.
    pub fn first_marked(self) -> u32
        ensures { result ≡ first_marked_of self }
    {
        match self {
            Open::Spot(_, _) => 2,
            _ => 1,
        }
    }

    // What is open once this part is closed.
    pub fn around(self) -> Around
        ensures { result ≡ around_of self }
    {
        match self {
            Open::File => Around {
                part: Open::File,
                due: 0,
            },
            Open::Segment(m) => Around {
                part: Open::File,
                due: m as u64 + 1,
            },
            Open::Lane(m, n) => Around {
                part: Open::Segment(m),
                due: n as u64 + 1,
            },
            Open::Zone(m) => Around {
                part: Open::File,
                due: m as u64 + 1,
            },
            Open::Perimeter(m) => Around {
                part: Open::Zone(m),
                due: 1,
            },
            Open::Spot(m, n) => Around {
                part: Open::Zone(m),
                due: n as u64 + 1,
            },
        }
    }

    // May an exit lead from this point of the part, which has w, to that one?
    pub fn exits(self, w: u32, i: Id, e: Id) -> bool
        ensures { result ≡ the_exits_of self w i e }
    {
        match self {
            Open::Lane(m, n) => permitted::own_exit(m, n, w, i, e),
            Open::Perimeter(m) => permitted::perimeter_exit(m, w, i, e),
            _ => false,
        }
    }
}

impl Given {
    fn marked(self, slot: u8) -> Given
        ensures { result ≡ marked_of self slot }
    {
        match slot {
            1 => Given {
                first: true,
                ..self
            },
            2 => Given {
                second: true,
                ..self
            },
            3 => Given {
                third: true,
                ..self
            },
            _ => self,
        }
    }
}

// The row of a place outside every part.
fn part_row(segments: u32, zones: u32) -> u8
    ensures { result ≡ owing segments segment_due (owing zones zone_due end_file_due) }
{
    if segments == 0 {
        permitted::owed_row(zones, rndf::ZONE_DUE, rndf::END_FILE_DUE)
    } else {
        rndf::SEGMENT_DUE
    }
}

impl Place {
    // Before the first statement.
    pub fn start() -> Place
        ensures { result ≡ first_place }
    {
        Place {
            part: Open::File,
            row: rndf::NAME_DUE,
            due: 0,
            segments: 0,
            zones: 0,
            parts: 0,
            points: 0,
            given: NO_OPTION,
        }
    }

    // `end_file` was taken.
    pub fn is_over(self) -> bool
        ensures { result ≡ over_of self }
    {
        self.row == rndf::OVER
    }

    // Are the statement's values permitted here?
    fn permits(self, s: Statement) -> bool
        ensures { result ≡ permits_of self s }
    {
        let part = self.part;
        let m = part.major();
        let n = part.minor();
        let due = self.due;
        let w = self.points;
        match s {
            Statement::NumSegments(k) => permitted::counted(k),
            Statement::NumZones(k) => permitted::up_to(self.segments, k),
            Statement::Segment(a) => permitted::the_number(due, a),
            Statement::NumLanes(k) => permitted::counted(k),
            Statement::Lane(a, b) => permitted::the_part(m, due, a, b),
            Statement::NumWaypoints(k) => permitted::counted(k),
            Statement::LaneWidth(k) => permitted::lane_width(k),
            Statement::Checkpoint(i, k) => permitted::own_checkpoint(
                m,
                n,
                part.first_marked(),
                w,
                i,
                k,
            ),
            Statement::Stop(i) => permitted::own_stop(m, n, w, i),
            Statement::Exit(i, e) => part.exits(w, i, e),
            Statement::Zone(a) => permitted::the_number(due, a),
            Statement::NumSpots(k) => permitted::at_most(k),
            Statement::Perimeter(a, b) => permitted::the_part(m, 0, a, b),
            Statement::NumPerimeterpoints(k) => permitted::counted(k),
            Statement::Spot(a, b) => permitted::the_part(m, due, a, b),
            Statement::SpotWidth(k) => permitted::spot_width(k),
            Statement::Point(i, a, o) => permitted::the_point(m, n, due, i, a, o),
            _ => true,
        }
    }

    // The same place in another row of the table, with no option given.
    fn in_row(self, row: u8) -> Place
        ensures { result ≡ placed self.part row self.due self.segments self.zones self.parts self.points }
    {
        Place {
            row,
            given: NO_OPTION,
            ..self
        }
    }

    // The place after a part is opened: one less of its sort is owed. A spot has two points, and no line that counts them.
    fn opened(self, part: Open, row: u8) -> Place
        ensures { result ≡ opened_of self part row }
    {
        let p = Place {
            part,
            row,
            due: 0,
            given: NO_OPTION,
            ..self
        };
        match part {
            Open::Segment(_) => Place {
                segments: permitted::less(self.segments),
                ..p
            },
            Open::Lane(_, _) => Place {
                parts: permitted::less(self.parts),
                ..p
            },
            Open::Zone(_) => Place {
                zones: permitted::less(self.zones),
                ..p
            },
            Open::Spot(_, _) => Place {
                due: 1,
                parts: permitted::less(self.parts),
                points: 2,
                ..p
            },
            _ => p,
        }
    }

    // The place after the part is closed.
    fn left(self, row: u8) -> Place
        ensures { result ≡ left_of self row }
    {
        let around = self.part.around();
        Place {
            part: around.part,
            due: around.due,
            ..self.in_row(row)
        }
    }

    // The place after a point, the z-th of its part.
    fn passed(self, z: u32, row: u8) -> Place
        ensures { result ≡ passed_of self z row }
    {
        Place {
            due: z as u64 + 1,
            points: permitted::less(self.points),
            ..self.in_row(row)
        }
    }

    // The place after the due statement, in the row that the table gives.
    fn after(self, s: Statement, row: u8) -> Place
        ensures { result ≡ after_of self s row }
    {
        let p = self.in_row(row);
        match s {
            Statement::NumSegments(k) => Place { segments: k, ..p },
            Statement::NumZones(k) => Place {
                due: 1,
                zones: k,
                ..p
            },
            Statement::Segment(m) => self.opened(Open::Segment(m), row),
            Statement::NumLanes(k) => Place {
                due: 1,
                parts: k,
                ..p
            },
            Statement::Lane(m, n) => self.opened(Open::Lane(m, n), row),
            Statement::NumWaypoints(k) | Statement::NumPerimeterpoints(k) => Place {
                due: 1,
                points: k,
                ..p
            },
            Statement::Zone(m) => self.opened(Open::Zone(m), row),
            Statement::NumSpots(k) => Place { parts: k, ..p },
            Statement::Perimeter(m, _) => self.opened(Open::Perimeter(m), row),
            Statement::Spot(m, n) => self.opened(Open::Spot(m, n), row),
            Statement::EndSegment
            | Statement::EndLane
            | Statement::EndZone
            | Statement::EndPerimeter
            | Statement::EndSpot => self.left(row),
            Statement::EndFile => Place { due: 0, ..p },
            Statement::Point(i, _, _) => self.passed(i.z, row),
            _ => p,
        }
    }

    // The table's row: one with nothing more owed is another.
    fn index(self) -> u8
        ensures { result ≡ index_of self }
    {
        let row = self.row;
        match row {
            rndf::SEGMENT_DUE => part_row(self.segments, self.zones),
            rndf::LANE_DUE => permitted::owed_row(
                self.parts,
                rndf::LANE_DUE,
                rndf::END_SEGMENT_DUE,
            ),
            rndf::WAYPOINT_DUE => permitted::owed_row(
                self.points,
                rndf::WAYPOINT_DUE,
                rndf::END_LANE_DUE,
            ),
            rndf::PERIMETERPOINT_DUE => permitted::owed_row(
                self.points,
                rndf::PERIMETERPOINT_DUE,
                rndf::END_PERIMETER_DUE,
            ),
            rndf::SPOT_DUE => permitted::owed_row(self.parts, rndf::SPOT_DUE, rndf::END_ZONE_DUE),
            _ => row,
        }
    }

    // Was the option of this slot given? Not by a `match`: the compiler would keep the three in memory, to look one up.
    fn has(self, slot: u8) -> bool
        ensures { result ≡ has_of self.given slot }
    {
        ((slot == 1) & self.given.first)
            | ((slot == 2) & self.given.second)
            | ((slot == 3) & self.given.third)
    }

    fn opted(self, slot: u8) -> Place
        ensures { result ≡ opted_of self slot }
    {
        Place {
            given: self.given.marked(slot),
            ..self
        }
    }

    // Are the options given enough for the due statement? L8: a spot must have its checkpoint, the second of its options.
    fn ready(self) -> bool
        ensures { result ≡ ready_of self }
    {
        self.row != rndf::FIRST_OF_SPOT_DUE || self.given.second
    }

    // The cell of a kind in the table that is lent; refused where there is no such kind.
    pub fn cell(self, table: &[[u8; 30]; 27], kind: u8) -> u8
        ensures { result ≡ cell_of table.now self kind }
    {
        place_table::rndf_cell(table, self.index(), kind)
    }

    // By the cell of a kind, before any field is read: 5, 6, or the statement may stand.
    pub fn refuses(self, cell: u8) -> Result<(), u8>
        ensures { result ≡ verdict_of (refuses_by self.given cell) }
    {
        if cell < place_table::OFTEN {
            Ok(())
        } else if place_table::REFUSED <= cell {
            Err(5)
        } else if self.has(cell - place_table::OFTEN) {
            Err(6)
        } else {
            Ok(())
        }
    }

    // 9 where a value is not permitted here, 25 where an option is still owed; of a statement whose kind may stand here.
    pub fn tested(self, cell: u8, s: Statement) -> Result<(), u8>
        ensures { result ≡ verdict_of (tested_of self s cell) }
    {
        if !self.permits(s) {
            Err(9)
        } else if cell < place_table::OFTEN && !self.ready() {
            Err(25)
        } else {
            Ok(())
        }
    }

    // The place behind a statement that is taken: the due one, or an option.
    pub fn moved(self, cell: u8, s: Statement) -> Place
        ensures { result ≡ moved_of self s cell }
    {
        if cell < place_table::OFTEN {
            self.after(s, cell)
        } else {
            self.opted(cell - place_table::OFTEN)
        }
    }
}
