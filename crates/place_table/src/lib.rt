// Which statement may stand at which place: one table of places by statements for the RNDF, one for the MDF, each an array of rows.
// They are `grammar`'s specs/PlaceTable, cell by cell. That those agree with the grammar is proved there, over the whole table.
//
// A row for each place (rndf.rt and mdf.rt name them), a column for each kind of statement (`statement` names them). A cell is REFUSED; or the row of the
// next place (of a place with something owed: where nothing is, the row behind it is meant); or an option, with which the place stays.
//
// A table is made once for a text and lent to every look: the compiler would write a constant anew at each.
// Where nothing is lent but a table, a look answers for any table: which one it is, is the caller's to know.
//
// Rests on `terms`, `grammar` and `statement`.
#![tactic(auto)]

ghost use Rattle.std.specs.Prelude.{◌≡◌, ◌<◌, get_or, []};
ghost use Rattle.grammar.specs.PlaceTable.{rndf_table_of, mdf_table_of};
ghost use Rattle.place_table.specs.Cells.{due_row, also_row, cell_in};

use statement::kinds;

pub mod mdf;
pub mod rndf;

// A cell that is refused with 5.
pub const REFUSED: u8 = 255;

// The least cell of an option: one that may repeat. The others may stand once; they are told apart by what they have over it, 1 to 3.
pub const OFTEN: u8 = 128;

const ONCE: u8 = 129;

const ONCE_2: u8 = 130;

const ONCE_3: u8 = 131;

// The row of a place where one statement is due, and where it leads.
fn due(kind: u8, next: u8) -> [u8; 30]
    requires { kind < 30 }
    ensures { result ≡ due_row kind next }
{
    also([REFUSED; 30], kind, next)
}

// The same with an option.
fn also(mut row: [u8; 30], kind: u8, option: u8) -> [u8; 30]
    requires { kind < 30 }
    ensures { result ≡ also_row row kind option }
{
    row[kind as usize] = option;
    row
}

// A lane's options stand before its first waypoint.
fn first_waypoint_row() -> [u8; 30]
    ensures { result ≡ get_or rndf_table_of 12 [] }
{
    let due = due(kinds::POINT, rndf::WAYPOINT_DUE);
    let width = also(due, kinds::LANE_WIDTH, ONCE);
    let left = also(width, kinds::LEFT_BOUNDARY, ONCE_2);
    let right = also(left, kinds::RIGHT_BOUNDARY, ONCE_3);
    let checkpoints = also(right, kinds::CHECKPOINT, OFTEN);
    let stops = also(checkpoints, kinds::STOP, OFTEN);
    also(stops, kinds::EXIT, OFTEN)
}

// The table of an RNDF, in the order of rndf.rt.
pub fn rndf_table() -> [[u8; 30]; 27]
    ensures { result ≡ rndf_table_of }
{
    [
        due(kinds::RNDF_NAME, rndf::NUM_SEGMENTS_DUE),
        due(kinds::NUM_SEGMENTS, rndf::NUM_ZONES_DUE),
        due(kinds::NUM_ZONES, rndf::FIRST_SEGMENT_DUE),
        also(
            also(
                due(kinds::SEGMENT, rndf::NUM_LANES_DUE),
                kinds::FORMAT_VERSION,
                ONCE,
            ),
            kinds::CREATION_DATE,
            ONCE_2,
        ),
        due(kinds::SEGMENT, rndf::NUM_LANES_DUE),
        due(kinds::ZONE, rndf::NUM_SPOTS_DUE),
        due(kinds::END_FILE, rndf::OVER),
        due(kinds::NUM_LANES, rndf::FIRST_LANE_DUE),
        also(
            due(kinds::LANE, rndf::NUM_WAYPOINTS_DUE),
            kinds::SEGMENT_NAME,
            ONCE,
        ),
        due(kinds::LANE, rndf::NUM_WAYPOINTS_DUE),
        due(kinds::END_SEGMENT, rndf::SEGMENT_DUE),
        due(kinds::NUM_WAYPOINTS, rndf::FIRST_WAYPOINT_DUE),
        first_waypoint_row(),
        due(kinds::POINT, rndf::WAYPOINT_DUE),
        due(kinds::END_LANE, rndf::LANE_DUE),
        due(kinds::NUM_SPOTS, rndf::PERIMETER_DUE),
        also(
            due(kinds::PERIMETER, rndf::NUM_PERIMETERPOINTS_DUE),
            kinds::ZONE_NAME,
            ONCE,
        ),
        due(kinds::NUM_PERIMETERPOINTS, rndf::FIRST_PERIMETERPOINT_DUE),
        also(
            due(kinds::POINT, rndf::PERIMETERPOINT_DUE),
            kinds::EXIT,
            OFTEN,
        ),
        due(kinds::POINT, rndf::PERIMETERPOINT_DUE),
        due(kinds::END_PERIMETER, rndf::SPOT_DUE),
        due(kinds::SPOT, rndf::FIRST_OF_SPOT_DUE),
        due(kinds::END_ZONE, rndf::SEGMENT_DUE),
        also(
            also(
                due(kinds::POINT, rndf::SECOND_OF_SPOT_DUE),
                kinds::SPOT_WIDTH,
                ONCE,
            ),
            kinds::CHECKPOINT,
            ONCE_2,
        ),
        due(kinds::POINT, rndf::END_SPOT_DUE),
        due(kinds::END_SPOT, rndf::SPOT_DUE),
        [REFUSED; 30],
    ]
}

// The table of an MDF, in the order of mdf.rt; a column for each order.
pub fn mdf_table() -> [[u8; 13]; 12]
    ensures { result ≡ mdf_table_of }
{
    MDF
}

const X: u8 = REFUSED;

const MDF: [[u8; 13]; 12] = [
    // 0: name_due
    [1, X, X, X, X, X, X, X, X, X, X, X, X],
    // 1: RNDF_due
    [X, 2, X, X, X, X, X, X, X, X, X, X, X],
    // 2: checkpoints_due
    [X, X, 129, 130, 3, X, X, X, X, X, X, X, X],
    // 3: num_checkpoints_due
    [X, X, X, X, X, 4, X, X, X, X, X, X, X],
    // 4: goal_due, goals owed
    [X, X, X, X, X, X, X, X, X, X, X, 4, X],
    // 5: goal_due, nothing owed
    [X, X, X, X, X, X, 6, X, X, X, X, X, X],
    // 6: speed_limits_due
    [X, X, X, X, X, X, X, 7, X, X, X, X, X],
    // 7: num_speed_limits_due
    [X, X, X, X, X, X, X, X, 8, X, X, X, X],
    // 8: limit_due, limits owed
    [X, X, X, X, X, X, X, X, X, X, X, X, 8],
    // 9: limit_due, nothing owed
    [X, X, X, X, X, X, X, X, X, 10, X, X, X],
    // 10: end_file_due
    [X, X, X, X, X, X, X, X, X, X, 11, X, X],
    // 11: over
    [X, X, X, X, X, X, X, X, X, X, X, X, X],
];

// The cell of a place and a kind; refused where there is no such place or kind.
pub fn rndf_cell(table: &[[u8; 30]; 27], row: u8, kind: u8) -> u8
    ensures { result ≡ cell_in 27 30 table.now row kind }
{
    let at = row as usize;
    let column = kind as usize;
    if at < 27 && column < 30 {
        table[at][column]
    } else {
        REFUSED
    }
}

pub fn mdf_cell(table: &[[u8; 13]; 12], row: u8, kind: u8) -> u8
    ensures { result ≡ cell_in 12 13 table.now row kind }
{
    let at = row as usize;
    let column = kind as usize;
    if at < 12 && column < 13 {
        table[at][column]
    } else {
        REFUSED
    }
}
