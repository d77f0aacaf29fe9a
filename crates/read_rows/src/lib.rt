// The rows of every table read from its flat lent slice (the crate `rows` says how they lie there and stores them).
// Reading asks for nothing: a row that does not lie wholly inside the slice reads as zero.
// Rests on `rows`, `units` and `terms`. That reading undoes storing is a law of each kind of row; the other laws that tie the two are those of `rows`
// (its proofs/Forms.antt).
//
// Settled: every contract here reads `r ≡ f ..`, so no second answer satisfies it.
#![tactic(auto)]

ghost use Rattle.std.specs.Prelude.{◌≡◌, List};
ghost use Rattle.rows.specs.Lay.{row_at};
ghost use Rattle.rows.specs.Read.{whole_word, short_word, byte_word, segment_of, lane_of, the_zone_of, spot_of, point_of, checkpoint_of, stop_of, exit_of, goal_of, limit_of, segment_at_of, lane_at_of, zone_at_of, spot_at_of, point_at_of, checkpoint_at_of, stop_at, exit_at, goal_at_of, limit_at_of};
ghost use Rattle.rows.proofs.Forms.{segment, lane, zone, spot, point, checkpoint, stop, exit, goal, limit};

use rows::{
    CHECKPOINT_STRIDE, CheckpointRow, EXIT_STRIDE, ExitRow, GOAL_STRIDE, GoalRow, LANE_STRIDE,
    LIMIT_STRIDE, LaneRow, LimitRow, POINT_STRIDE, PointRow, Row, SEGMENT_STRIDE, SPOT_STRIDE,
    STOP_STRIDE, SegmentRow, SpotRow, StopRow, Stretch, ZONE_STRIDE, ZoneRow, rows_of,
};
use units::{CheckpointNumber, Feet, Mph, SegmentId};

// A row as it is read of its words. A word that is missing reads as 0.
pub trait ReadRow<T, const STRIDE: usize>: Row<T, STRIDE> {
    ghost row_of: { List T → Self };

    // Rows whose numbers fit their fields, as those of every row that code holds do.
    ghost fits: { Self → Type 0 };

    fn of_words(words: &[T]) -> Self
        ensures { result ≡ row_of words.now };

    // Reading undoes storing.
    ghost undone: { (row : Self) → fits row → row_of (Self.words_of row) ≡ row };
}

// The words of one row, or an empty part where there is no such row.
fn row_words<T>(t: &[T], row: usize, stride: usize) -> &[T]
    ensures { result.now ≡ row_at stride t.now row }
{
    if row < rows_of(t.len(), stride) {
        let at = row * stride;
        &t[at..at + stride]
    } else {
        &t[..0]
    }
}

// The row of a table; zeros where there is no such row.
pub fn read<T, R: ReadRow<T, STRIDE>, const STRIDE: usize>(t: &[T], row: usize) -> R
    ensures { result ≡ R.row_of (row_at STRIDE t.now row) }
{
    R::of_words(row_words(t, row, STRIDE))
}

// One of these words, 0 where there are none.
fn word(words: &[u32], column: usize) -> u32
    ensures { result ≡ whole_word words.now column }
{
    words.get(column).copied().unwrap_or(0)
}

// One of these words in a field of 16 bits: saturated, so that a word too large for the field does not read as some smaller number.
fn short(words: &[u32], column: usize) -> u16
    ensures { result ≡ short_word words.now column }
{
    word(words, column).min(65535) as u16
}

// And in a field of 8 bits, saturated as well.
// Kept as it is: the new form is no plainer: one function over the type of field would take that type's conversion and its largest number, to save one line.
fn byte(words: &[u32], column: usize) -> u8
    ensures { result ≡ byte_word words.now column }
{
    word(words, column).min(255) as u8
}

impl ReadRow<u32, SEGMENT_STRIDE> for SegmentRow {
    ghost row_of = { segment_of };

    ghost fits = { segment.Fits };

    ghost undone = { segment.undone };

    fn of_words(words: &[u32]) -> SegmentRow {
        SegmentRow {
            first_lane: word(words, 0),
            lanes: word(words, 1),
            name: Stretch {
                start: word(words, 2),
                length: word(words, 3),
            },
        }
    }
}

impl ReadRow<u32, LANE_STRIDE> for LaneRow {
    ghost row_of = { lane_of };

    ghost fits = { lane.Fits };

    ghost undone = { lane.undone };

    fn of_words(words: &[u32]) -> LaneRow {
        LaneRow {
            first_point: word(words, 0),
            points: word(words, 1),
            width: Feet(short(words, 2)),
            left: byte(words, 3),
            right: byte(words, 4),
        }
    }
}

impl ReadRow<u32, ZONE_STRIDE> for ZoneRow {
    ghost row_of = { the_zone_of };

    ghost fits = { zone.Fits };

    ghost undone = { zone.undone };

    fn of_words(words: &[u32]) -> ZoneRow {
        ZoneRow {
            first_point: word(words, 0),
            points: word(words, 1),
            first_spot: word(words, 2),
            spots: word(words, 3),
            name: Stretch {
                start: word(words, 4),
                length: word(words, 5),
            },
        }
    }
}

impl ReadRow<u32, SPOT_STRIDE> for SpotRow {
    ghost row_of = { spot_of };

    ghost fits = { spot.Fits };

    ghost undone = { spot.undone };

    fn of_words(words: &[u32]) -> SpotRow {
        SpotRow {
            first_point: word(words, 0),
            width: Feet(short(words, 1)),
        }
    }
}

impl ReadRow<i32, POINT_STRIDE> for PointRow {
    ghost row_of = { point_of };

    ghost fits = { point.Fits };

    ghost undone = { point.undone };

    fn of_words(words: &[i32]) -> PointRow {
        PointRow {
            latitude: words.get(0).copied().unwrap_or(0),
            longitude: words.get(1).copied().unwrap_or(0),
        }
    }
}

impl ReadRow<u32, CHECKPOINT_STRIDE> for CheckpointRow {
    ghost row_of = { checkpoint_of };

    ghost fits = { checkpoint.Fits };

    ghost undone = { checkpoint.undone };

    fn of_words(words: &[u32]) -> CheckpointRow {
        CheckpointRow {
            number: CheckpointNumber(short(words, 0)),
            point: word(words, 1),
        }
    }
}

impl ReadRow<u32, STOP_STRIDE> for StopRow {
    ghost row_of = { stop_of };

    ghost fits = { stop.Fits };

    ghost undone = { stop.undone };

    fn of_words(words: &[u32]) -> StopRow {
        StopRow {
            point: word(words, 0),
        }
    }
}

impl ReadRow<u32, EXIT_STRIDE> for ExitRow {
    ghost row_of = { exit_of };

    ghost fits = { exit.Fits };

    ghost undone = { exit.undone };

    fn of_words(words: &[u32]) -> ExitRow {
        ExitRow {
            point: word(words, 0),
            entry: word(words, 1),
        }
    }
}

impl ReadRow<u32, GOAL_STRIDE> for GoalRow {
    ghost row_of = { goal_of };

    ghost fits = { goal.Fits };

    ghost undone = { goal.undone };

    fn of_words(words: &[u32]) -> GoalRow {
        GoalRow {
            number: CheckpointNumber(short(words, 0)),
        }
    }
}

impl ReadRow<u32, LIMIT_STRIDE> for LimitRow {
    ghost row_of = { limit_of };

    ghost fits = { limit.Fits };

    ghost undone = { limit.undone };

    fn of_words(words: &[u32]) -> LimitRow {
        LimitRow {
            id: SegmentId(short(words, 0)),
            minimum: Mph(short(words, 1)),
            maximum: Mph(short(words, 2)),
        }
    }
}

// Each table's rows by name: its type of row, and so its stride, is then known at the call.
pub fn segment_at(t: &[u32], row: usize) -> SegmentRow
    ensures { result ≡ segment_at_of t.now row }
{
    read(t, row)
}

pub fn lane_at(t: &[u32], row: usize) -> LaneRow
    ensures { result ≡ lane_at_of t.now row }
{
    read(t, row)
}

pub fn zone_at(t: &[u32], row: usize) -> ZoneRow
    ensures { result ≡ zone_at_of t.now row }
{
    read(t, row)
}

pub fn spot_at(t: &[u32], row: usize) -> SpotRow
    ensures { result ≡ spot_at_of t.now row }
{
    read(t, row)
}

// Points are the one table of signed numbers.
pub fn point_at(t: &[i32], row: usize) -> PointRow
    ensures { result ≡ point_at_of t.now row }
{
    read(t, row)
}

pub fn checkpoint_at(t: &[u32], row: usize) -> CheckpointRow
    ensures { result ≡ checkpoint_at_of t.now row }
{
    read(t, row)
}

pub fn stop_at(t: &[u32], row: usize) -> StopRow
    ensures { result ≡ stop_at t.now row }
{
    read(t, row)
}

pub fn exit_at(t: &[u32], row: usize) -> ExitRow
    ensures { result ≡ exit_at t.now row }
{
    read(t, row)
}

pub fn goal_at(t: &[u32], row: usize) -> GoalRow
    ensures { result ≡ goal_at_of t.now row }
{
    read(t, row)
}

pub fn limit_at(t: &[u32], row: usize) -> LimitRow
    ensures { result ≡ limit_at_of t.now row }
{
    read(t, row)
}
