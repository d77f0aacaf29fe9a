// The rows of every table, by value, and how they lie in a flat lent slice: so many numbers to a row (its stride), columns in document 01's order.
// A store asks for nothing: where no such row lies wholly inside the slice, it changes nothing. The crate `read_rows` reads rows.
// Rests on `units` (the kinds of number) and `terms`.
//
// Settled: every contract here reads `r ≡ f ..` or `now t.exit ≡ f ..`, so no second answer and no second memory satisfies it. `name_of` settles the bytes of the
// part that it returns; which stretch of the text these are, where they stand there twice, the logic does not say.
#![tactic(auto)]

ghost use Rattle.std.specs.Prelude.{◌≡◌, refl, List, length, replicate, pos};
ghost use Rattle.rows.specs.Lay.{rows_of, put_row_of};
ghost use Rattle.rows.specs.Columns.{segment_words_of, lane_words_of, zone_words_of, spot_words_of, point_words_of, checkpoint_words_of, stop_words_of, exit_words_of, goal_words_of, limit_words_of};
ghost use Rattle.rows.specs.Strides.{segment_stride, lane_stride, zone_stride, spot_stride, point_stride, checkpoint_stride, stop_stride, exit_stride, goal_stride, limit_stride};
ghost use Rattle.rows.specs.Name.{name_of};

use units::{CheckpointNumber, Feet, Mph, SegmentId};

// A stretch of the lent text: a name. A missing name is 0, 0.
#[derive(Clone, Copy)]
pub struct Stretch {
    pub start: u32,
    pub length: u32,
}

// The RNDF's own row. It is handed over by value and needs no table.
#[derive(Clone, Copy)]
pub struct FileRow {
    pub name: Stretch,
    pub version: Stretch,
    pub date: Stretch,
}

// The MDF's own row.
#[derive(Clone, Copy)]
pub struct MissionFileRow {
    pub name: Stretch,
    pub rndf: Stretch,
    pub version: Stretch,
    pub date: Stretch,
}

#[derive(Clone, Copy)]
pub struct SegmentRow {
    pub first_lane: u32,
    pub lanes: u32,
    pub name: Stretch,
}

// Boundaries are 1 to 4 in document 01's order; a missing one is 0.
#[derive(Clone, Copy)]
pub struct LaneRow {
    pub first_point: u32,
    pub points: u32,
    pub width: Feet,
    pub left: u8,
    pub right: u8,
}

#[derive(Clone, Copy)]
pub struct ZoneRow {
    pub first_point: u32,
    pub points: u32,
    pub first_spot: u32,
    pub spots: u32,
    pub name: Stretch,
}

#[derive(Clone, Copy)]
pub struct SpotRow {
    pub first_point: u32,
    pub width: Feet,
}

// Millionths of a degree.
#[derive(Clone, Copy)]
pub struct PointRow {
    pub latitude: i32,
    pub longitude: i32,
}

#[derive(Clone, Copy)]
pub struct CheckpointRow {
    pub number: CheckpointNumber,
    pub point: u32,
}

#[derive(Clone, Copy)]
pub struct StopRow {
    pub point: u32,
}

#[derive(Clone, Copy)]
pub struct ExitRow {
    pub point: u32,
    pub entry: u32,
}

#[derive(Clone, Copy)]
pub struct GoalRow {
    pub number: CheckpointNumber,
}

#[derive(Clone, Copy)]
pub struct LimitRow {
    pub id: SegmentId,
    pub minimum: Mph,
    pub maximum: Mph,
}

pub const SEGMENT_STRIDE: usize = 4;

pub const LANE_STRIDE: usize = 5;

pub const ZONE_STRIDE: usize = 6;

pub const SPOT_STRIDE: usize = 2;

pub const POINT_STRIDE: usize = 2;

pub const CHECKPOINT_STRIDE: usize = 2;

pub const STOP_STRIDE: usize = 1;

pub const EXIT_STRIDE: usize = 2;

pub const GOAL_STRIDE: usize = 1;

pub const LIMIT_STRIDE: usize = 3;

// How many whole rows there are in so many numbers.
pub fn rows_of(len: usize, stride: usize) -> usize
    ensures { result ≡ rows_of len stride }
{
    if stride == 0 { 0 } else { len / stride }
}

// A row of a table whose words are of type `T`: its columns in document 01's order, as many as the stride says.
pub trait Row<T, const STRIDE: usize>: Copy {
    ghost words_of: { Self → List T };

    fn words(self) -> [T; STRIDE]
        ensures { result ≡ words_of self };

    ghost as_many: { (row : Self) → length (words_of row) ≡ STRIDE };
}

impl Row<u32, SEGMENT_STRIDE> for SegmentRow {
    ghost words_of = { segment_words_of };

    ghost as_many = { λ row. refl };

    fn words(self) -> [u32; SEGMENT_STRIDE] {
        [
            self.first_lane,
            self.lanes,
            self.name.start,
            self.name.length,
        ]
    }
}

impl Row<u32, LANE_STRIDE> for LaneRow {
    ghost words_of = { lane_words_of };

    ghost as_many = { λ row. refl };

    fn words(self) -> [u32; LANE_STRIDE] {
        [
            self.first_point,
            self.points,
            self.width.0 as u32,
            self.left as u32,
            self.right as u32,
        ]
    }
}

impl Row<u32, ZONE_STRIDE> for ZoneRow {
    ghost words_of = { zone_words_of };

    ghost as_many = { λ row. refl };

    fn words(self) -> [u32; ZONE_STRIDE] {
        [
            self.first_point,
            self.points,
            self.first_spot,
            self.spots,
            self.name.start,
            self.name.length,
        ]
    }
}

impl Row<u32, SPOT_STRIDE> for SpotRow {
    ghost words_of = { spot_words_of };

    ghost as_many = { λ row. refl };

    fn words(self) -> [u32; SPOT_STRIDE] {
        [self.first_point, self.width.0 as u32]
    }
}

impl Row<i32, POINT_STRIDE> for PointRow {
    ghost words_of = { point_words_of };

    ghost as_many = { λ row. refl };

    fn words(self) -> [i32; POINT_STRIDE] {
        [self.latitude, self.longitude]
    }
}

impl Row<u32, CHECKPOINT_STRIDE> for CheckpointRow {
    ghost words_of = { checkpoint_words_of };

    ghost as_many = { λ row. refl };

    fn words(self) -> [u32; CHECKPOINT_STRIDE] {
        [self.number.0 as u32, self.point]
    }
}

impl Row<u32, STOP_STRIDE> for StopRow {
    ghost words_of = { stop_words_of };

    ghost as_many = { λ row. refl };

    fn words(self) -> [u32; STOP_STRIDE] {
        [self.point]
    }
}

impl Row<u32, EXIT_STRIDE> for ExitRow {
    ghost words_of = { exit_words_of };

    ghost as_many = { λ row. refl };

    fn words(self) -> [u32; EXIT_STRIDE] {
        [self.point, self.entry]
    }
}

impl Row<u32, GOAL_STRIDE> for GoalRow {
    ghost words_of = { goal_words_of };

    ghost as_many = { λ row. refl };

    fn words(self) -> [u32; GOAL_STRIDE] {
        [self.number.0 as u32]
    }
}

impl Row<u32, LIMIT_STRIDE> for LimitRow {
    ghost words_of = { limit_words_of };

    ghost as_many = { λ row. refl };

    fn words(self) -> [u32; LIMIT_STRIDE] {
        [
            self.id.0 as u32,
            self.minimum.0 as u32,
            self.maximum.0 as u32,
        ]
    }
}

// The words of one row, stored where there is such a row.
pub fn store<T: Copy, R: Row<T, STRIDE>, const STRIDE: usize>(t: &mut [T], row: usize, value: R)
    ensures { t.new ≡ put_row_of STRIDE t.old row (R.words_of value) }
{
    if row < rows_of(t.len(), STRIDE) {
        let at = row * STRIDE;
        let words = value.words();
        // A loop, since it is two to four times as fast here as `copy_from_slice`.
        for j in 0..STRIDE {
            t[at + j] = words[j];
        }
    }
}

// Each table's rows by name.
pub fn store_segment(t: &mut [u32], row: usize, segment: SegmentRow)
    ensures { t.new ≡ put_row_of segment_stride t.old row (segment_words_of segment) }
{
    store(t, row, segment);
}

pub fn store_lane(t: &mut [u32], row: usize, lane: LaneRow)
    ensures { t.new ≡ put_row_of lane_stride t.old row (lane_words_of lane) }
{
    store(t, row, lane);
}

pub fn store_zone(t: &mut [u32], row: usize, zone: ZoneRow)
    ensures { t.new ≡ put_row_of zone_stride t.old row (zone_words_of zone) }
{
    store(t, row, zone);
}

pub fn store_spot(t: &mut [u32], row: usize, spot: SpotRow)
    ensures { t.new ≡ put_row_of spot_stride t.old row (spot_words_of spot) }
{
    store(t, row, spot);
}

pub fn store_point(t: &mut [i32], row: usize, point: PointRow)
    ensures { t.new ≡ put_row_of point_stride t.old row (point_words_of point) }
{
    store(t, row, point);
}

pub fn store_checkpoint(t: &mut [u32], row: usize, checkpoint: CheckpointRow)
    ensures { t.new ≡ put_row_of checkpoint_stride t.old row (checkpoint_words_of checkpoint) }
{
    store(t, row, checkpoint);
}

pub fn store_stop(t: &mut [u32], row: usize, stop: StopRow)
    ensures { t.new ≡ put_row_of stop_stride t.old row (stop_words_of stop) }
{
    store(t, row, stop);
}

pub fn store_exit(t: &mut [u32], row: usize, value: ExitRow)
    ensures { t.new ≡ put_row_of exit_stride t.old row (exit_words_of value) }
{
    store(t, row, value);
}

pub fn store_goal(t: &mut [u32], row: usize, goal: GoalRow)
    ensures { t.new ≡ put_row_of goal_stride t.old row (goal_words_of goal) }
{
    store(t, row, goal);
}

pub fn store_limit(t: &mut [u32], row: usize, limit: LimitRow)
    ensures { t.new ≡ put_row_of limit_stride t.old row (limit_words_of limit) }
{
    store(t, row, limit);
}

// Every number of a lent table is 0, also behind its last whole row.
pub fn clear(t: &mut [u32])
    ensures { t.new ≡ replicate (length t.old) 0 }
{
    t.fill(0);
}

// The same for the one table of signed numbers, the points.
pub fn clear_signed(points: &mut [i32])
    ensures { points.new ≡ replicate (length points.old) (pos 0) }
{
    points.fill(0);
}

// The bytes of a name: a part of the caller's own text, empty where start and length do not fit in it.
pub fn name_of(text: &[u8], name: Stretch) -> &[u8]
    ensures { result.now ≡ name_of text.now name }
{
    let start = name.start as usize;
    let behind = start + name.length as usize;
    if behind <= text.len() {
        &text[start..behind]
    } else {
        &text[..0]
    }
}
