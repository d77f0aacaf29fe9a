// What there is room for: so many rows in a lent table (11), those of all tables of an RNDF, a number in a word of 32 bits; and the lent tables of an RNDF, cleared.
//
// specs/Room: the tests, executable. proofs/Fitted: a number that fits is kept. That the test of all tables is the law's `HasRoom` is law_tables/proofs/Rooms.
//
// Rests on `counts`, `rows` and `law` (what the lent tables are) and what they rest on.
#![tactic(auto)]

ghost use Rattle.std.specs.Prelude.{◌≡◌};
ghost use Rattle.law.specs.Tables.{lent, zeros};
ghost use Rattle.room.specs.Room.{fits, fitted, parts_fit_of, marks_fit_of};

use counts::Counts;
use rows::{
    CHECKPOINT_STRIDE, EXIT_STRIDE, LANE_STRIDE, POINT_STRIDE, SEGMENT_STRIDE, SPOT_STRIDE,
    STOP_STRIDE, ZONE_STRIDE, clear, clear_signed, rows_of,
};

// So many rows fit into a table of so many words.
pub fn fits(rows: u32, words: usize, stride: usize) -> bool
    ensures { result ≡ fits rows words stride }
{
    rows as usize <= rows_of(words, stride)
}

// The rows of all tables of an RNDF, in two tests.
pub fn parts_fit(c: Counts, segments: usize, lanes: usize, zones: usize, spots: usize) -> bool
    ensures { result ≡ parts_fit_of c segments lanes zones spots }
{
    if fits(c.segments, segments, SEGMENT_STRIDE) {
        if fits(c.lanes, lanes, LANE_STRIDE) {
            if fits(c.zones, zones, ZONE_STRIDE) {
                return fits(c.spots, spots, SPOT_STRIDE);
            }
        }
    }
    false
}

pub fn marks_fit(c: Counts, points: usize, checkpoints: usize, stops: usize, exits: usize) -> bool
    ensures { result ≡ marks_fit_of c points checkpoints stops exits }
{
    if fits(c.points, points, POINT_STRIDE) {
        if fits(c.checkpoints, checkpoints, CHECKPOINT_STRIDE) {
            if fits(c.stops, stops, STOP_STRIDE) {
                return fits(c.exits, exits, EXIT_STRIDE);
            }
        }
    }
    false
}

// A number that does not fit into 32 bits is the largest that does.
pub fn in_word(n: usize) -> u32
    ensures { result ≡ fitted n }
{
    if n < 4294967295 { n as u32 } else { 4294967295 }
}

// Every lent table of an RNDF, zero throughout.
pub fn clear_tables(
    segments: &mut [u32],
    lanes: &mut [u32],
    zones: &mut [u32],
    spots: &mut [u32],
    points: &mut [i32],
    checkpoints: &mut [u32],
    stops: &mut [u32],
    exits: &mut [u32],
)
    ensures { lent segments.new lanes.new zones.new spots.new points.new checkpoints.new stops.new exits.new ≡ zeros (lent segments.old lanes.old zones.old spots.old points.old checkpoints.old stops.old exits.old) }
{
    clear(segments);
    clear(lanes);
    clear(zones);
    clear(spots);
    clear_signed(points);
    clear(checkpoints);
    clear(stops);
    clear(exits);
}
