// What the places of an RNDF and of an MDF share: which values a statement may have, a test for each form of `grammar`'s specs/Permitted and
// specs/MissionPlaces, and what is owed. A width, a speed, a checkpoint number and the identifier of a segment or zone are tested by the constructor of their kind (`units`):
// what it refuses gets 9. Every number is handled, whatever its size: none is relied on to be in its range.
//
// specs/Tests, specs/MissionTests: what each test answers, as `grammar` decides it; specs/Owed. No function here requires anything.
//
// Rests on `terms`, `units`, `grammar` and `statement`.
#![tactic(auto)]

ghost use Rattle.std.specs.Prelude.{◌≡◌, ◌&&◌, pred};
ghost use Rattle.permitted.specs.Tests.{is_counted, is_at_most, is_up_to, is_the_number, is_the_part, is_point_of, is_numbered, is_latitude, is_longitude, is_the_point, is_own_stop, is_own_checkpoint, is_entry_of, is_inner_entry, is_own_exit, is_perimeter_exit};
ghost use Rattle.permitted.specs.MissionTests.{is_not_above, is_limit};
ghost use Rattle.permitted.specs.Owed.{owing};

use number::Id;
use units::{
    CheckpointNumber, Feet, LARGEST_INTEGER, LARGEST_LATITUDE, LARGEST_LONGITUDE, LEAST_LATITUDE,
    LEAST_LONGITUDE, Mph, SegmentId,
};

// ## Numbers by their kinds
// A lane's width.
pub fn lane_width(n: u32) -> bool
    ensures { result ≡ is_at_most n }
{
    Feet::new(n).is_some()
}

// A spot's width: 0 is none.
pub fn spot_width(n: u32) -> bool
    ensures { result ≡ is_counted n }
{
    1 <= n && lane_width(n)
}

// A speed.
fn speed(n: u32) -> bool
    ensures { result ≡ is_at_most n }
{
    Mph::new(n).is_some()
}

// The number of a checkpoint, or of a goal.
pub fn checkpoint_number(n: u32) -> bool
    ensures { result ≡ is_counted n }
{
    CheckpointNumber::new(n).is_some()
}

// The identifier of a segment or zone.
fn segment_id(n: u32) -> bool
    ensures { result ≡ is_counted n }
{
    SegmentId::new(n).is_some()
}

// So many zones behind c segments: the last one's identifier is not over the largest. 01: "zones M+1 to M+N", "M + N ≤ 32,768".
pub fn up_to(c: u32, n: u32) -> bool
    ensures { result ≡ is_up_to c n }
{
    c as u64 + n as u64 <= SegmentId::LARGEST as u64
}

// ## Numbers of no kind
// A count of one or more, or the number of a lane, spot or point.
pub fn counted(n: u32) -> bool
    ensures { result ≡ is_counted n }
{
    1 <= n && n <= LARGEST_INTEGER
}

// One that may be 0.
pub fn at_most(n: u32) -> bool
    ensures { result ≡ is_at_most n }
{
    n <= LARGEST_INTEGER
}

// ## The due part or point

// The number that is due.
pub fn the_number(due: u64, n: u32) -> bool
    ensures { result ≡ is_the_number due n }
{
    due == n as u64
}

// The part m.due.
pub fn the_part(m: u32, due: u64, a: u32, b: u32) -> bool
    ensures { result ≡ is_the_part m due a b }
{
    m == a && due == b as u64
}

// The point m.n.k.
fn is_point(m: u32, n: u32, k: u64, i: Id) -> bool
    ensures { result ≡ is_point_of m n k i }
{
    m == i.x && (n == i.y && k == i.z as u64)
}

// Millionths of a degree from the equator.
fn latitude(z: i32) -> bool
    ensures { result ≡ is_latitude z }
{
    LEAST_LATITUDE <= z && z <= LARGEST_LATITUDE
}

// And from the first meridian.
fn longitude(z: i32) -> bool
    ensures { result ≡ is_longitude z }
{
    LEAST_LONGITUDE <= z && z <= LARGEST_LONGITUDE
}

fn on_earth(a: i32, o: i32) -> bool
    ensures { result ≡ (is_latitude a && is_longitude o) }
{
    latitude(a) && longitude(o)
}

// The point m.n.due, somewhere on earth.
pub fn the_point(m: u32, n: u32, due: u64, i: Id, a: i32, o: i32) -> bool
    ensures { result ≡ is_the_point m n due i a o }
{
    is_point(m, n, due, i) && on_earth(a, o)
}

// From the first to the last.
fn numbered(first: u32, last: u32, n: u32) -> bool
    ensures { result ≡ is_numbered first last n }
{
    first <= n && n <= last
}

// A point of the part m.n, which has w.
pub fn own_stop(m: u32, n: u32, w: u32, i: Id) -> bool
    ensures { result ≡ is_own_stop m n w i }
{
    is_point(m, n, i.z as u64, i) && numbered(1, w, i.z)
}

// A point of the part m.n, from the first that may be one to the last, and a checkpoint number.
pub fn own_checkpoint(m: u32, n: u32, first: u32, last: u32, i: Id, number: u32) -> bool
    ensures { result ≡ is_own_checkpoint m n first last i number }
{
    is_point(m, n, i.z as u64, i) && (numbered(first, last, i.z) && checkpoint_number(number))
}

// An entry: x is an identifier, z a point's number, and y a lane's, or 0.
fn entry(e: Id) -> bool
    ensures { result ≡ is_entry_of e }
{
    segment_id(e.x) && (at_most(e.y) && counted(e.z))
}

// An entry from a perimeter: y is more than 0 too.
fn inner_entry(e: Id) -> bool
    ensures { result ≡ is_inner_entry e }
{
    segment_id(e.x) && (counted(e.y) && counted(e.z))
}

// An exit from a point of the lane m.n, which has w.
pub fn own_exit(m: u32, n: u32, w: u32, i: Id, e: Id) -> bool
    ensures { result ≡ is_own_exit m n w i e }
{
    own_stop(m, n, w, i) && entry(e)
}

// An exit from a point of the perimeter m.0, which has w.
pub fn perimeter_exit(m: u32, w: u32, i: Id, e: Id) -> bool
    ensures { result ≡ is_perimeter_exit m w i e }
{
    own_stop(m, 0, w, i) && inner_entry(e)
}

// The one test of a speed limit's minimum against its maximum: a maximum of 0 is none.
fn not_above(minimum: u32, maximum: u32) -> bool
    ensures { result ≡ is_not_above minimum maximum }
{
    (maximum == 0) | (minimum <= maximum)
}

// Two speeds, the minimum not above the maximum where there is one.
fn speeds(minimum: u32, maximum: u32) -> bool
    ensures { result ≡ (is_at_most minimum && (is_at_most maximum && is_not_above minimum maximum)) }
{
    speed(minimum) && (speed(maximum) && not_above(minimum, maximum))
}

// A speed limit: an id, a minimum and a maximum.
pub fn limited(id: u32, minimum: u32, maximum: u32) -> bool
    ensures { result ≡ is_limit id minimum maximum }
{
    segment_id(id) && speeds(minimum, maximum)
}

// One less is owed.
pub fn less(n: u32) -> u32
    ensures { result ≡ pred n }
{
    n.saturating_sub(1)
}

// The row of a place with so much owed: one where there is more, another where all is done.
pub fn owed_row(owed: u32, more: u8, done: u8) -> u8
    ensures { result ≡ owing owed more done }
{
    if owed == 0 { done } else { more }
}
