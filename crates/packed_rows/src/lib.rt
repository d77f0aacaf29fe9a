// Packed bytes as records (request L11): whether bytes are records, each with its length first, decided by a walk over them: the second half of refusal 28.
//
// Records of one size, one behind the other, records of points and of lanes: parts of the test for 29.
//
// specs/Walk: the walk, executable. proofs/Walked: it says what packed_law/specs/Packed.AreRecords says. proofs/Laws: the laws of the loop.
// specs/Fixed, Points, Lanes: the other walks, executable; proofs/FixedLaws, PointLaws, LaneLaws: the laws of their loops. What they say: `packed_tables`/proofs/Fixed, Points; of lanes it is owed.
//
// Rests on `packed_law`, `output`, `units` and what they rest on. Settled: the contract reads `r ≡ f ..`.
#![tactic(auto)]

ghost use Rattle.std.specs.Prelude.{◌≡◌, ◌<◌, drop};
ghost use Rattle.packed_rows.specs.Walk.{two, walked};
ghost use Rattle.packed_rows.specs.Fixed.{record_here, records_here};
ghost use Rattle.packed_rows.specs.Points.{four_at_of, degree, point_right, points_right};
ghost use Rattle.packed_rows.specs.Lanes.{width_right, lane_right, the_lane_at_of, lanes_right};

use units::{Feet, LARGEST_INTEGER, LARGEST_LATITUDE, LARGEST_LONGITUDE};

// A number of two bytes, the high one first.
pub fn pair(a: u8, b: u8) -> usize
    ensures { (result ≡ two a b) × (result < 65536) }
{
    u16::from_be_bytes([a, b]) as usize
}

// The bytes from this place on are records, each with its length first; none runs past the end.
pub fn are_records(bytes: &[u8], from: usize) -> bool
    ensures { result ≡ walked (drop from bytes.now) }
{
    let mut left = bytes.get(from..).unwrap_or(&[]);
    while let [high, low, behind @ ..] = left {
        let Some(next) = behind.get(pair(*high, *low)..) else {
            return false;
        };
        left = next;
    }
    left.is_empty()
}

// A record of this size stands at this place.
// Kept as it is: tried, and slower: a pattern over `bytes.get(at..)`, here and in `four_at`, takes twice the instructions over records of points (docs/LOOK-BACK.md).
pub fn is_record(bytes: &[u8], at: usize, size: u16) -> bool
    ensures { result ≡ record_here size (drop at bytes.now) }
{
    if bytes.len() < 2 || bytes.len() - 2 < at {
        return false;
    }
    size as usize <= bytes.len() - 2 - at && pair(bytes[at], bytes[at + 1]) == size as usize
}

// So many records of this size stand one behind the other from this place on.
pub fn are_records_of(bytes: &[u8], from: usize, size: u16, count: u32) -> bool
    ensures { result ≡ records_here count size (drop from bytes.now) }
{
    let mut at = from;
    for _ in 0..count {
        if !is_record(bytes, at, size) {
            return false;
        }
        at = at + 2 + size as usize;
    }
    true
}

// A number of four bytes, the high one first; 0 where they are not there.
pub fn four_at(bytes: &[u8], at: usize) -> u32
    ensures { result ≡ four_at_of bytes.now at }
{
    if bytes.len() < 4 || bytes.len() - 4 < at {
        return 0;
    }
    u32::from_be_bytes([bytes[at], bytes[at + 1], bytes[at + 2], bytes[at + 3]])
}

// A coordinate that is told so is not farther from 0 than this.
fn is_degree(most: u32, word: u32) -> bool
    ensures { result ≡ degree most word }
{
    word <= most || 4294967295 - word < most
}

// A record of a point of the earth stands at this place.
fn is_point(bytes: &[u8], at: usize) -> bool
    ensures { result ≡ point_right bytes.now at }
{
    is_record(bytes, at, 8)
        && is_degree(LARGEST_LATITUDE as u32, four_at(bytes, at + 2))
        && is_degree(LARGEST_LONGITUDE as u32, four_at(bytes, at + 6))
}

// So many records of points of the earth stand one behind the other from this place on.
pub fn are_points(bytes: &[u8], from: usize, count: u32) -> bool
    ensures { result ≡ points_right count bytes.now from }
{
    let mut at = from;
    for _ in 0..count {
        if !is_point(bytes, at) {
            return false;
        }
        at = at + 10;
    }
    true
}

// A width that is given, or the missing one.
fn is_width(w: u32) -> bool
    ensures { result ≡ width_right w }
{
    w <= Feet::LARGEST as u32 || w == Feet::MISSING.0 as u32
}

// A lane's numbers are in their ranges, and its first point is the sum so far.
fn lane_fits(sum: u64, begin: u32, counts: u32, sides: u32) -> bool
    ensures { result ≡ lane_right sum begin counts sides }
{
    begin as u64 == sum
        && 1 <= counts / 65536
        && counts / 65536 <= LARGEST_INTEGER
        && is_width(counts % 65536)
        && sides / 256 % 256 <= 4
        && sides % 256 <= 4
}

// A record of a lane stands at this place, with its first point at the sum so far.
fn is_lane(bytes: &[u8], at: usize, sum: u64) -> bool
    ensures { result ≡ the_lane_at_of bytes.now at sum }
{
    is_record(bytes, at, 10)
        && lane_fits(
            sum,
            four_at(bytes, at + 2),
            four_at(bytes, at + 6),
            four_at(bytes, at + 8),
        )
}

// So many records of lanes stand one behind the other from this place on, and so do their points.
pub fn are_lanes(bytes: &[u8], from: usize, count: u32) -> bool
    ensures { result ≡ lanes_right count bytes.now from 0 }
{
    let mut at = from;
    let mut sum: u64 = 0;
    for _ in 0..count {
        if !is_lane(bytes, at, sum) {
            return false;
        }
        sum = sum + (four_at(bytes, at + 6) / 65536) as u64;
        at = at + 12;
    }
    true
}
