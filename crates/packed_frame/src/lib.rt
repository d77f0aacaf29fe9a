// The frame of packed bytes (request L11), a part of the test for 29: the file's record with its counts and names, and the records of segments, zones and spots, each of which begins where the one before it ends. (Lanes are records of one size: `packed_rows`.)
// Nothing is asked of a place: what does not stand there is none.
//
// specs/Names: numbers of two bytes, names, records with a name. Named: so many records. Segments, Zones, Spots, File: what the passes are, executable. proofs/..Laws: the laws of their loops; Worked: two yards. What they say: `frame_tables`.
//
// Rests on `packed_rows`, `scan`, `counts`, `rows` and what they rest on. Settled: the contracts read `r ≡ f ..`.
#![tactic(auto)]

ghost use Rattle.std.specs.Prelude.{◌≡◌, ℕ, ◌<◌, ◌+◌, ◌≤◌, take, drop, length};
ghost use Rattle.scan.specs.Allowed.{field_byte, all};
ghost use Rattle.packed_frame.specs.Names.{two_at, name_size_of, named_end, size_or_none, place_or_none};
ghost use Rattle.packed_frame.specs.Named.{run_fits};
ghost use Rattle.packed_frame.specs.Segments.{segment_end_of, segments_told, segments};
ghost use Rattle.packed_frame.specs.Zones.{spots_fit_of, zone_end_of, zones_told, zones};
ghost use Rattle.packed_frame.specs.Spots.{spot_right, spot-at, spots_right, zone_spots, all_spots};
ghost use Rattle.packed_frame.specs.File.{counts, the_the_stretch_of, file_at_of};

use counts::Counts;
use packed_rows::{four_at, is_record, pair};
use rows::{FileRow, Stretch};
use units::{Feet, LARGEST_INTEGER};

// ## Names
// A number of two bytes, the high one first; 0 where they are not there.
pub fn two_at(bytes: &[u8], at: usize) -> u16
    ensures { result ≡ two_at bytes.now at }
{
    let Some([high, low, ..]) = bytes.get(at..) else {
        return 0;
    };
    pair(*high, *low) as u16
}

// A byte that may stand in a field.
fn is_field_byte(b: u8) -> bool
    ensures { result ≡ field_byte b }
{
    (33 <= b) & (b <= 126) & ((b != b'\\') & (b != b'*'))
}

// These bytes may stand in a field.
fn are_field_bytes(bytes: &[u8]) -> bool
    ensures { result ≡ all field_byte bytes.now }
{
    bytes.iter().all(|b| is_field_byte(*b))
}

// The length of the name at this place, behind its two bytes of length; 0 where it is missing.
pub fn name_size(bytes: &[u8], at: usize) -> Option<usize>
    ensures { result ≡ size_or_none (name_size_of bytes.now at) }
{
    let [high, low, behind @ ..] = bytes.get(at..)? else {
        return None;
    };
    let name = behind.get(..pair(*high, *low))?;
    (name.len() <= 128 && are_field_bytes(name)).then_some(name.len())
}

// The place behind a record of so many bytes and then a name.
fn named_end(bytes: &[u8], at: usize, size: u16) -> Option<usize>
    ensures { result ≡ place_or_none (named_end size bytes.now at) }
{
    let long = size as usize + 2;
    if bytes.len() < long || bytes.len() - long < at {
        return None;
    }
    let name = name_size(bytes, at + long)?;
    (two_at(bytes, at) as usize == long + name).then_some(at + long + 2 + name)
}

// A segment's lanes, or a zone's points, begin at the sum so far, and there are not too many of them.
fn run_fits(sum: u64, begin: u32, size: u16) -> bool
    ensures { result ≡ run_fits sum begin size }
{
    (begin as u64 == sum) & ((1 <= size) & (size as u32 <= LARGEST_INTEGER))
}

// The place behind the segment here.
fn segment_end(bytes: &[u8], at: usize, sum: u64) -> Option<usize>
    ensures { result ≡ place_or_none (segment_end_of bytes.now at sum) }
{
    let end = named_end(bytes, at, 6)?;
    run_fits(sum, four_at(bytes, at + 2), two_at(bytes, at + 6)).then_some(end)
}

// So many segments from this place on.
pub fn segments_at(bytes: &[u8], from: usize, count: u32) -> Option<(usize, u64)>
    ensures { result ≡ segments_told (segments count bytes.now from 0) }
{
    let mut at = from;
    let mut lanes: u64 = 0;
    for _ in 0..count {
        let end = segment_end(bytes, at, lanes)?;
        lanes = lanes + two_at(bytes, at + 6) as u64;
        at = end;
    }
    Some((at, lanes))
}

// Its spots begin at the sum so far, or at 0 where there are none; and there are not too many of them.
fn spots_fit(spot: u64, begin: u32, spots: u16) -> bool
    ensures { result ≡ spots_fit_of spot begin spots }
{
    (spots as u32 <= LARGEST_INTEGER)
        & (((spots == 0) & (begin == 0)) | ((spots != 0) & (begin as u64 == spot)))
}

// The place behind the zone here.
fn zone_end(bytes: &[u8], at: usize, point: u64, spot: u64) -> Option<usize>
    ensures { (result ≡ place_or_none (zone_end_of bytes.now at (point, spot)))
        × ((zone_end_of bytes.now at (point, spot) ≡ 0 → ⊥) → point < 4294967296) }
{
    let end = named_end(bytes, at, 12)?;
    let fits = run_fits(point, four_at(bytes, at + 2), two_at(bytes, at + 6))
        && spots_fit(spot, four_at(bytes, at + 8), two_at(bytes, at + 12));
    fits.then_some(end)
}

// So many zones from this place on. first: the first point that they have.
pub fn zones_at(bytes: &[u8], from: usize, count: u32, first: u64) -> Option<(usize, u64, u64)>
    ensures { result ≡ zones_told (zones count bytes.now from (first, 0)) }
{
    let mut at = from;
    let mut point = first;
    let mut spot: u64 = 0;
    for _ in 0..count {
        let end = zone_end(bytes, at, point, spot)?;
        let spots = two_at(bytes, at + 12) as u64;
        point = point + (two_at(bytes, at + 6) as u64 + (spots + spots));
        spot = spot + spots;
        at = end;
    }
    Some((at, point, spot))
}

// ## Spots
// A spot begins at this point, and its width is in its range.
fn spot_fits(point: u64, begin: u32, width: u16) -> bool
    ensures { result ≡ spot_right point begin width }
{
    (begin as u64 == point)
        & (((1 <= width) & (width <= Feet::LARGEST)) | (width == Feet::MISSING.0))
}

// A record of a spot with this first point stands at this place.
fn is_spot(bytes: &[u8], at: usize, point: u64) -> bool
    ensures { result ≡ spot-at bytes.now at point }
{
    is_record(bytes, at, 6) && spot_fits(point, four_at(bytes, at + 2), two_at(bytes, at + 6))
}

// So many spots from this place on, whose points stand one behind the other: behind so many of a perimeter that begins there.
fn are_spots_behind(bytes: &[u8], from: usize, begin: u32, points: u16, count: u16) -> bool
    ensures { result ≡ spots_right count bytes.now from (begin + points) }
{
    let mut at = from;
    let mut point = begin as u64 + points as u64;
    for _ in 0..count {
        if !is_spot(bytes, at, point) {
            return false;
        }
        at = at + 8;
        point = point + 2;
    }
    true
}

// The spots of the zone that stands at `zone`.
fn are_spots_of(bytes: &[u8], zone: usize, at: usize) -> bool
    ensures { result ≡ zone_spots bytes.now zone at }
{
    named_end(bytes, zone, 12).is_some()
        && are_spots_behind(
            bytes,
            at,
            four_at(bytes, zone + 2),
            two_at(bytes, zone + 6),
            two_at(bytes, zone + 12),
        )
}

// The spots of so many zones. from: where the zones stand; spots: where the spots stand.
pub fn are_spots(bytes: &[u8], from: usize, count: u32, spots: usize) -> bool
    ensures { result ≡ all_spots count bytes.now from spots }
{
    let mut zone = from;
    let mut at = spots;
    for _ in 0..count {
        if !are_spots_of(bytes, zone, at) {
            return false;
        }
        at = at + 8 * two_at(bytes, zone + 12) as usize;
        zone = named_end(bytes, zone, 12).unwrap_or(0);
    }
    true
}

// The counts of rows that a file's record says.
fn counts_told(bytes: &[u8]) -> Counts
    ensures { result ≡ counts bytes.now }
{
    Counts {
        segments: four_at(bytes, 7),
        lanes: four_at(bytes, 11),
        zones: four_at(bytes, 15),
        spots: four_at(bytes, 19),
        points: four_at(bytes, 23),
        checkpoints: four_at(bytes, 27),
        stops: four_at(bytes, 31),
        exits: four_at(bytes, 35),
    }
}

// A name by its place; a missing one is 0, 0.
fn stretch_of(start: u32, size: u32) -> Stretch
    ensures { result ≡ the_the_stretch_of start size }
{
    Stretch {
        start: if size == 0 { 0 } else { start },
        length: size,
    }
}

// The file's record, behind version and length.
pub fn file_at(bytes: &[u8]) -> Option<(Counts, FileRow, usize)>
    ensures { result ≡ file_at_of bytes.now }
{
    let first = name_size(bytes, 39)?;
    if first == 0 {
        return None;
    }
    let second_at = 39 + 2 + first;
    let second = name_size(bytes, second_at)?;
    let end = second_at + 2 + second;
    if two_at(bytes, 5) as usize + 7 != end {
        return None;
    }
    let row = FileRow {
        name: stretch_of(41, first as u32),
        version: stretch_of((second_at + 2) as u32, second as u32),
        date: stretch_of(0, 0),
    };
    Some((counts_told(bytes), row, end))
}
