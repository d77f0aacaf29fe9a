// Rows stored and read back, run: one letter for each case, `y` where it came out as document 01 says. The contracts prove more; this shows that they speak of running code.
#![tactic(auto)]

use console::put;
use read_rows::{lane_at, point_at};
use rows::{LaneRow, PointRow, Stretch, name_of, store_lane, store_point};
use std::io;
use std::io::Write;
use units::Feet;

// Two rows of five words and two words left over.
const NINES: [u32; 12] = [9; 12];

// These, with one lane stored in a row.
fn lane_words(row: usize) -> [u32; 12] {
    let mut t = NINES;
    let lane = LaneRow {
        first_point: 100000,
        points: 2,
        width: Feet::MISSING,
        left: 4,
        right: 1,
    };
    store_lane(&mut t, row, lane);
    t
}

fn say<W: Write>(to: &mut W, ok: bool) -> io::Result<()> {
    if ok { put(to, b"y") } else { put(to, b"n") }
}

// The second row's words, column by column; the first row and the left-over words stay.
fn stored<W: Write>(to: &mut W) -> io::Result<()> {
    let t = lane_words(1);
    say(to, t[5] == 100000)?;
    say(to, t[6] == 2)?;
    say(to, t[7] == 65535)?;
    say(to, t[8] == 4)?;
    say(to, t[9] == 1)?;
    say(to, t[4] == 9)?;
    say(to, t[10] == 9)
}

// In the left-over words, behind the end, and where row times stride would pass 64 bits.
fn not_stored<W: Write>(to: &mut W) -> io::Result<()> {
    say(to, lane_words(2) == NINES)?;
    say(to, lane_words(3) == NINES)?;
    say(to, lane_words(3689348814741910324) == NINES)?;
    say(to, lane_words(18446744073709551615) == NINES)
}

// Words too large for their fields.
fn saturated<W: Write>(to: &mut W) -> io::Result<()> {
    let t = [70000u32; 5];
    let lane = lane_at(&t, 0);
    say(to, lane.points == 70000)?;
    say(to, lane.width.0 == 65535)?;
    say(to, lane.left == 255)?;
    let none = lane_at(&t, 1);
    say(to, none.points == 0)?;
    say(to, none.width.0 == 0)
}

fn points<W: Write>(to: &mut W) -> io::Result<()> {
    let mut t = [0i32; 4];
    store_point(
        &mut t,
        1,
        PointRow {
            latitude: -500000,
            longitude: 180000000,
        },
    );
    let there = point_at(&t, 1);
    say(to, there.latitude == -500000)?;
    say(to, there.longitude == 180000000)?;
    let before = point_at(&t, 0);
    say(to, before.latitude == 0)?;
    let behind = point_at(&t, 2);
    say(to, behind.longitude == 0)
}

fn named(start: u32, length: u32) -> usize {
    let name = name_of(b"RNDF_name\tyard_a\n", Stretch { start, length });
    name.len()
}

fn names<W: Write>(to: &mut W) -> io::Result<()> {
    say(to, named(10, 6) == 6)?;
    say(to, named(10, 7) == 7)?;
    say(to, named(10, 8) == 0)?;
    say(to, named(0, 0) == 0)?;
    say(to, named(4294967295, 4294967295) == 0)
}

fn main(rt: HostRuntime) -> io::Result<()> {
    let mut to = rt.stdout();
    stored(&mut to)?;
    not_stored(&mut to)?;
    saturated(&mut to)?;
    points(&mut to)?;
    names(&mut to)?;
    put(&mut to, b"\n")
}
