// A text of an RNDF read by an edition into lent tables in one walk over its lines: 1 where it is too long, the first fault of 2 to 10 with its line, or every row stored where there is
// room for it, and how many there are of each table. Entries of exits are not looked up yet: where they start in the text stands for them (the crate `references`).
//
// The walk keeps one place and one count of rows, and changes both where they stand: what a line says (`said_line`), whether its place takes it and where it leads (`place`) and what it
// gives (`progress`) come one by one, for an answer that held a place would be copied whole for every line. It is the only walk by places that there is, since the compiler does in the loop what
// is called from nowhere else: `column` has its place from here too, over no tables.
//
// specs/Storing: a row stored in the tables, executable. specs/Reading: the walk; specs/Reaching: up to where it stands at the end.
// proofs/: the walk finds what `text` answers, and stores what `fill` gives (Gathered); of a text that spells a network, the words of its tables (Spelled).
//
// Rests on `refusal`, `walk`, `edition_judge`, `said_line`, `place`, `progress`, `rows`, `fill` and what they rest on.
#![tactic(auto)]

ghost use Rattle.std.specs.Prelude.{◌≡◌, ◌≤◌, length};
ghost use Rattle.refusal.specs.Size.{most};
ghost use Rattle.grammar.specs.PlaceTable.{rndf_table_of};
ghost use Rattle.place_table.specs.Verdicts.{verdict_of};
ghost use Rattle.edition.specs.Editions.{inner};
ghost use Rattle.progress.specs.After.{no_progress, total};
ghost use Rattle.network.specs.Storing.{Memory, memory, store_part, store_numbered_of, stored};
ghost use Rattle.network.specs.Reading.{told, filled_in};
ghost use Rattle.network.specs.Reaching.{the_refusal_of, stood, onwards, reached_in, ended_of};

use edition::Edition;
use edition_judge::barred;
use place::Place;
use place_table::rndf_table;
use progress::{Progress, Row};
use refusal::{Fault, LONGEST_TEXT};
use rows::{
    CheckpointRow, POINT_STRIDE, PointRow, store_checkpoint, store_exit, store_lane, store_point,
    store_segment, store_spot, store_stop, store_zone,
};
use said_line::{Line, Said, line_said};
use statement::Statement;
use units::CheckpointNumber;

// A point of the part whose first point is row `first`: the table from there on is lent to the point's writer, so that no row before it is touched.
fn store_in_part(points: &mut [i32], first: u32, within: u32, point: PointRow)
    ensures { points.new ≡ store_part points.old first within point }
{
    let at = first as usize * POINT_STRIDE;
    if at <= points.len() {
        store_point(&mut points[at..], within as usize, point);
    }
}

// A checkpoint with the number that its kind made; none where it made none.
fn store_numbered(checkpoints: &mut [u32], row: usize, read: Option<CheckpointNumber>, point: u32)
    ensures { checkpoints.new ≡ store_numbered_of checkpoints.old row read point }
{
    let Some(number) = read else {
        return;
    };
    store_checkpoint(checkpoints, row, CheckpointRow { number, point });
}

// The row that a statement gave, behind the rows that its table has so far.
fn store(
    segments: &mut [u32],
    lanes: &mut [u32],
    zones: &mut [u32],
    spots: &mut [u32],
    points: &mut [i32],
    checkpoints: &mut [u32],
    stops: &mut [u32],
    exits: &mut [u32],
    gained: Progress,
    row: Row,
)
    ensures { memory gained segments.new lanes.new zones.new spots.new points.new checkpoints.new stops.new exits.new ≡ stored row (memory gained segments.old lanes.old zones.old spots.old points.old checkpoints.old stops.old exits.old) }
{
    match row {
        Row::Nothing => {}
        Row::Segment(a) => store_segment(segments, gained.segments as usize, a),
        Row::Lane(a) => store_lane(lanes, gained.lanes as usize, a),
        Row::Zone(a) => store_zone(zones, gained.zones as usize, a),
        Row::Spot(a) => store_spot(spots, gained.spots as usize, a),
        Row::Point(a) => store_in_part(points, gained.first, gained.within, a),
        Row::Checkpoint(read, point) => {
            store_numbered(checkpoints, gained.checkpoints as usize, read, point)
        }
        Row::Stop(a) => store_stop(stops, gained.stops as usize, a),
        Row::Exit(a) => store_exit(exits, gained.exits as usize, a),
    }
}

// What becomes of a statement with the cell of its kind, at a place and by an edition.
fn verdict(edition: Edition, p: Place, cell: u8, s: Statement) -> Result<(), u8>
    ensures { result ≡ verdict_of (the_refusal_of (inner edition) p cell s) }
{
    p.refuses(cell)?;
    p.tested(cell, s)?;
    barred(edition, s)
}

// The number of the line behind the longest text that has a byte on every line: no text has one with a larger number.
const LAST_LINE: u32 = 16777216;

// The walk over the lines of a text from a place of it on, where a reader stands at `at` and has gained `had`; the first of them has the number `first`. The table is `place_table::rndf_table()`,
// lent so that it does not lie on the stack below the walk. 1 of a text that is too long, and of a line whose number no text has.
pub fn walk_part(
    edition: Edition,
    table: &[[u8; 30]; 27],
    text: &[u8],
    start: usize,
    at: Place,
    had: Progress,
    first: u32,
    segments: &mut [u32],
    lanes: &mut [u32],
    zones: &mut [u32],
    spots: &mut [u32],
    points: &mut [i32],
    checkpoints: &mut [u32],
    stops: &mut [u32],
    exits: &mut [u32],
) -> Result<(Place, Progress, u32), Fault>
    ensures { table.now ≡ rndf_table_of → length text.now ≤ most → total had ≤ 16777216 → first ≤ 16777216 → stood result (λ p. memory p segments.new lanes.new zones.new spots.new points.new checkpoints.new stops.new exits.new) ≡ onwards (inner edition) text.now at (memory had segments.old lanes.old zones.old spots.old points.old checkpoints.old stops.old exits.old) start first }
{
    if LONGEST_TEXT < text.len() {
        return Err(Fault { line: 0, number: 1 });
    }
    if LAST_LINE < first {
        return Err(Fault { line: 0, number: 1 });
    }
    let mut place = at;
    let mut gained = had;
    let mut from = start;
    let mut line = first;
    while from < text.len() {
        match line_said(table, text, from, place) {
            Line::Blank(e) => {
                from = e + 1;
            }
            Line::Filled(Err(number)) => {
                return Err(Fault { line, number });
            }
            Line::Filled(Ok((kind, s, e, last))) => {
                let cell = place.cell(table, kind);
                if let Err(n) = verdict(edition, place, cell, s) {
                    return Err(Fault { line, number: n });
                }
                place = place.moved(cell, s);
                store(
                    segments,
                    lanes,
                    zones,
                    spots,
                    points,
                    checkpoints,
                    stops,
                    exits,
                    gained,
                    gained.row(s, last as u32),
                );
                gained = gained.after(s);
                from = e + 1;
            }
        }
        line += 1;
    }
    Ok((place, gained, line))
}

// All lines of a text.
pub fn walk_lines(
    edition: Edition,
    table: &[[u8; 30]; 27],
    text: &[u8],
    segments: &mut [u32],
    lanes: &mut [u32],
    zones: &mut [u32],
    spots: &mut [u32],
    points: &mut [i32],
    checkpoints: &mut [u32],
    stops: &mut [u32],
    exits: &mut [u32],
) -> Result<(Place, Progress, u32), Fault>
    ensures { table.now ≡ rndf_table_of → stood result (λ p. memory p segments.new lanes.new zones.new spots.new points.new checkpoints.new stops.new exits.new) ≡ reached_in (inner edition) text.now (memory no_progress segments.old lanes.old zones.old spots.old points.old checkpoints.old stops.old exits.old) }
{
    if LONGEST_TEXT < text.len() {
        return Err(Fault { line: 0, number: 1 });
    }
    walk_part(
        edition,
        table,
        text,
        0,
        Place::start(),
        Progress::none(),
        1,
        segments,
        lanes,
        zones,
        spots,
        points,
        checkpoints,
        stops,
        exits,
    )
}

// Behind all lines: 10 where the text ends before `end_file`.
fn at_end(walked: Result<(Place, Progress, u32), Fault>) -> Result<Progress, Fault>
    ensures { result ≡ ended_of walked }
{
    let (place, gained, line) = walked?;
    if place.is_over() {
        Ok(gained)
    } else {
        Err(Fault { line, number: 10 })
    }
}

// The whole text.
pub fn fill_lines(
    edition: Edition,
    text: &[u8],
    segments: &mut [u32],
    lanes: &mut [u32],
    zones: &mut [u32],
    spots: &mut [u32],
    points: &mut [i32],
    checkpoints: &mut [u32],
    stops: &mut [u32],
    exits: &mut [u32],
) -> Result<Progress, Fault>
    ensures { told result (λ p. memory p segments.new lanes.new zones.new spots.new points.new checkpoints.new stops.new exits.new) ≡ filled_in (inner edition) text.now (memory no_progress segments.old lanes.old zones.old spots.old points.old checkpoints.old stops.old exits.old) }
{
    let table = rndf_table();
    let walked = walk_lines(
        edition,
        &table,
        text,
        segments,
        lanes,
        zones,
        spots,
        points,
        checkpoints,
        stops,
        exits,
    );
    at_end(walked)
}
