// The walk over the lines that come out of the mending tool (request L9), without a text of them: each line is walked where it stands in the given text, a line whose number is replaced from a buffer of one
// line, a line that goes not at all. `network::walk_part` walks them, the one loop by places that there is. A count line's items are looked up only when all lines before it have been walked
// without a fault: behind such lines the stretches that are looked at for one kind of count are apart, so that the whole takes linear time; looking ahead first is quadratic on a text of count lines.
//
// Of the tables only those are lent that the references need, the others have no rows. specs/Walking: the walk, executable. That it ends as the walk over the mended text ends, but for where names start,
// is mend/proofs/Natural.
//
// Rests on `mend_pieces`, `mend_lines`, `mend_tests`, `network` and what they rest on.
#![tactic(auto)]

ghost use Rattle.std.specs.Prelude.{◌≡◌, [], ◌∷◌, ◌-◌, ◌≤◌, ◌<◌, length, take, drop};
ghost use Rattle.refusal.specs.Size.{most};
ghost use Rattle.grammar.specs.PlaceTable.{rndf_table_of};
ghost use Rattle.edition.specs.Editions.{inner};
ghost use Rattle.line.specs.Lines.{lines_of};
ghost use Rattle.place.specs.Step.{first_place};
ghost use Rattle.progress.specs.After.{no_progress, total};
ghost use Rattle.network.specs.Reaching.{stood, onwards, reaching};
ghost use Rattle.mend_lines.specs.Forward.{none_before_of};
ghost use Rattle.mend_pieces.specs.Pieces.{lf_from, piece_of};
ghost use Rattle.mend_tests.specs.Tests.{few};
ghost use Rattle.mend_walk.specs.Walking.{plain_line_of, OneLine, walked_line, mended_walk};

use edition::Edition;
use mend_lines::{Becomes, Before, line_change, line_kind};
use mend_pieces::{line_stop, put_piece};
use network::walk_part;
use place::Place;
use place_table::rndf_table;
use progress::Progress;
use refusal::{Fault, LONGEST_TEXT};
use scan::far_byte_from;

// The lines of a text from a place on, as `network::walk_part` walks them, with these four tables alone.
fn walk_few(
    edition: Edition,
    table: &[[u8; 30]; 27],
    text: &[u8],
    start: usize,
    at: Place,
    had: Progress,
    first: u32,
    segments: &mut [u32],
    lanes: &mut [u32],
    zones: &mut [u32],
    checkpoints: &mut [u32],
) -> Result<(Place, Progress, u32), Fault>
    ensures { table.now ≡ rndf_table_of → length text.now ≤ most → total had ≤ 16777216 → first ≤ 16777216 → stood result (λ p. few p segments.new lanes.new zones.new checkpoints.new) ≡ onwards (inner edition) text.now at (few had segments.old lanes.old zones.old checkpoints.old) start first }
{
    let mut spots: [u32; 0] = [0; 0];
    let mut points: [i32; 0] = [0; 0];
    let mut stops: [u32; 0] = [0; 0];
    let mut exits: [u32; 0] = [0; 0];
    walk_part(
        edition,
        table,
        text,
        start,
        at,
        had,
        first,
        segments,
        lanes,
        zones,
        &mut spots,
        &mut points,
        checkpoints,
        &mut stops,
        &mut exits,
    )
}

// A line that is changed, without its LF, from a buffer. What does not fit there is over 512 bytes long, with its CR or without.
fn walk_changed(
    edition: Edition,
    table: &[[u8; 30]; 27],
    line: &[u8],
    becomes: Becomes,
    at: Place,
    had: Progress,
    first: u32,
    segments: &mut [u32],
    lanes: &mut [u32],
    zones: &mut [u32],
    checkpoints: &mut [u32],
) -> Result<(Place, Progress, u32), Fault>
    ensures { table.now ≡ rndf_table_of → total had ≤ 16777216 → first ≤ 16777216 → plain_line_of (piece_of becomes line.now) → stood result (λ p. few p segments.new lanes.new zones.new checkpoints.new) ≡ reaching (inner edition) at (few had segments.old lanes.old zones.old checkpoints.old) 0 first (piece_of becomes line.now ∷ []) }
{
    let mut buffer: [u8; 520] = [0; 520];
    let length = put_piece(&mut buffer, 0, line, becomes);
    if length <= 520 {
        return walk_few(
            edition,
            table,
            &buffer[..length],
            0,
            at,
            had,
            first,
            segments,
            lanes,
            zones,
            checkpoints,
        );
    }
    Err(Fault {
        line: first,
        number: 2,
    })
}

// What comes out for the line that starts at a place of the text.
fn walk_line(
    edition: Edition,
    table: &[[u8; 30]; 27],
    text: &[u8],
    from: usize,
    becomes: Becomes,
    at: Place,
    had: Progress,
    first: u32,
    segments: &mut [u32],
    lanes: &mut [u32],
    zones: &mut [u32],
    checkpoints: &mut [u32],
) -> Result<(Place, Progress, u32), Fault>
    requires from_in_bounds { from < length text.now }
    requires text_len_bound { length text.now ≤ most }
    ensures { table.now ≡ rndf_table_of → total had ≤ 16777216 → first ≤ 16777216 → OneLine becomes (take (lf_from text.now from - from) (drop from text.now)) → stood result (λ p. few p segments.new lanes.new zones.new checkpoints.new) ≡ walked_line (inner edition) at (few had segments.old lanes.old zones.old checkpoints.old) from first becomes (take (lf_from text.now from - from) (drop from text.now)) }
{
    match becomes {
        Becomes::Stays => {
            let stop = line_stop(text, from);
            walk_few(
                edition,
                table,
                &text[..stop],
                from,
                at,
                had,
                first,
                segments,
                lanes,
                zones,
                checkpoints,
            )
        }
        Becomes::Goes(_) => Ok((at, had, first)),
        Becomes::Recount(start, stop, n) => {
            let e = far_byte_from(text, from, 10);
            walk_changed(
                edition,
                table,
                &text[from..e],
                Becomes::Recount(start, stop, n),
                at,
                had,
                first,
                segments,
                lanes,
                zones,
                checkpoints,
            )
        }
    }
}

// All lines that come out. 1 of a text that is too long.
pub fn walk_mended(
    edition: Edition,
    text: &[u8],
    segments: &mut [u32],
    lanes: &mut [u32],
    zones: &mut [u32],
    checkpoints: &mut [u32],
) -> Result<(Place, Progress, u32), Fault>
    ensures { length text.now ≤ most → stood result (λ p. few p segments.new lanes.new zones.new checkpoints.new) ≡ mended_walk (inner edition) none_before_of first_place (few no_progress segments.old lanes.old zones.old checkpoints.old) 0 1 (lines_of text.now) }
{
    if LONGEST_TEXT < text.len() {
        return Err(Fault { line: 0, number: 1 });
    }
    let table = rndf_table();
    let mut before = Before::none();
    let mut place = Place::start();
    let mut gained = Progress::none();
    let mut from: usize = 0;
    let mut line: u32 = 1;
    while from < text.len() {
        let e = far_byte_from(text, from, 10);
        let bytes = &text[from..e];
        let kind = line_kind(bytes);
        let becomes = line_change(text, bytes, e + 1, kind, before);
        let walked = walk_line(
            edition,
            &table,
            text,
            from,
            becomes,
            place,
            gained,
            line,
            segments,
            lanes,
            zones,
            checkpoints,
        );
        match walked {
            Err(fault) => {
                return Err(fault);
            }
            Ok((q, more, next)) => {
                place = q;
                gained = more;
                line = next;
            }
        }
        before = before.after(kind);
        from = e + 1;
    }
    Ok((place, gained, line))
}
