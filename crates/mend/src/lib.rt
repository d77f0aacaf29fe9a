// The mending tool (request L9): counts that disagree with their items, single options given again and lines behind the first `end_file` are mended, and each change is listed. What is replied, and what the
// lent list and the lent output then hold, is `mend_law`/specs/Mends, `Mends`: for all texts, lists and outputs. Nothing is required.
//
// The list is the work space, too: no mended text is kept while it is decided whether a reader would take it (26), since the output may be too short for it (19, which comes later). One walk over the lines
// that come out (`mend_walk`) tells their form and fills the list with the checkpoints, for repeated numbers; three more fill it with segments, lanes and zones, one table in one walk, since two parts of a
// slice cannot be lent at once; then every exit's entry is looked up. That the rows fit into a list with a row for each line is proved (`mend_good`). At last the pieces are put out and the rows listed.
//
// specs/Mending: the same, executable. proofs/: what is found is what the law asks (Deciding), what is left is what it says (Leaving).
//
// Rests on `mend_walk`, `mend_passes`, `mend_good`, `mend_told`, `mend_alike`, `mend_law`, `marks`, `output`, `rows` and what they rest on.
#![tactic(auto)]

ghost use Rattle.std.specs.Prelude.{◌≡◌, [], ◌-◌, ◌/◌, ◌≤◌, length, take, drop, replicate, Err};
ghost use Rattle.refusal.specs.Size.{most};
ghost use Rattle.edition.specs.Editions.{inner, rules_of};
ghost use Rattle.line.specs.Lines.{lines_of};
ghost use Rattle.replies.specs.Replies.{refusal};
ghost use Rattle.output.specs.Output.{zero_bytes};
ghost use Rattle.mend_law.specs.Mends.{Mends};
ghost use Rattle.references.specs.Finding.{look_in};
ghost use Rattle.mend_lines.specs.Forward.{none_before_of};
ghost use Rattle.mend_passes.specs.Passes.{are_exits_right_of};
ghost use Rattle.mend.specs.Mending.{walk_with, SegmentsIn, LanesIn, ZonesIn, EntriesTold, FormTold, GoodTold, PutOut};

use edition::Edition;
use marks::first_repeat;
use mend_law::MendReply;
use mend_passes::{are_exits_right, lines_in, list_changes, mended_length, put_mended};
use mend_walk::walk_mended;
use output::{MOST, clear_output, finish};
use progress::Progress;
use refusal::{LONGEST_TEXT, Refusal};
use rows::{clear, rows_of};

// ## Tables for the references, each by a walk of its own. What a walk answers is known by then (`form_of`).
fn fill_segments(edition: Edition, text: &[u8], segments: &mut [u32])
    ensures { length text.now ≤ most → SegmentsIn (inner edition) text.now segments.old segments.new }
{
    let mut lanes: [u32; 0] = [0; 0];
    let mut zones: [u32; 0] = [0; 0];
    let mut checkpoints: [u32; 0] = [0; 0];
    let _ = walk_mended(
        edition,
        text,
        segments,
        &mut lanes,
        &mut zones,
        &mut checkpoints,
    );
}

fn fill_lanes(edition: Edition, text: &[u8], lanes: &mut [u32])
    ensures { length text.now ≤ most → LanesIn (inner edition) text.now lanes.old lanes.new }
{
    let mut segments: [u32; 0] = [0; 0];
    let mut zones: [u32; 0] = [0; 0];
    let mut checkpoints: [u32; 0] = [0; 0];
    let _ = walk_mended(
        edition,
        text,
        &mut segments,
        lanes,
        &mut zones,
        &mut checkpoints,
    );
}

fn fill_zones(edition: Edition, text: &[u8], zones: &mut [u32])
    ensures { length text.now ≤ most → ZonesIn (inner edition) text.now zones.old zones.new }
{
    let mut segments: [u32; 0] = [0; 0];
    let mut lanes: [u32; 0] = [0; 0];
    let mut checkpoints: [u32; 0] = [0; 0];
    let _ = walk_mended(
        edition,
        text,
        &mut segments,
        &mut lanes,
        zones,
        &mut checkpoints,
    );
}

// Every exit's entry is declared, by tables that stand one behind the other: segments up to word a, lanes up to word b, then zones.
fn are_entries_declared(text: &[u8], tables: &[u32], a: usize, b: usize, segment_count: u32) -> bool
    requires a_le_b { a ≤ b }
    requires b_in_bounds { b ≤ length tables.now }
    ensures { result ≡ are_exits_right_of (look_in (take a tables.now) (take (b - a) (drop a tables.now)) (drop b tables.now)) segment_count none_before_of (lines_of text.now) }
{
    are_exits_right(
        text,
        &tables[..a],
        &tables[a..b],
        &tables[b..],
        segment_count,
    )
}

// 12: every entry is declared. The rows of segments, lanes and zones stand one behind the other in the list.
fn are_entries_right(edition: Edition, text: &[u8], list: &mut [u32], gained: Progress) -> bool
    requires { length text.now ≤ most }
    ensures { EntriesTold (inner edition) text.now (length list.old) gained result }
{
    let a = gained.segments as usize * 4;
    let b = a + gained.lanes as usize * 5;
    if list.len() < b + gained.zones as usize * 6 {
        return false;
    }
    clear(list);
    fill_segments(edition, text, &mut list[..a]);
    fill_lanes(edition, text, &mut list[a..b]);
    fill_zones(edition, text, &mut list[b..]);
    are_entries_declared(text, list, a, b, gained.segments)
}

// The list then holds the checkpoints.
fn form_of(edition: Edition, text: &[u8], list: &mut [u32]) -> Option<Progress>
    requires { length text.now ≤ most }
    ensures { FormTold (walk_with (inner edition) text.now [] [] [] list.old) result list.new }
{
    let mut segments: [u32; 0] = [0; 0];
    let mut lanes: [u32; 0] = [0; 0];
    let mut zones: [u32; 0] = [0; 0];
    let walked = walk_mended(edition, text, &mut segments, &mut lanes, &mut zones, list);
    match walked {
        Err(_) => None,
        Ok((place, gained, _)) => { if place.is_over() { Some(gained) } else { None } }
    }
}

// A reader with room enough accepts the mended text. The list is the work space.
fn is_good(edition: Edition, text: &[u8], list: &mut [u32]) -> bool
    requires text_len_bound { length text.now ≤ most }
    requires text_in_bounds { length (lines_of text.now) ≤ length list.old / 2 }
    ensures { GoodTold edition text.now result }
{
    clear(list);
    let Some(gained) = form_of(edition, text, list) else {
        return false;
    };
    if MOST < mended_length(text) {
        return false;
    }
    let repeated = first_repeat(list, gained.checkpoints);
    match repeated {
        Some(_) => false,
        None => are_entries_right(edition, text, list, gained),
    }
}

// ## The tool
fn refused(list: &mut [u32], out: &mut [u8], file: u8, number: u8) -> MendReply
    ensures value { result ≡ Err (refusal file 0 number 0) }
    ensures list_after { list.new ≡ replicate (length list.old) 0 }
    ensures out_after { out.new ≡ zero_bytes (length out.old) }
{
    clear(list);
    clear_output(out);
    Err(Refusal {
        file,
        line: 0,
        number,
        column: 0,
    })
}

// What a reader would take: the pieces put out (19), and the changes listed.
fn put_out(list: &mut [u32], out: &mut [u8], text: &[u8]) -> MendReply
    requires text_len_bound { length text.now ≤ most }
    requires text_in_bounds { length (lines_of text.now) ≤ length list.old / 2 }
    ensures { PutOut text.now list.old (length out.old) result list.new out.new }
{
    clear_output(out);
    let at = put_mended(out, text);
    let finished = finish(out, at);
    match finished {
        Some(bytes) => {
            clear(list);
            let rows = list_changes(list, text);
            Ok((rows, bytes as u32))
        }
        None => refused(list, out, 1, 19),
    }
}

pub fn mend(edition: Edition, text: &[u8], list: &mut [u32], out: &mut [u8]) -> MendReply
    ensures { Mends (rules_of edition) text.now list.old (length out.old) result list.new out.new }
{
    if LONGEST_TEXT < text.len() {
        return refused(list, out, 1, 1);
    }
    if rows_of(list.len(), 2) < lines_in(text) {
        return refused(list, out, 1, 11);
    }
    if is_good(edition, text, list) {
        return put_out(list, out, text);
    }
    refused(list, out, 0, 26)
}
