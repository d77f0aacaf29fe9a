// What may stand at a place: the form of each statement there, and the list of those that may come next, put in the words of expected_law/specs/Telling.
//
// specs/Forms: the forms of a place, executable. specs/Listing: the words of a list that is put form by form; proofs/PutLists: that the whole list is what Telling says. Nothing is required of a place or a table.
//
// Rests on `expected_words` (the words of a form), `place`, `mission_place`, `made_out` (how many fields a statement has), `output` and what they rest on.
#![tactic(auto)]

ghost use Rattle.std.specs.Prelude.{◌≡◌, [], ◌∷◌, length};
ghost use Rattle.terms.specs.Words.{pick};
ghost use Rattle.output.specs.Pen.{pen, Wrote};
ghost use Rattle.place.specs.Step.{ready_of};
ghost use Rattle.expected_law.specs.Expected.{lines, fields, field};
ghost use Rattle.expected_law.specs.Telling.{told};
ghost use Rattle.expected_words.specs.Items.{law_item, law_form};
ghost use Rattle.expected_forms.specs.Forms.{rest_of, the_fewest_of, lowest_entry_of, due_number_of, first_item_of, second_item_of, third_item_of, rndf_form_of, is_due_of, is_open, kinds_from, forms_of, the_owed_of, forms_at, order_first_of, order_second_of, order_form_of, is_due_order_of, is_open_order_of, owed_orders_of, order_forms, order_forms_at};
ghost use Rattle.expected_forms.specs.Listing.{leading_comma, list_end, field_count, Lists};

use edition::Edition;
use expected_words::{Form, Item, put_form, put_item, put_owed};
use made_out::{fields_needed, order_fields_needed};
use mission_place::MissionPlace;
use output::{put_bytes, put_integer};
use place::{Open, Place};
use place_table::{OFTEN, mdf, rndf};
use statement::{kinds, orders};

// The largest number of document 01.
const LARGEST: u32 = 32768;

// ## The form of a statement of an RNDF

// How many zones there may be beside so many segments.
#[tactic(auto, unfolding(crate::specs::Forms::rest_of))]
fn rest_of(segments: u32) -> u32
    ensures { result ≡ rest_of segments }
{
    LARGEST.saturating_sub(segments)
}

// How few spots a zone may have (L10).
fn fewest_of(edition: Edition) -> u32
    ensures { result ≡ the_fewest_of edition }
{
    match edition {
        Edition::March2007 => 0,
        Edition::December2006 => 1,
    }
}

// The least y of an entry: an exit of a perimeter leads to a lane.
#[tactic(auto, unfolding(crate::specs::Forms::lowest_entry_of))]
fn lowest_entry(part: Open) -> u32
    ensures { result ≡ lowest_entry_of part }
{
    match part {
        Open::Perimeter(_) => 1,
        _ => 0,
    }
}

// The number that is due, in 32 bits: no place that is reached has one of more.
fn due_number(p: Place) -> u32
    ensures { result ≡ due_number_of p }
{
    (p.due % 4294967296) as u32
}

// What the first field may be: of a point its identifier, else the keyword. Then the second and the third, whatever the count of fields is.
#[tactic(auto, unfolding(crate::specs::Forms::first_item_of))]
fn first_item(p: Place, kind: u8) -> Item
    ensures { result ≡ first_item_of p kind }
{
    let due = due_number(p);
    if kind == kinds::POINT {
        Item::Point(p.part.major(), p.part.minor(), due, due)
    } else {
        Item::Word(kind)
    }
}

#[tactic(auto, unfolding(crate::specs::Forms::second_item_of))]
fn second_item(edition: Edition, p: Place, kind: u8) -> Item
    ensures { result ≡ second_item_of edition p kind }
{
    let part = p.part;
    let m = part.major();
    let n = part.minor();
    let due = due_number(p);
    let w = p.points;
    let rest = rest_of(p.segments);
    let fewest = fewest_of(edition);
    let first = part.first_marked();
    match kind {
        kinds::NUM_SEGMENTS => Item::Number(1, LARGEST),
        kinds::NUM_ZONES => Item::Number(0, rest),
        kinds::SEGMENT => Item::Number(due, due),
        kinds::NUM_LANES => Item::Number(1, LARGEST),
        kinds::LANE => Item::Part(m, due),
        kinds::NUM_WAYPOINTS => Item::Number(1, LARGEST),
        kinds::LANE_WIDTH => Item::Number(0, LARGEST),
        kinds::LEFT_BOUNDARY | kinds::RIGHT_BOUNDARY => Item::Boundary(edition),
        kinds::CHECKPOINT => Item::Point(m, n, first, w),
        kinds::STOP | kinds::EXIT => Item::Point(m, n, 1, w),
        kinds::ZONE => Item::Number(due, due),
        kinds::NUM_SPOTS => Item::Number(fewest, LARGEST),
        kinds::PERIMETER => Item::Part(m, 0),
        kinds::NUM_PERIMETERPOINTS => Item::Number(1, LARGEST),
        kinds::SPOT => Item::Part(m, due),
        kinds::SPOT_WIDTH => Item::Number(1, LARGEST),
        kinds::POINT => Item::Latitude,
        _ => Item::Name,
    }
}

#[tactic(auto, unfolding(crate::specs::Forms::third_item_of))]
fn third_item(p: Place, kind: u8) -> Item
    ensures { result ≡ third_item_of p kind }
{
    match kind {
        kinds::CHECKPOINT => Item::Number(1, LARGEST),
        kinds::EXIT => Item::Entry(lowest_entry(p.part)),
        kinds::POINT => Item::Longitude,
        _ => Item::Name,
    }
}

// The form of a statement of this kind, with what is due and permitted at the place.
pub fn rndf_form(edition: Edition, p: Place, kind: u8) -> Form
    ensures { result ≡ rndf_form_of edition p kind }
{
    Form {
        count: fields_needed(kind),
        a: first_item(p, kind),
        b: second_item(edition, p, kind),
        c: third_item(p, kind),
    }
}

// ## What may stand at a place of an RNDF

// A list that is put: the next place, and whether anything was put.
#[derive(Clone, Copy)]
struct Listing {
    at: usize,
    some: bool,
}

// What stands before one form more.
fn put_leading_comma(out: &mut [u8], list: Listing) -> usize
    ensures { Wrote (pen out.old list.at) (leading_comma list.some) (pen out.new result) }
{
    if list.some {
        return put_bytes(out, list.at, b", ");
    }
    list.at
}

// One form more, where it may stand.
fn put_also(out: &mut [u8], list: Listing, may: bool, f: Form) -> Listing
    ensures { Lists (pen out.old list.at) list.some (pick may (law_form f ∷ []) []) (pen out.new result.at) result.some }
{
    if may {
        let a = put_leading_comma(out, list);
        let b = put_form(out, a, f);
        return Listing { at: b, some: true };
    }
    list
}

// Are the options given enough for the due statement? L8: a spot must have its checkpoint. As `Place` has it for itself.
#[tactic(auto, unfolding(place::specs::Step::ready_of))]
fn is_ready(p: Place) -> bool
    ensures { result ≡ ready_of p }
{
    p.row != rndf::FIRST_OF_SPOT_DUE || p.given.second
}

// The due statement.
#[tactic(auto, unfolding(crate::specs::Forms::is_due_of))]
fn is_due_kind(table: &[[u8; 30]; 27], p: Place, kind: u8) -> bool
    ensures { result ≡ is_due_of table.now p kind }
{
    p.cell(table, kind) < OFTEN && is_ready(p)
}

// An option that may still be given. 6 and 5 are refused alike: one given again is not listed.
#[tactic(auto, using(crate::proofs::Verdicts::ok_by_none), unfolding(crate::specs::Forms::is_open))]
fn is_open_kind(table: &[[u8; 30]; 27], p: Place, kind: u8) -> bool
    ensures { result ≡ is_open table.now p kind }
{
    let cell = p.cell(table, kind);
    OFTEN <= cell && p.refuses(cell).is_ok()
}

// The forms of the due statements, of which a place has one at most.
fn put_due(
    out: &mut [u8],
    list: Listing,
    edition: Edition,
    table: &[[u8; 30]; 27],
    p: Place,
) -> Listing
    ensures { Lists (pen out.old list.at) list.some (forms_of edition p (kinds_from (is_due_of table.now p) 0 30)) (pen out.new result.at) result.some }
{
    let mut to = list;
    for kind in 0..30 {
        to = put_also(
            out,
            to,
            is_due_kind(table, p, kind),
            rndf_form(edition, p, kind),
        );
    }
    to
}

// The forms of the open options.
fn put_open(
    out: &mut [u8],
    list: Listing,
    edition: Edition,
    table: &[[u8; 30]; 27],
    p: Place,
) -> Listing
    ensures { Lists (pen out.old list.at) list.some (forms_of edition p (kinds_from (is_open table.now p) 0 30)) (pen out.new result.at) result.some }
{
    let mut to = list;
    for kind in 0..30 {
        to = put_also(
            out,
            to,
            is_open_kind(table, p, kind),
            rndf_form(edition, p, kind),
        );
    }
    to
}

// How many points are still owed, where nothing but a point may stand.
#[tactic(auto, unfolding(crate::specs::Forms::the_owed_of))]
fn owed_of(p: Place) -> u32
    ensures { result ≡ the_owed_of p }
{
    match p.row {
        rndf::WAYPOINT_DUE | rndf::PERIMETERPOINT_DUE | rndf::SECOND_OF_SPOT_DUE => p.points,
        rndf::FIRST_OF_SPOT_DUE if p.given.first && p.given.second => p.points,
        _ => 0,
    }
}

// Behind the list, how many are owed; behind the file's end nothing may stand.
fn put_list_end(out: &mut [u8], list: Listing, owed: u32) -> usize
    ensures { Wrote (pen out.old list.at) (list_end list.some owed) (pen out.new result) }
{
    if list.some {
        return put_owed(out, list.at, owed);
    }
    put_bytes(
        out,
        list.at,
        b"nothing but blank lines and comments, for the file has ended",
    )
}

// `may stand here: lane 1.1, segment_name NAME`: what may stand at the place, the due statement first.
pub fn put_rndf_lines(
    out: &mut [u8],
    at: usize,
    edition: Edition,
    table: &[[u8; 30]; 27],
    p: Place,
) -> usize
    ensures { Wrote (pen out.old at) (told (lines (the_owed_of p) (forms_at edition table.now p))) (pen out.new result) }
{
    let a = put_bytes(out, at, b"may stand here: ");
    let due = put_due(out, Listing { at: a, some: false }, edition, table, p);
    let all = put_open(out, due, edition, table, p);
    put_list_end(out, all, owed_of(p))
}

// ## A line's fields, and one of them, of either file

// How many items a form has.
fn items_of(f: Form) -> u32
    ensures { result ≡ length (law_form f) }
{
    if f.count < 3 { f.count as u32 } else { 3 }
}

// ` (3 fields)`
fn put_field_count(out: &mut [u8], at: usize, count: u32) -> usize
    ensures { Wrote (pen out.old at) (field_count count) (pen out.new result) }
{
    let a = put_bytes(out, at, b" (");
    let b = put_integer(out, a, count);
    if count == 1 {
        return put_bytes(out, b, b" field)");
    }
    put_bytes(out, b, b" fields)")
}

// `may stand here: exit POINT ENTRY (3 fields)`
pub fn put_fields(out: &mut [u8], at: usize, f: Form) -> usize
    ensures { Wrote (pen out.old at) (told (fields (law_form f))) (pen out.new result) }
{
    let a = put_bytes(out, at, b"may stand here: ");
    let b = put_form(out, a, f);
    put_field_count(out, b, items_of(f))
}

// `may stand here: a number from 1 to 32768`
pub fn put_field(out: &mut [u8], at: usize, before: &[u8], i: Item) -> usize
    ensures { Wrote (pen out.old at) (told (field before.now (law_item i))) (pen out.new result) }
{
    let a = put_bytes(out, at, b"may stand here: ");
    put_item(out, a, before, i)
}

// ## The form of an order of an MDF

fn order_first(kind: u8) -> Item
    ensures { result ≡ order_first_of kind }
{
    match kind {
        orders::GOAL => Item::Number(1, LARGEST),
        orders::LIMIT => Item::Id,
        _ => Item::Order(kind),
    }
}

#[tactic(auto, unfolding(crate::specs::Forms::order_second_of))]
fn order_second(kind: u8) -> Item
    ensures { result ≡ order_second_of kind }
{
    match kind {
        orders::NUM_CHECKPOINTS | orders::NUM_SPEED_LIMITS => Item::Number(1, LARGEST),
        orders::LIMIT => Item::Minimum,
        _ => Item::Name,
    }
}

// The form of an order of this kind, the same at every place.
pub fn order_form(kind: u8) -> Form
    ensures { result ≡ order_form_of kind }
{
    Form {
        count: order_fields_needed(kind),
        a: order_first(kind),
        b: order_second(kind),
        c: Item::Maximum,
    }
}

// ## What may stand at a place of an MDF

fn is_due_order(table: &[[u8; 13]; 12], p: MissionPlace, kind: u8) -> bool
    ensures { result ≡ is_due_order_of table.now p kind }
{
    p.cell(table, kind) < OFTEN
}

#[tactic(auto, using(crate::proofs::Verdicts::ok_by_none), unfolding(crate::specs::Forms::is_open_order_of))]
fn is_open_order(table: &[[u8; 13]; 12], p: MissionPlace, kind: u8) -> bool
    ensures { result ≡ is_open_order_of table.now p kind }
{
    let cell = p.cell(table, kind);
    OFTEN <= cell && p.refuses(cell).is_ok()
}

fn put_due_order(out: &mut [u8], list: Listing, table: &[[u8; 13]; 12], p: MissionPlace) -> Listing
    ensures { Lists (pen out.old list.at) list.some (order_forms (kinds_from (is_due_order_of table.now p) 0 13)) (pen out.new result.at) result.some }
{
    let mut to = list;
    for kind in 0..13 {
        to = put_also(out, to, is_due_order(table, p, kind), order_form(kind));
    }
    to
}

fn put_open_orders(
    out: &mut [u8],
    list: Listing,
    table: &[[u8; 13]; 12],
    p: MissionPlace,
) -> Listing
    ensures { Lists (pen out.old list.at) list.some (order_forms (kinds_from (is_open_order_of table.now p) 0 13)) (pen out.new result.at) result.some }
{
    let mut to = list;
    for kind in 0..13 {
        to = put_also(out, to, is_open_order(table, p, kind), order_form(kind));
    }
    to
}

// How many goals or limits are still owed.
#[tactic(auto, unfolding(crate::specs::Forms::owed_orders_of))]
fn owed_orders(p: MissionPlace) -> u32
    ensures { result ≡ owed_orders_of p }
{
    match p.row {
        mdf::GOAL_DUE | mdf::LIMIT_DUE => p.owed,
        _ => 0,
    }
}

// What may stand at the place, as of an RNDF.
pub fn put_mdf_lines(out: &mut [u8], at: usize, table: &[[u8; 13]; 12], p: MissionPlace) -> usize
    ensures { Wrote (pen out.old at) (told (lines (owed_orders_of p) (order_forms_at table.now p))) (pen out.new result) }
{
    let a = put_bytes(out, at, b"may stand here: ");
    let due = put_due_order(out, Listing { at: a, some: false }, table, p);
    let all = put_open_orders(out, due, table, p);
    put_list_end(out, all, owed_orders(p))
}
