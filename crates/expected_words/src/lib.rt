// What a field and a line may be, as the program has it, and their words put into a lent output: those of expected_law/specs/Telling, for every item, form and output; nothing is required.
//
// specs/Items: what each item and form of the program stands for. proofs/Laws, proofs/Lengths: laws of the words for callers, and how long they are at most.
//
// Rests on `expected_law` (the words), `word` (the keywords), `edition`, `shown` and `output` (each put ensures `Wrote`).
#![tactic(auto)]

ghost use Rattle.std.specs.Prelude.{◌≡◌, [], ◌++◌};
ghost use Rattle.terms.specs.Ascii.{ascii};
ghost use Rattle.output.specs.Pen.{pen, Wrote};
ghost use Rattle.edition.specs.Editions.{inner};
ghost use Rattle.expected_law.specs.Expected.{ceiling};
ghost use Rattle.expected_law.specs.Items.{from_to, own, an_entry, boundaries};
ghost use Rattle.expected_law.specs.Telling.{shape, form_words, item_words, range, owed_words, and_more};
ghost use Rattle.expected_words.specs.Items.{rndf_word, mdf_word, law_item, law_form, capitals, fixed_words, the_point_words_of};

use edition::Edition;
use output::{put_bytes, put_integer, put_pair, put_triple};
use shown::line_of;

// What a field may be. A keyword by its kind: of an RNDF (`statement::kinds`) or of an MDF (`statement::orders`); a number from one to another; the part m.n; a point m.n.i, i from one
// to another; the entry of an exit, with y from this on; a limit's three fields; the boundaries of an edition.
#[derive(Clone, Copy)]
pub enum Item {
    Word(u8),
    Order(u8),
    Name,
    Number(u32, u32),
    Part(u32, u32),
    Point(u32, u32, u32, u32),
    Entry(u32),
    Id,
    Minimum,
    Maximum,
    Latitude,
    Longitude,
    Boundary(Edition),
}

// What a line may be: the first so many of these items, 1 to 3.
#[derive(Clone, Copy)]
pub struct Form {
    pub count: u8,
    pub a: Item,
    pub b: Item,
    pub c: Item,
}

// ## Keywords, in the order of their kinds, a line each

fn put_word(out: &mut [u8], at: usize, kind: u8) -> usize
    ensures { Wrote (pen out.old at) (rndf_word kind) (pen out.new result) }
{
    let words =
        b"RNDF_name\nnum_segments\nnum_zones\nformat_version\ncreation_date\nsegment\nnum_lanes\nsegment_name\nend_segment\nlane\nnum_waypoints\nlane_width\nleft_boundary\nright_boundary\ncheckpoint\nstop\nexit\nend_lane\nzone\nnum_spots\nzone_name\nend_zone\nperimeter\nnum_perimeterpoints\nend_perimeter\nspot\nspot_width\nend_spot\nend_file\n";
    put_bytes(out, at, line_of(words, kind as u32 + 1))
}

fn put_order(out: &mut [u8], at: usize, kind: u8) -> usize
    ensures { Wrote (pen out.old at) (mdf_word kind) (pen out.new result) }
{
    let words =
        b"MDF_name\nRNDF\nformat_version\ncreation_date\ncheckpoints\nnum_checkpoints\nend_checkpoints\nspeed_limits\nnum_speed_limits\nend_speed_limits\nend_file\n";
    put_bytes(out, at, line_of(words, kind as u32 + 1))
}

// ## By shape

fn put_number_shape(out: &mut [u8], at: usize, low: u32, high: u32) -> usize
    ensures { Wrote (pen out.old at) (shape (from_to low high)) (pen out.new result) }
{
    if low == high {
        return put_integer(out, at, low);
    }
    put_bytes(out, at, b"NUMBER")
}

fn put_point_shape(out: &mut [u8], at: usize, m: u32, n: u32, low: u32, high: u32) -> usize
    ensures { Wrote (pen out.old at) (shape (own m n low high)) (pen out.new result) }
{
    if low == high {
        return put_triple(out, at, m, n, low);
    }
    put_bytes(out, at, b"POINT")
}

// The items that capitals always stand for; of another nothing.
fn put_capitals(out: &mut [u8], at: usize, i: Item) -> usize
    ensures { Wrote (pen out.old at) (capitals i) (pen out.new result) }
{
    match i {
        Item::Name => put_bytes(out, at, b"NAME"),
        Item::Entry(_) => put_bytes(out, at, b"ENTRY"),
        Item::Id => put_bytes(out, at, b"ID"),
        Item::Minimum => put_bytes(out, at, b"MINIMUM"),
        Item::Maximum => put_bytes(out, at, b"MAXIMUM"),
        Item::Latitude => put_bytes(out, at, b"LATITUDE"),
        Item::Longitude => put_bytes(out, at, b"LONGITUDE"),
        Item::Boundary(_) => put_bytes(out, at, b"BOUNDARY"),
        _ => at,
    }
}

fn put_shape(out: &mut [u8], at: usize, i: Item) -> usize
    ensures { Wrote (pen out.old at) (shape (law_item i)) (pen out.new result) }
{
    match i {
        Item::Word(kind) => put_word(out, at, kind),
        Item::Order(kind) => put_order(out, at, kind),
        Item::Number(low, high) => put_number_shape(out, at, low, high),
        Item::Part(m, n) => put_pair(out, at, m, n),
        Item::Point(m, n, low, high) => put_point_shape(out, at, m, n, low, high),
        _ => put_capitals(out, at, i),
    }
}

// ` POINT`, of an item behind others.
fn put_next_shape(out: &mut [u8], at: usize, i: Item) -> usize
    ensures { Wrote (pen out.old at) (ascii " " ++ shape (law_item i)) (pen out.new result) }
{
    let a = put_bytes(out, at, b" ");
    put_shape(out, a, i)
}

// A line by its shape: `lane 1.1`.
pub fn put_form(out: &mut [u8], at: usize, f: Form) -> usize
    ensures { Wrote (pen out.old at) (form_words (law_form f)) (pen out.new result) }
{
    if f.count == 0 {
        return at;
    }
    let first = f.a;
    let a = put_shape(out, at, first);
    if f.count == 1 {
        return a;
    }
    let second = f.b;
    let b = put_next_shape(out, a, second);
    if f.count == 2 {
        return b;
    }
    let third = f.c;
    put_next_shape(out, b, third)
}

// ## By range

// `from 1 to 32768`
fn put_range(out: &mut [u8], at: usize, low: u32, high: u32) -> usize
    ensures { Wrote (pen out.old at) (range (low, high)) (pen out.new result) }
{
    let a = put_bytes(out, at, b"from ");
    let b = put_integer(out, a, low);
    let c = put_bytes(out, b, b" to ");
    put_integer(out, c, high)
}

fn put_number_words(out: &mut [u8], at: usize, low: u32, high: u32) -> usize
    ensures { Wrote (pen out.old at) (item_words [] (from_to low high)) (pen out.new result) }
{
    if low == high {
        return put_integer(out, at, low);
    }
    let a = put_bytes(out, at, b"a number ");
    put_range(out, a, low, high)
}

// `1.1.1 to 1.1.3`, or `2.1.1`
pub fn put_point_words(out: &mut [u8], at: usize, m: u32, n: u32, low: u32, high: u32) -> usize
    ensures { Wrote (pen out.old at) (the_point_words_of m n low high) (pen out.new result) }
{
    let a = put_triple(out, at, m, n, low);
    if low == high {
        return a;
    }
    let b = put_bytes(out, a, b" to ");
    put_triple(out, b, m, n, high)
}

fn put_entry_words(out: &mut [u8], at: usize, low: u32) -> usize
    ensures { Wrote (pen out.old at) (item_words [] (an_entry low)) (pen out.new result) }
{
    let a = put_bytes(out, at, b"X.Y.Z with X from 1 to 32768, Y ");
    let b = put_range(out, a, low, 32768);
    put_bytes(out, b, b", Z from 1 to 32768")
}

// The maximum behind a minimum of these bytes.
fn put_maximum_words(out: &mut [u8], at: usize, before: &[u8]) -> usize
    ensures { Wrote (pen out.old at) (item_words before.now ceiling) (pen out.new result) }
{
    let a = put_bytes(out, at, b"0, or a number from ");
    let b = put_bytes(out, a, before);
    put_bytes(out, b, b" to 32768")
}

fn put_boundaries(out: &mut [u8], at: usize, e: Edition) -> usize
    ensures { Wrote (pen out.old at) (item_words [] (boundaries (inner e))) (pen out.new result) }
{
    match e {
        Edition::March2007 => put_bytes(
            out,
            at,
            b"double_yellow, solid_yellow, solid_white, broken_white",
        ),
        Edition::December2006 => put_bytes(out, at, b"double_yellow, solid_white, broken_white"),
    }
}

// The items that are always told in the same words; of another nothing.
fn put_fixed_words(out: &mut [u8], at: usize, i: Item) -> usize
    ensures { Wrote (pen out.old at) (fixed_words i) (pen out.new result) }
{
    match i {
        Item::Name => put_bytes(out, at, b"a name of 1 to 128 bytes"),
        Item::Id => put_bytes(out, at, b"a number from 1 to 32768"),
        Item::Minimum => put_bytes(out, at, b"a number from 0 to 32768"),
        Item::Latitude => put_bytes(
            out,
            at,
            b"a latitude from -90.000000 to 90.000000, six digits behind the point",
        ),
        Item::Longitude => put_bytes(
            out,
            at,
            b"a longitude from -180.000000 to 180.000000, six digits behind the point",
        ),
        _ => at,
    }
}

// A field by its range, behind a field of the bytes `before`.
pub fn put_item(out: &mut [u8], at: usize, before: &[u8], i: Item) -> usize
    ensures { Wrote (pen out.old at) (item_words before.now (law_item i)) (pen out.new result) }
{
    match i {
        Item::Word(kind) => put_word(out, at, kind),
        Item::Order(kind) => put_order(out, at, kind),
        Item::Number(low, high) => put_number_words(out, at, low, high),
        Item::Part(m, n) => put_pair(out, at, m, n),
        Item::Point(m, n, low, high) => put_point_words(out, at, m, n, low, high),
        Item::Entry(low) => put_entry_words(out, at, low),
        Item::Maximum => put_maximum_words(out, at, before),
        Item::Boundary(e) => put_boundaries(out, at, e),
        _ => put_fixed_words(out, at, i),
    }
}

// ## Counts

// ` (1 such line is still owed)`, nothing for 0.
pub fn put_owed(out: &mut [u8], at: usize, owed: u32) -> usize
    ensures { Wrote (pen out.old at) (owed_words owed) (pen out.new result) }
{
    if owed == 0 {
        return at;
    }
    if owed == 1 {
        return put_bytes(out, at, b" (1 such line is still owed)");
    }
    let a = put_bytes(out, at, b" (");
    let b = put_integer(out, a, owed);
    put_bytes(out, b, b" such lines are still owed)")
}

// ` and 26 more`, nothing for 0.
pub fn put_and_more(out: &mut [u8], at: usize, more: u32) -> usize
    ensures { Wrote (pen out.old at) (and_more more) (pen out.new result) }
{
    if more == 0 {
        return at;
    }
    let a = put_bytes(out, at, b" and ");
    let b = put_integer(out, a, more);
    put_bytes(out, b, b" more")
}
