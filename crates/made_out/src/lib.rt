// The fields behind a keyword, made out as one statement of its kind; or a field is not of its kind (refusal 8).
// A kind is its row in the table of places by statements. The fields are stretches of the line, which starts at `base` in the text.
// Every input has an answer: nothing is made of a row that is no kind, nor of a line whose end does not fit into 32 bits; of a stretch, what the line has of it counts.
//
// specs/Made: what is made of the fields, by the shape of the kind. proofs/Ties: it is what `text` reads of the same fields.
//
// Rests on `statement`, `line`, `number`, `coordinate`, `word`, `text`, `grammar`, `scan` and `terms`.
#![tactic(auto)]

ghost use Rattle.std.specs.Prelude.{◌≡◌, ◌<◌, ◌+◌, length, get_or, ltb};
ghost use Rattle.line.specs.Forms.{part};
ghost use Rattle.number.specs.Executable.{the_integer_of, the_pair_of, triple_of};
ghost use Rattle.coordinate.specs.Executable.{the_coordinate_of};
ghost use Rattle.word.specs.Number.{boundary_number};
ghost use Rattle.made_out.specs.Made.{shapes, fields_needed_of, bare_of, named_of, numbered_of, paired_of, sided_of, name_made_of, number_made_of, pair_made_of, side_made_of, checkpoint_made_of, stop_made_of, exit_made_of, point_made_of, made_of, made_within};
ghost use Rattle.made_out.specs.MadeOrders.{order_shapes, order_fields_needed_of, bare_order_of, named_order_of, numbered_order_of, name_ordered_of, number_ordered_of, limit_ordered_of, order_made_of, order_made_within};

use coordinate::coordinate_of;
use line::{Fields, Span};
use number::{Id, integer_of, is_name_length, pair_of, triple_of};
use statement::{Order, Statement, kinds, orders};
use word::boundary_word;

// What stands behind the keyword of each kind, in the order of kinds: 0 nothing, 1 a name, 2 an integer, 3 an identifier m.n, 4 a boundary,
// 5 an identifier x.y.z and an integer, 6 an identifier x.y.z, 7 two of them; 8: no keyword, an identifier x.y.z and two coordinates.
const SHAPE: [u8; 30] = [
    1, 2, 2, 1, 1, 2, 2, 1, 0, 3, 2, 2, 4, 4, 5, 6, 7, 0, 2, 2, 1, 0, 3, 2, 0, 3, 2, 0, 0, 8,
];

// What stands behind the keyword of a kind; 0 where there is no such kind.
pub fn shape_of(kind: u8) -> u8
    ensures { result ≡ get_or shapes kind 0 }
{
    if kind < 30 { SHAPE[kind as usize] } else { 0 }
}

pub fn bare(kind: u8) -> Statement
    ensures { result ≡ bare_of kind }
{
    match kind {
        kinds::END_SEGMENT => Statement::EndSegment,
        kinds::END_LANE => Statement::EndLane,
        kinds::END_ZONE => Statement::EndZone,
        kinds::END_PERIMETER => Statement::EndPerimeter,
        kinds::END_SPOT => Statement::EndSpot,
        _ => Statement::EndFile,
    }
}

pub fn named(kind: u8, start: u32, length: u32) -> Statement
    ensures { result ≡ named_of kind start length }
{
    match kind {
        kinds::RNDF_NAME => Statement::RndfName(start, length),
        kinds::FORMAT_VERSION => Statement::FormatVersion(start, length),
        kinds::CREATION_DATE => Statement::CreationDate(start, length),
        kinds::SEGMENT_NAME => Statement::SegmentName(start, length),
        _ => Statement::ZoneName(start, length),
    }
}

pub fn numbered(kind: u8, n: u32) -> Statement
    ensures { result ≡ numbered_of kind n }
{
    match kind {
        kinds::NUM_SEGMENTS => Statement::NumSegments(n),
        kinds::NUM_ZONES => Statement::NumZones(n),
        kinds::SEGMENT => Statement::Segment(n),
        kinds::NUM_LANES => Statement::NumLanes(n),
        kinds::NUM_WAYPOINTS => Statement::NumWaypoints(n),
        kinds::LANE_WIDTH => Statement::LaneWidth(n),
        kinds::ZONE => Statement::Zone(n),
        kinds::NUM_SPOTS => Statement::NumSpots(n),
        kinds::NUM_PERIMETERPOINTS => Statement::NumPerimeterpoints(n),
        _ => Statement::SpotWidth(n),
    }
}

pub fn paired(kind: u8, m: u32, n: u32) -> Statement
    ensures { result ≡ paired_of kind m n }
{
    match kind {
        kinds::LANE => Statement::Lane(m, n),
        kinds::PERIMETER => Statement::Perimeter(m, n),
        _ => Statement::Spot(m, n),
    }
}

pub fn sided(kind: u8, b: u8) -> Statement
    ensures { result ≡ sided_of kind b }
{
    if kind == 12 {
        Statement::LeftBoundary(b)
    } else {
        Statement::RightBoundary(b)
    }
}

// A field, by its stretch: what the line has of it.
fn field(s: &[u8], f: Span) -> &[u8]
    ensures { result.now ≡ part s.now f }
{
    let a = f.start;
    let e = f.stop;
    if a < e {
        if e <= s.len() {
            return &s[a..e];
        }
        if a < s.len() {
            return &s[a..];
        }
    }
    &s[..0]
}

// A line's end fits into 32 bits.
pub fn line_fits(base: usize, length: usize) -> bool
    ensures { result ≡ ltb (base + length) 4294967296 }
{
    length < 4294967296 && base < 4294967296 - length
}

// The statement of each shape.
fn name_made(kind: u8, base: usize, s: &[u8], f: Span) -> Option<Statement>
    requires { base + length s.now < 4294967296 }
    ensures { result ≡ name_made_of kind base s.now f }
{
    let name = field(s, f);
    let n = name.len();
    if is_name_length(n) {
        Some(named(kind, (base + f.start) as u32, n as u32))
    } else {
        None
    }
}

fn number_made(kind: u8, n: Option<u32>) -> Option<Statement>
    ensures { result ≡ number_made_of kind n }
{
    Some(numbered(kind, n?))
}

fn pair_made(kind: u8, p: Option<(u32, u32)>) -> Option<Statement>
    ensures { result ≡ pair_made_of kind p }
{
    let (m, n) = p?;
    Some(paired(kind, m, n))
}

fn side_made(kind: u8, b: u8) -> Option<Statement>
    ensures { result ≡ side_made_of kind b }
{
    if b == 0 { None } else { Some(sided(kind, b)) }
}

fn checkpoint_made(i: Option<Id>, n: Option<u32>) -> Option<Statement>
    ensures { result ≡ checkpoint_made_of i n }
{
    Some(Statement::Checkpoint(i?, n?))
}

fn stop_made(i: Option<Id>) -> Option<Statement>
    ensures { result ≡ stop_made_of i }
{
    Some(Statement::Stop(i?))
}

fn exit_made(i: Option<Id>, j: Option<Id>) -> Option<Statement>
    ensures { result ≡ exit_made_of i j }
{
    Some(Statement::Exit(i?, j?))
}

fn point_made(i: Option<Id>, a: Option<i32>, o: Option<i32>) -> Option<Statement>
    ensures { result ≡ point_made_of i a o }
{
    Some(Statement::Point(i?, a?, o?))
}

// How many fields a line of the kind has, its keyword among them; none for a row that is no kind.
pub fn fields_needed(kind: u8) -> u8
    ensures { result ≡ fields_needed_of kind }
{
    if kind < 30 {
        let shape = shape_of(kind);
        match shape {
            0 => 1,
            5 => 3,
            7 => 3,
            8 => 3,
            _ => 2,
        }
    } else {
        0
    }
}

fn made_of_kind(s: &[u8], base: usize, f: Fields, kind: u8) -> Option<Statement>
    requires { (base + length s.now < 4294967296) × (kind < 30) }
    ensures { result ≡ made_of s.now base f kind }
{
    let a = f.a;
    let b = f.b;
    let c = f.c;
    let shape = shape_of(kind);
    match shape {
        0 => Some(bare(kind)),
        1 => name_made(kind, base, s, b),
        2 => number_made(kind, integer_of(field(s, b))),
        3 => pair_made(kind, pair_of(field(s, b))),
        4 => side_made(kind, boundary_word(field(s, b))),
        5 => checkpoint_made(triple_of(field(s, b)), integer_of(field(s, c))),
        6 => stop_made(triple_of(field(s, b))),
        7 => exit_made(triple_of(field(s, b)), triple_of(field(s, c))),
        _ => point_made(
            triple_of(field(s, a)),
            coordinate_of(field(s, b)),
            coordinate_of(field(s, c)),
        ),
    }
}

// The statement that the fields of a line make, given that there are as many as its kind needs.
pub fn made_out(s: &[u8], base: usize, f: Fields, kind: u8) -> Option<Statement>
    ensures { result ≡ made_within s.now base f kind }
{
    if kind < 30 && line_fits(base, s.len()) {
        made_of_kind(s, base, f, kind)
    } else {
        None
    }
}

// What stands behind the keyword: 0 nothing, 1 a name, 2 an integer; 3 and 4: no keyword, one integer, three.
const ORDER_SHAPE: [u8; 13] = [1, 1, 1, 1, 0, 2, 0, 0, 2, 0, 0, 3, 4];

fn order_shape(kind: u8) -> u8
    requires { kind < 13 }
    ensures { result ≡ get_or order_shapes kind 0 }
{
    ORDER_SHAPE[kind as usize]
}

fn bare_order(kind: u8) -> Order
    ensures { result ≡ bare_order_of kind }
{
    match kind {
        orders::CHECKPOINTS => Order::Checkpoints,
        orders::END_CHECKPOINTS => Order::EndCheckpoints,
        orders::SPEED_LIMITS => Order::SpeedLimits,
        orders::END_SPEED_LIMITS => Order::EndSpeedLimits,
        _ => Order::EndFile,
    }
}

fn named_order(kind: u8, start: u32, length: u32) -> Order
    ensures { result ≡ named_order_of kind start length }
{
    match kind {
        orders::MDF_NAME => Order::MdfName(start, length),
        orders::RNDF => Order::Rndf(start, length),
        orders::FORMAT_VERSION => Order::FormatVersion(start, length),
        _ => Order::CreationDate(start, length),
    }
}

fn numbered_order(kind: u8, n: u32) -> Order
    ensures { result ≡ numbered_order_of kind n }
{
    match kind {
        orders::NUM_CHECKPOINTS => Order::NumCheckpoints(n),
        orders::NUM_SPEED_LIMITS => Order::NumSpeedLimits(n),
        _ => Order::Goal(n),
    }
}

fn name_ordered(kind: u8, base: usize, s: &[u8], f: Span) -> Option<Order>
    requires { base + length s.now < 4294967296 }
    ensures { result ≡ name_ordered_of kind base s.now f }
{
    let name = field(s, f);
    let n = name.len();
    if is_name_length(n) {
        Some(named_order(kind, (base + f.start) as u32, n as u32))
    } else {
        None
    }
}

fn number_ordered(kind: u8, n: Option<u32>) -> Option<Order>
    ensures { result ≡ number_ordered_of kind n }
{
    Some(numbered_order(kind, n?))
}

fn limit_ordered(i: Option<u32>, a: Option<u32>, b: Option<u32>) -> Option<Order>
    ensures { result ≡ limit_ordered_of i a b }
{
    Some(Order::Limit(i?, a?, b?))
}

pub fn order_fields_needed(kind: u8) -> u8
    ensures { result ≡ order_fields_needed_of kind }
{
    if kind < 13 {
        let shape = order_shape(kind);
        match shape {
            0 => 1,
            3 => 1,
            4 => 3,
            _ => 2,
        }
    } else {
        0
    }
}

fn order_of_kind(s: &[u8], base: usize, f: Fields, kind: u8) -> Option<Order>
    requires { (base + length s.now < 4294967296) × (kind < 13) }
    ensures { result ≡ order_made_of s.now base f kind }
{
    let a = f.a;
    let b = f.b;
    let c = f.c;
    let shape = order_shape(kind);
    match shape {
        0 => Some(bare_order(kind)),
        1 => name_ordered(kind, base, s, b),
        2 => number_ordered(kind, integer_of(field(s, b))),
        3 => number_ordered(kind, integer_of(field(s, a))),
        _ => limit_ordered(
            integer_of(field(s, a)),
            integer_of(field(s, b)),
            integer_of(field(s, c)),
        ),
    }
}

// The order that the fields of a line make, given that there are as many as its kind needs.
pub fn order_made_out(s: &[u8], base: usize, f: Fields, kind: u8) -> Option<Order>
    ensures { result ≡ order_made_within s.now base f kind }
{
    if kind < 13 && line_fits(base, s.len()) {
        order_of_kind(s, base, f, kind)
    } else {
        None
    }
}
