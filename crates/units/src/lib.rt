// Feet, miles per hour, checkpoint numbers and identifiers of segments or zones: four kinds of number that can't be handed over for one another.
// Each kind has its largest value and a constructor that refuses what is not of the kind: whoever tests a number of a kind goes by these. Numbers of no kind have
// their ranges here too, so that each stands in one place of the program. Rests on `terms`.
//
// Settled: every contract here reads `r ≡ f ..`, so no second answer satisfies it.
#![tactic(auto)]

ghost use Rattle.std.specs.Prelude.{◌≡◌};
ghost use Rattle.units.specs.Made.{in_range_of, feet_of, mph_of, the_checkpoint_number_of, the_segment_id_of, missing_feet};

// 01: "Integer: .. at most 32,768." A count of items and the number of a lane, spot or point are of no kind: this is all that limits them.
pub const LARGEST_INTEGER: u32 = 32768;

// 01: "a signed count of millionths of a degree: latitude -90,000,000 to 90,000,000, longitude -180,000,000 to 180,000,000".
pub const LEAST_LATITUDE: i32 = -90000000;

pub const LARGEST_LATITUDE: i32 = 90000000;

pub const LEAST_LONGITUDE: i32 = -180000000;

pub const LARGEST_LONGITUDE: i32 = 180000000;

// The number itself, where a kind has it: from its least number to its largest. Each kind's `new` is this.
fn in_range(n: u32, least: u32, largest: u16) -> Option<u16>
    ensures { result ≡ in_range_of least largest n }
{
    if least <= n && n <= largest as u32 {
        Some(n as u16)
    } else {
        None
    }
}

// Kept as it is: the new form is no plainer: one `Number<Kind>` would take a marker type and an alias for each kind, to save four structs of one line.
// A width in feet; 0 is a width.
#[derive(Clone, Copy)]
pub struct Feet(pub u16);

impl Feet {
    pub const LARGEST: u16 = 32768;

    // What stands for a width that was not given, since 0 is a width. No width that `new` makes.
    pub const MISSING: Feet = Feet(65535);

    pub fn new(feet: u32) -> Option<Feet>
        ensures { result ≡ feet_of feet }
    {
        in_range(feet, 0, Feet::LARGEST).map(Feet)
    }

    pub fn missing() -> Feet
        ensures { result ≡ missing_feet }
    {
        Feet::MISSING
    }
}

// A speed in miles per hour; 0 means undefined.
#[derive(Clone, Copy)]
pub struct Mph(pub u16);

impl Mph {
    pub const LARGEST: u16 = 32768;

    pub fn new(mph: u32) -> Option<Mph>
        ensures { result ≡ mph_of mph }
    {
        in_range(mph, 0, Mph::LARGEST).map(Mph)
    }
}

// The number that a checkpoint is declared by; never 0.
#[derive(Clone, Copy)]
pub struct CheckpointNumber(pub u16);

impl CheckpointNumber {
    pub const LARGEST: u16 = 32768;

    pub fn new(number: u32) -> Option<CheckpointNumber>
        ensures { result ≡ the_checkpoint_number_of number }
    {
        in_range(number, 1, CheckpointNumber::LARGEST).map(CheckpointNumber)
    }
}

// The identifier of a segment or a zone; never 0.
#[derive(Clone, Copy)]
pub struct SegmentId(pub u16);

impl SegmentId {
    pub const LARGEST: u16 = 32768;

    pub fn new(id: u32) -> Option<SegmentId>
        ensures { result ≡ the_segment_id_of id }
    {
        in_range(id, 1, SegmentId::LARGEST).map(SegmentId)
    }
}
