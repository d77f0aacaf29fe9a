// A keyword of an RNDF, or a boundary word, compared where it stands in the text. Three of the bytes there leave one keyword that it can be, and one comparison with that
// keyword decides; one byte leaves one boundary word. What stands behind the word is not looked at. Nothing is said where no word is answered: such a line is cut and judged as
// any other.
//
// The tables are a `match` of numbers each, as in `word` and for the same reasons. Letters are compared eight at a time. The last eight may overlap the first, so that no letter is
// left over: they are all of a word of 8 to 16 letters, and with eight from the middle all of the longest.
//
// specs/Stands: what is answered, and what a row of the tables holds. proofs/Pieces: equal pieces that overlap make equal words; proofs/Rows: what holds of every row.
//
// Rests on `word`, `scan` and `terms`.
#![tactic(auto)]

ghost use Rattle.std.specs.Prelude.{◌≡◌, ◌<◌, ◌≤◌, ◌+◌, ◌*◌, length, take, drop};
ghost use Rattle.word.specs.Packed.{packed};
ghost use Rattle.plain_word.specs.Stands.{IsRow, MiddleStands, RowStands, KeywordStands, BoundaryStands};

// A word: its number, its size, and its letters as numbers: the first eight and the last eight. Where it has no eight they are four.
// Numbers are those of keywords; behind them, from 29 on, those of boundary words.
#[derive(Clone, Copy)]
struct Row(u8, usize, u64, u64);

// The letters between in the only word that has more than 16, num_perimeterpoints.
const MIDDLE: u64 = 7597414733028025709;

// The only keyword that belongs at this place (see `place_at`). Where none does there stands RNDF_name: the comparison then says no.
fn row_at(place: usize) -> Row
    ensures { IsRow result × (result.0 < 29) }
{
    match place {
        1 => Row(13, 14, 8026082439500097906, 8751164109912108898), // right_boundary
        3 => Row(28, 8, 7308332183723470437, 7308332183723470437), // end_file
        7 => Row(11, 10, 7235445527954743660, 7526751281380025710), // lane_width
        11 => Row(19, 9, 8390048271639082350, 8319396940422802805), // num_spots
        12 => Row(20, 9, 7881702178877763450, 7308604896966962799), // zone_name
        16 => Row(16, 4, 1953069157, 1953069157), // exit
        17 => Row(2, 9, 7308901816646595950, 8315173712082988405), // num_zones
        18 => Row(22, 9, 7310579615724103024, 8243122671947706981), // perimeter
        19 => Row(10, 13, 8104616169759929710, 8319395810780412257), // num_waypoints
        22 => Row(4, 13, 7957695015158116963, 7310575178854854505), // creation_date
        23 => Row(6, 9, 7308886363354264942, 8315173651718565237), // num_lanes
        24 => Row(15, 4, 1886352499, 1886352499), // stop
        25 => Row(27, 8, 8390048271638490725, 8390048271638490725), // end_spot
        28 => Row(1, 12, 7883381218931996014, 8319395793566393715), // num_segments
        29 => Row(5, 7, 1835492723, 1953391981), // segment
        31 => Row(21, 8, 7308901816646004325, 7308901816646004325), // end_zone
        32 => Row(25, 4, 1953460339, 1953460339), // spot
        34 => Row(18, 4, 1701736314, 1701736314), // zone
        35 => Row(3, 14, 8529664181059874662, 7957695011148363359), // format_version
        36 => Row(7, 12, 6878243912807834995, 7308604896967945829), // segment_name
        37 => Row(17, 8, 7308886363353673317, 7308886363353673317), // end_lane
        39 => Row(23, 19, 7598247054639199598, 8319395810780410469), // num_perimeterpoints
        40 => Row(12, 13, 8462090386966734188, 8751164109912108898), // left_boundary
        41 => Row(26, 10, 7235445528206471283, 7526751281380029551), // spot_width
        42 => Row(8, 11, 7883381218931404389, 8389754676398355295), // end_segment
        53 => Row(24, 13, 7598247054638607973, 8243122671947706981), // end_perimeter
        58 => Row(14, 10, 7597414702928717923, 8389759083186185061), // checkpoint
        62 => Row(9, 4, 1701732716, 1701732716), // lane
        _ => Row(0, 9, 7881702178354908754, 7308604896964920398), // RNDF_name
    }
}

// The only boundary word with this eighth letter. Where none has it there stands broken_white.
fn side_row(eighth: u8) -> Row
    ensures { IsRow result × (28 < result.0) × (8 ≤ result.1) }
{
    match eighth {
        b'y' => Row(29, 13, 8745820517559529316, 8606216625743028069), // double_yellow
        b'e' => Row(30, 12, 7311980354882793331, 8606216625743028068), // solid_yellow
        b'h' => Row(31, 11, 7527590187043155827, 7310583992529413225), // solid_white
        _ => Row(32, 12, 8601715195174154850, 7310583992529415781), // broken_white
    }
}

// ## Letters as numbers
fn pair(a: u8, b: u8) -> u64
    ensures { (result ≡ a + 256 * b) × (result < 65536) }
{
    a as u64 + 256 * b as u64
}

fn two_at(s: &[u8], i: usize) -> u64
    requires { i + 2 ≤ length s.now }
    ensures { (result ≡ packed (take 2 (drop i s.now))) × (result < 65536) }
{
    pair(s[i], s[i + 1])
}

fn four_at(s: &[u8], i: usize) -> u64
    requires { i + 4 ≤ length s.now }
    ensures { (result ≡ packed (take 4 (drop i s.now))) × (result < 4294967296) }
{
    two_at(s, i) + 65536 * two_at(s, i + 2)
}

fn eight_at(s: &[u8], i: usize) -> u64
    requires { i + 8 ≤ length s.now }
    ensures { result ≡ packed (take 8 (drop i s.now)) }
{
    four_at(s, i) + 4294967296 * four_at(s, i + 4)
}

// ## Where a keyword belongs
// A byte of a word; 0 for one that stands behind it.
fn of_word(b: u8) -> usize
    ensures { result < 256 }
{
    if 32 < b { b as usize } else { 0 }
}

// A word that has no fifth letter has no eighth.
fn eighth_of(fifth: usize, b: u8) -> usize
    ensures { result < 256 }
{
    if fifth == 0 { 0 } else { of_word(b) }
}

// A sum, folded to a place.
fn folded(second: u8, fifth: usize, eighth: usize) -> usize
    requires { (fifth < 256) × (eighth < 256) }
{
    (62 * second as usize + 27 * fifth + 25 * eighth) % 64
}

// The place of the one keyword that can stand there, by its second, fifth and eighth letter: no two keywords have the same place.
fn place_at(s: &[u8], from: usize) -> usize
    requires { from + 8 ≤ length s.now }
{
    let fifth = of_word(s[from + 4]);
    folded(s[from + 1], fifth, eighth_of(fifth, s[from + 7]))
}

// ## The comparison
// A word of 4 to 7 letters.
fn short_stands(s: &[u8], from: usize, row: Row) -> bool
    requires { IsRow row × (from + row.1 ≤ length s.now) × (row.1 < 8) }
    ensures { RowStands s.now from row result }
{
    let last = row.1 - 4;
    (four_at(s, from) == row.2) & (four_at(s, from + last) == row.3)
}

// What is between in a word of more than 16 letters.
fn middle_stands(s: &[u8], from: usize, size: usize) -> bool
    requires { from + size ≤ length s.now }
    ensures { MiddleStands s.now from size result }
{
    if size <= 16 {
        true
    } else {
        eight_at(s, from + 8) == MIDDLE
    }
}

// A word of 8 letters or more.
fn long_stands(s: &[u8], from: usize, row: Row) -> bool
    requires { IsRow row × (from + row.1 ≤ length s.now) × (8 ≤ row.1) }
    ensures { RowStands s.now from row result }
{
    let last = row.1 - 8;
    (eight_at(s, from) == row.2)
        & (eight_at(s, from + last) == row.3)
        & middle_stands(s, from, row.1)
}

fn stands(s: &[u8], from: usize, row: Row) -> bool
    requires { IsRow row × (from + row.1 ≤ length s.now) }
    ensures { RowStands s.now from row result }
{
    if row.1 < 8 {
        short_stands(s, from, row)
    } else {
        long_stands(s, from, row)
    }
}

// The keyword that stands there, and the place behind it.
pub fn keyword_at(s: &[u8], from: usize) -> Option<(u8, usize)>
    ensures { KeywordStands s.now from result }
{
    if s.len() < 8 {
        return None;
    }
    if s.len() - 8 < from {
        return None;
    }
    let row = row_at(place_at(s, from));
    if s.len() - from < row.1 {
        return None;
    }
    if stands(s, from, row) {
        Some((row.0, from + row.1))
    } else {
        None
    }
}

// The boundary word that stands there, 1 to 4, and the place behind it.
pub fn boundary_at(s: &[u8], from: usize) -> Option<(u8, usize)>
    ensures { BoundaryStands s.now from result }
{
    if s.len() < 8 {
        return None;
    }
    if s.len() - 8 < from {
        return None;
    }
    let row = side_row(s[from + 7]);
    if s.len() - from < row.1 {
        return None;
    }
    if long_stands(s, from, row) {
        Some((row.0 - 28, from + row.1))
    } else {
        None
    }
}
