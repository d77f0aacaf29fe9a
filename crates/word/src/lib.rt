// Keywords: which keyword of an RNDF, which of an MDF, which boundary word a field is, and whether a field begins with a digit.
// All words stand in one table, each once though both files may have it. A field's length and three of its bytes leave one word that it can be;
// one comparison with that word decides. So the cost of a field does not grow with the number of words.
//
// The table is a `match`, not an array: the compiler lays the arms of a `match` out as a table that is only read, but writes an array anew at each look at it.
// For the same reason a word's letters are numbers, eight letters to a number, so that eight are compared at once.
// The contracts speak of the lists of words alone, not of the table. Rests on `scan` and `terms`.
#![tactic(auto)]

ghost use Rattle.std.specs.Prelude.{◌≡◌, ◌<◌, ◌≤◌, ◌+◌, ◌*◌, length, take, drop};
ghost use Rattle.word.specs.Keywords.{rndf_keywords, mdf_keywords};
ghost use Rattle.word.specs.Number.{index_of, boundary_number, digit_first};
ghost use Rattle.word.specs.Packed.{packed};
ghost use Rattle.word.specs.Table.{words, known_of, row_of, folded_of, place_of, place_at_of, same_known_of};

// What is known of a word: its size in bytes, its number in an RNDF (29: none), its number in an MDF (11: none), its number as a boundary (0: none),
// and its letters, eight to a number, the first of them the lowest byte.
#[derive(Clone, Copy)]
struct Word {
    size: u8,
    in_rndf: u8,
    in_mdf: u8,
    as_boundary: u8,
    first: u64,
    second: u64,
    third: u64,
}

// What is known of a field that is no word.
fn no_word() -> Word
    ensures { result ≡ known_of 41 }
{
    Word {
        size: 0,
        in_rndf: 29,
        in_mdf: 11,
        as_boundary: 0,
        first: 0,
        second: 0,
        third: 0,
    }
}

// A word as a row of the table: what `Word` names, in its order.
#[derive(Clone, Copy)]
struct Row(u8, u8, u8, u8, u64, u64, u64);

// The only word that belongs at this place (see `place_of`). Where none does there stands RNDF_name: the comparison then says no.
fn row_at(place: usize) -> Row
    requires { place < 64 }
    ensures { result ≡ row_of (known_of (place_at_of place)) }
{
    match place {
        0 => Row(13, 10, 11, 0, 8104616169759929710, 495874632047, 0), // num_waypoints
        1 => Row(10, 11, 11, 0, 7235445527954743660, 26740, 0), // lane_width
        2 => Row(15, 29, 5, 0, 7162245558414701934, 32497639885860971, 0), // num_checkpoints
        3 => Row(12, 1, 11, 0, 7883381218931996014, 1937010277, 0), // num_segments
        4 => Row(9, 6, 11, 0, 7308886363354264942, 115, 0), // num_lanes
        5 => Row(9, 19, 11, 0, 8390048271639082350, 115, 0), // num_spots
        6 => Row(
            19,
            23,
            11,
            0,
            7598247054639199598,
            7597414733028025709,
            7566446,
        ), // num_perimeterpoints
        9 => Row(4, 15, 11, 0, 1886352499, 0, 0), // stop
        13 => Row(13, 4, 3, 0, 7957695015158116963, 435744236639, 0), // creation_date
        14 => Row(8, 28, 10, 0, 7308332183723470437, 0, 0), // end_file
        18 => Row(12, 7, 11, 0, 6878243912807834995, 1701667182, 0), // segment_name
        19 => Row(10, 14, 11, 0, 7597414702928717923, 29806, 0), // checkpoint
        20 => Row(4, 9, 11, 0, 1701732716, 0, 0), // lane
        21 => Row(13, 12, 11, 0, 8462090386966734188, 521610028142, 0), // left_boundary
        22 => Row(9, 2, 11, 0, 7308901816646595950, 115, 0), // num_zones
        23 => Row(4, 16, 11, 0, 1953069157, 0, 0), // exit
        25 => Row(10, 26, 11, 0, 7235445528206471283, 26740, 0), // spot_width
        26 => Row(4, 29, 1, 0, 1178881618, 0, 0), // RNDF
        30 => Row(11, 8, 11, 0, 7883381218931404389, 7630437, 0), // end_segment
        34 => Row(7, 5, 11, 0, 32772479204681075, 0, 0), // segment
        35 => Row(14, 3, 2, 0, 8529664181059874662, 121424789598821, 0), // format_version
        36 => Row(12, 29, 11, 2, 7311980354882793331, 2003790956, 0), // solid_yellow
        38 => Row(4, 18, 11, 0, 1701736314, 0, 0), // zone
        39 => Row(16, 29, 9, 0, 7306369611302465125, 8319390330301210468, 0), // end_speed_limits
        40 => Row(8, 17, 11, 0, 7308886363353673317, 0, 0), // end_lane
        42 => Row(15, 29, 6, 0, 7162245558414110309, 32497639885860971, 0), // end_checkpoints
        46 => Row(14, 13, 11, 0, 8026082439500097906, 133532167204469, 0), // right_boundary
        47 => Row(11, 29, 11, 3, 7527590187043155827, 6648937, 0), // solid_white
        48 => Row(13, 24, 11, 0, 7598247054638607973, 491328398701, 0), // end_perimeter
        53 => Row(8, 27, 11, 0, 8390048271638490725, 0, 0), // end_spot
        54 => Row(8, 29, 0, 0, 7308604896964920397, 0, 0), // MDF_name
        55 => Row(9, 20, 11, 0, 7881702178877763450, 101, 0), // zone_name
        56 => Row(12, 29, 11, 4, 8601715195174154850, 1702127976, 0), // broken_white
        57 => Row(4, 25, 11, 0, 1953460339, 0, 0), // spot
        58 => Row(8, 21, 11, 0, 7308901816646004325, 0, 0), // end_zone
        59 => Row(12, 29, 7, 0, 7596551556269699187, 1937009005, 0), // speed_limits
        60 => Row(9, 22, 11, 0, 7310579615724103024, 114, 0), // perimeter
        61 => Row(13, 29, 11, 1, 8745820517559529316, 512970484837, 0), // double_yellow
        62 => Row(11, 29, 4, 0, 7597414702928717923, 7566446, 0), // checkpoints
        63 => Row(16, 29, 8, 0, 7306369611303056750, 8319390330301210468, 0), // num_speed_limits
        _ => Row(9, 0, 11, 0, 7881702178354908754, 101, 0), // RNDF_name
    }
}

fn word_at(place: usize) -> Word
    requires { place < 64 }
    ensures { result ≡ known_of (place_at_of place) }
{
    let row = row_at(place);
    Word {
        size: row.0,
        in_rndf: row.1,
        in_mdf: row.2,
        as_boundary: row.3,
        first: row.4,
        second: row.5,
        third: row.6,
    }
}

// ## Letters as numbers
fn wide(b: u8) -> u64
    ensures { (result ≡ b) × (result < 256) }
{
    b as u64
}

fn pair(a: u8, b: u8) -> u64
    ensures { (result ≡ a + 256 * b) × (result < 65536) }
{
    a as u64 + 256 * b as u64
}

fn two(s: &[u8], i: usize) -> u64
    requires { i + 2 ≤ length s.now }
    ensures { (result ≡ packed (take 2 (drop i s.now))) × (result < 65536) }
{
    pair(s[i], s[i + 1])
}

fn four(s: &[u8], i: usize) -> u64
    requires { i + 4 ≤ length s.now }
    ensures { (result ≡ packed (take 4 (drop i s.now))) × (result < 4294967296) }
{
    two(s, i) + 65536 * two(s, i + 2)
}

fn eight(s: &[u8], i: usize) -> u64
    requires { i + 8 ≤ length s.now }
    ensures { result ≡ packed (take 8 (drop i s.now)) }
{
    four(s, i) + 4294967296 * four(s, i + 4)
}

// The last letters: at most one, fewer than four, fewer than eight.
fn one(s: &[u8], at: usize) -> u64
    requires { length s.now < at + 2 }
    ensures { (result ≡ packed (drop at s.now)) × (result < 256) }
{
    if at < s.len() { wide(s[at]) } else { 0 }
}

fn three(s: &[u8], at: usize) -> u64
    requires { (length s.now < at + 4) × (at ≤ 24) }
    ensures { (result ≡ packed (drop at s.now)) × (result < 16777216) }
{
    if at + 2 <= s.len() {
        two(s, at) + 65536 * one(s, at + 2)
    } else {
        one(s, at)
    }
}

fn few(s: &[u8], at: usize) -> u64
    requires { (length s.now < at + 8) × (at ≤ 16) }
    ensures { result ≡ packed (drop at s.now) }
{
    if at + 4 <= s.len() {
        four(s, at) + 4294967296 * three(s, at + 4)
    } else {
        three(s, at)
    }
}

// Eight letters from a place on, or as many as there are.
fn letters(s: &[u8], at: usize) -> u64
    requires { at ≤ 16 }
    ensures { result ≡ packed (take 8 (drop at s.now)) }
{
    if at + 8 <= s.len() {
        eight(s, at)
    } else {
        few(s, at)
    }
}

// The field has the word's size and letters.
fn is_word(s: &[u8], w: Word) -> bool
    ensures { result ≡ same_known_of s.now w }
{
    if s.len() == w.size as usize {
        if letters(s, 0) == w.first {
            if letters(s, 8) == w.second {
                return letters(s, 16) == w.third;
            }
        }
    }
    false
}

// A sum, folded to a place.
fn folded(n: usize, a: u8, b: u8, c: u8) -> usize
    requires { n ≤ 20 }
    ensures { result ≡ folded_of n a b c }
{
    (n + 24 * a as usize + 47 * b as usize + 60 * c as usize) % 64
}

// The place of the one word that the field can be: no two words have the same place.
fn place_of(s: &[u8]) -> usize
    requires { (4 ≤ length s.now) × (length s.now ≤ 20) }
    ensures { result ≡ place_of s.now }
{
    let n = s.len();
    folded(n, s[2], s[n - 4], s[n - 1])
}

// What is known of the word that the field is.
fn found(s: &[u8]) -> Word
    ensures { result ≡ known_of (index_of s.now words) }
{
    if s.len() < 4 {
        return no_word();
    }
    if 20 < s.len() {
        return no_word();
    }
    let w = word_at(place_of(s));
    if is_word(s, w) { w } else { no_word() }
}

// The number of the RNDF's keyword that the field is, or 29.
pub fn rndf_keyword(s: &[u8]) -> u8
    ensures { result ≡ index_of s.now rndf_keywords }
{
    let w = found(s);
    w.in_rndf
}

// The number of the MDF's keyword that the field is, or 11.
pub fn mdf_keyword(s: &[u8]) -> u8
    ensures { result ≡ index_of s.now mdf_keywords }
{
    let w = found(s);
    w.in_mdf
}

// The number of the boundary word that the field is, 1 to 4, or 0.
pub fn boundary_word(s: &[u8]) -> u8
    ensures { result ≡ boundary_number s.now }
{
    let w = found(s);
    w.as_boundary
}

pub fn begins_with_digit(s: &[u8]) -> bool
    ensures { result ≡ digit_first s.now }
{
    if s.len() == 0 {
        return false;
    }
    scan::is_digit(s[0])
}
