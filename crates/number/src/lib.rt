// Integers and identifiers in fields, and the length of a name.
// A field that is not spelled right is `None` (refusal 8). A value stays raw, up to 99,999: whether it is in range
// (refusal 9) is tested in `permitted`. Rests on `terms` and `scan`.
#![tactic(auto)]

ghost use Rattle.std.specs.Prelude.{◌≡◌, ◌≤◌, length};
ghost use Rattle.number.specs.Executable.{number_of, plain_of, if_few, the_integer_of, the_pair_of, triple_of, is_name_length_of};

use scan::{byte_from, is_digit};

// Nine digits are always worth a number that fits into 32 bits; more are taken for none.
const MOST_DIGITS: usize = 9;

// Digits alone, leading zeros too; nothing is worth 0.
fn digits_worth(s: &[u8]) -> Option<u32>
    requires { length s.now ≤ 9 }
    ensures { result ≡ number_of s.now }
{
    let mut v: u32 = 0;
    for &b in s {
        if !is_digit(b) {
            return None;
        }
        v = v * 10 + (b - b'0') as u32;
    }
    Some(v)
}

// The same of any field.
pub fn number_of(s: &[u8]) -> Option<u32>
    ensures { result ≡ if_few s.now (number_of s.now) }
{
    if MOST_DIGITS < s.len() {
        return None;
    }
    digits_worth(s)
}

// At least one digit, and no zero in front but a single one.
fn plain_worth(s: &[u8]) -> Option<u32>
    requires { length s.now ≤ 9 }
    ensures { result ≡ plain_of s.now }
{
    if s.is_empty() {
        return None;
    }
    if s[0] == b'0' && 1 < s.len() {
        return None;
    }
    digits_worth(s)
}

// The same of any field.
pub fn plain_of(s: &[u8]) -> Option<u32>
    ensures { result ≡ if_few s.now (plain_of s.now) }
{
    if MOST_DIGITS < s.len() {
        return None;
    }
    plain_worth(s)
}

// 1 to 5 digits, no leading zero but 0 itself.
pub fn integer_of(s: &[u8]) -> Option<u32>
    ensures { result ≡ the_integer_of s.now }
{
    if 5 < s.len() {
        return None;
    }
    plain_worth(s)
}

// Two integers, cut at the first dot: a second dot is no digit.
pub fn pair_of(s: &[u8]) -> Option<(u32, u32)>
    ensures { result ≡ the_pair_of s.now }
{
    let dot = byte_from(s, 0, b'.');
    if s.len() <= dot {
        return None;
    }
    let m = integer_of(&s[..dot])?;
    let n = integer_of(&s[dot + 1..])?;
    Some((m, n))
}

// An identifier x.y.z.
#[derive(Clone, Copy)]
pub struct Id {
    pub x: u32,
    pub y: u32,
    pub z: u32,
}

// An integer up to the first dot, and two behind it.
pub fn triple_of(s: &[u8]) -> Option<Id>
    ensures { result ≡ triple_of s.now }
{
    let dot = byte_from(s, 0, b'.');
    if s.len() <= dot {
        return None;
    }
    let x = integer_of(&s[..dot])?;
    let (y, z) = pair_of(&s[dot + 1..])?;
    Some(Id { x, y, z })
}

// A name has 1 to 128 bytes.
pub fn is_name_length(n: usize) -> bool
    ensures { result ≡ is_name_length_of n }
{
    1 <= n && n <= 128
}
