// Coordinates in fields.
// A field that is not spelled right is `None` (refusal 8). A value stays raw, up to 999,999,999 millionths of a degree on
// either side of 0: whether it is in range (refusal 9) is tested in `permitted`. Rests on `terms`, `scan` and `number`.
#![tactic(auto)]

ghost use Rattle.std.specs.Prelude.{◌≡◌, ◌≤◌};
ghost use Rattle.coordinate.specs.Executable.{the_millionths_of, the_coordinate_of};
ghost use Rattle.coordinate.specs.Sign.{signed};

use number::{number_of, plain_of};

// 1 to 3 digits, a point and six digits, as a count of millionths. The point can only be the seventh byte from the end.
fn millionths_of(s: &[u8]) -> Option<u32>
    ensures { result ≡ the_millionths_of s.now }
{
    if s.len() < 8 {
        return None;
    }
    if 10 < s.len() {
        return None;
    }
    let point = s.len() - 7;
    if s[point] != b'.' {
        return None;
    }
    let whole = plain_of(&s[..point])?;
    let part = number_of(&s[point + 1..])?;
    Some(whole * 1000000 + part)
}

// A count of millionths with its sign, which is the whole field's: -0.500000 is -500,000.
fn signed(minus: bool, m: u32) -> i32
    requires { m ≤ 999999999 }
    ensures { result ≡ signed minus m }
{
    let above = m as i32;
    if minus { -above } else { above }
}

// An optional minus, 1 to 3 digits with no leading zero but a single 0, a point, six digits.
pub fn coordinate_of(s: &[u8]) -> Option<i32>
    ensures { result ≡ the_coordinate_of s.now }
{
    if !s.is_empty() && s[0] == b'-' {
        let below = millionths_of(&s[1..])?;
        return Some(signed(true, below));
    }
    let above = millionths_of(s)?;
    Some(signed(false, above))
}
