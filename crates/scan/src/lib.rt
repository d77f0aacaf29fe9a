// Which bytes are what, and the loops over bytes: how far it is to the next byte, or pair of bytes, of some kind. No other crate loops over bytes to find one, but for the end of a name (`plain_parts`) and of a number (`references`).
// Every scan is `reach` of a test (specs/Reach), and a loop takes the test as a closure (specs/Passing). proofs/Reach: the laws of `reach`; proofs/Eights: a scan goes over eight bytes at
// once; proofs/Passing: what the loops go by.
// Rests on `terms`.
#![tactic(auto)]

ghost use Rattle.std.specs.Prelude.{◌≡◌, ℕ, Bool, ◌<◌, length, drop};
ghost use Rattle.scan.specs.Allowed.{separates, outside, inside, digit, all};
ghost use Rattle.scan.specs.Reach.{reach, two, fails, stops_by, plain, same_bytes_of};
ghost use Rattle.scan.specs.Passing.{Answers, GoesOver};

// What a scan stops at.
#[derive(Clone, Copy)]
pub enum Until {
    Byte(u8),
    Two(u8, u8),
    Separator,
    NotSeparator,
    NotOutside,
    NotInside,
    NotDigit,
}

// What separates fields: the one place in the code that says which bytes do.
pub fn is_separator(b: u8) -> bool
    ensures { result ≡ separates b }
{
    (b == b'\t') | (b == b' ')
}

// Allowed outside comments: a separator, or 33 to 126 but no backslash and no *.
fn is_outside(b: u8) -> bool
    ensures { result ≡ outside b }
{
    is_separator(b) | ((33 <= b) & (b <= 126) & (b != b'\\') & (b != b'*'))
}

// Allowed inside comments: a tab, or 32 to 126.
pub fn is_inside(b: u8) -> bool
    ensures { result ≡ inside b }
{
    (b == b'\t') | ((32 <= b) & (b <= 126))
}

pub fn is_digit(b: u8) -> bool
    ensures { result ≡ digit b }
{
    b.is_ascii_digit()
}

// The bytes a and b stand at i.
fn two_at(s: &[u8], i: usize, a: u8, b: u8) -> bool
    requires { i < length s.now }
    ensures { result ≡ two a b (drop i s.now) }
{
    i + 1 < s.len() && s[i] == a && s[i + 1] == b
}

// A byte of a field, or a separator, that opens no comment: a space is the one byte of 32 to 126 that is no field's.
// Kept as it is: tried, and slower: `is_outside(b) & (b != b'/')` takes a fifth more time over a long run of such bytes, since it asks for the space too.
fn is_plain(b: u8) -> bool
    ensures { result ≡ plain b }
{
    (b == b'\t') | ((32 <= b) & (b <= 126) & (b != b'\\') & (b != b'*') & (b != b'/'))
}

// ## Eight bytes at a time
// Most bytes of a text stop no scan. What is asked of eight bytes at once, with `&` and no branch for each, the compiler asks by one instruction.

// Each of the bytes passes. It stands at two places, where the compiler would make calls of it, which cost more than they ask.
#[inline(always)]
fn all_pass<F: Fn(u8) -> bool>(bytes: &[u8], test: F) -> bool
    requires { F.IsAlwaysCallable test }
    ensures { (t : ℕ → Bool) → Answers (F.post test) t → result ≡ all t bytes.now }
{
    let mut pass = true;
    for b in bytes {
        pass &= test(*b);
    }
    pass
}

// A place from `from` on, before which every byte passes: any scan that stops at no such byte goes over it. The last eight bytes may have been tested in part before.
fn eights_passed<F: Fn(u8) -> bool + Copy>(s: &[u8], from: usize, test: F) -> usize
    requires { F.IsAlwaysCallable test }
    ensures { (t : ℕ → Bool) → Answers (F.post test) t → GoesOver t s.now from result }
{
    let mut i = from;
    if 8 <= s.len() {
        let last = s.len() - 8;
        // Kept as it is: the new form is no plainer: behind a `for` over `step_by(8)`, i, which is the answer, would have to be counted again.
        while i <= last {
            if !all_pass(&s[i..i + 8], test) {
                return i;
            }
            i += 8;
        }
        if i < s.len() && all_pass(&s[last..], test) {
            return s.len();
        }
    }
    i
}

// ## The loops
// Each answers the first place from `from` on at which it stops; the end where there is none. The test is a type parameter, so that each kind of stop has its own loop,
// and the kind is not asked again at every byte.

// A byte that fails the test.
fn failing_from<F: Fn(u8) -> bool>(s: &[u8], from: usize, test: F) -> usize
    requires { F.IsAlwaysCallable test }
    ensures { (t : ℕ → Bool) → Answers (F.post test) t → result ≡ reach (fails t) s.now from }
{
    for i in from..s.len() {
        if !test(s[i]) {
            return i;
        }
    }
    from.max(s.len())
}

// The same, where it may be far.
fn far_failing_from<F: Fn(u8) -> bool + Copy>(s: &[u8], from: usize, test: F) -> usize
    requires { F.IsAlwaysCallable test }
    ensures { (t : ℕ → Bool) → Answers (F.post test) t → result ≡ reach (fails t) s.now from }
{
    failing_from(s, eights_passed(s, from, test), test)
}

// The byte x, where it is near.
pub fn byte_from(s: &[u8], from: usize, x: u8) -> usize
    ensures { result ≡ reach (stops_by (Until.Byte x)) s.now from }
{
    failing_from(s, from, |b| b != x)
}

// The byte x, where it may be far, as a line's end.
pub fn far_byte_from(s: &[u8], from: usize, x: u8) -> usize
    ensures { result ≡ reach (stops_by (Until.Byte x)) s.now from }
{
    far_failing_from(s, from, |b| b != x)
}

// The bytes x and y.
pub fn two_from(s: &[u8], from: usize, x: u8, y: u8) -> usize
    ensures { result ≡ reach (stops_by (Until.Two x y)) s.now from }
{
    let near = eights_passed(s, from, |b| b != x);
    for i in near..s.len() {
        if two_at(s, i, x, y) {
            return i;
        }
    }
    near.max(s.len())
}

// A separator.
pub fn separator_from(s: &[u8], from: usize) -> usize
    ensures { result ≡ reach (stops_by Until.Separator) s.now from }
{
    failing_from(s, from, |b| !is_separator(b))
}

// A byte that is no separator.
pub fn not_separator_from(s: &[u8], from: usize) -> usize
    ensures { result ≡ reach (stops_by Until.NotSeparator) s.now from }
{
    failing_from(s, from, is_separator)
}

// A byte that is not allowed outside comments.
pub fn not_outside_from(s: &[u8], from: usize) -> usize
    ensures { result ≡ reach (stops_by Until.NotOutside) s.now from }
{
    failing_from(s, from, is_outside)
}

// A byte that is not allowed inside comments.
pub fn not_inside_from(s: &[u8], from: usize) -> usize
    ensures { result ≡ reach (stops_by Until.NotInside) s.now from }
{
    far_failing_from(s, from, is_inside)
}

// A byte that is no digit.
pub fn not_digit_from(s: &[u8], from: usize) -> usize
    ensures { result ≡ reach (stops_by Until.NotDigit) s.now from }
{
    failing_from(s, from, is_digit)
}

// A byte that is not plain.
pub fn plain_from(s: &[u8], from: usize) -> usize
    ensures { result ≡ reach (fails plain) s.now from }
{
    far_failing_from(s, from, is_plain)
}

// Any of these, by its kind.
pub fn scan(s: &[u8], from: usize, until: Until) -> usize
    ensures { result ≡ reach (stops_by until) s.now from }
{
    match until {
        Until::Byte(x) => byte_from(s, from, x),
        Until::Two(x, y) => two_from(s, from, x, y),
        Until::Separator => separator_from(s, from),
        Until::NotSeparator => not_separator_from(s, from),
        Until::NotOutside => not_outside_from(s, from),
        Until::NotInside => not_inside_from(s, from),
        Until::NotDigit => not_digit_from(s, from),
    }
}

// Byte for byte.
pub fn same(a: &[u8], b: &[u8]) -> bool
    ensures { result ≡ same_bytes_of a.now b.now }
{
    a == b
}
