// The pen: everything the project writes goes to a lent output through these functions.
// A writing is `clear_output`, a run of puts from place 0 on, and `finish`. A put stores where there is room, counts on where there is none, and
// answers the next place; a place past the size limit stays 16,777,216. So no put asks for anything, no sum wraps and nothing is measured first:
// `finish` decides refusal 19 once. Every put ensures one shape, `Wrote` (the pen before it, the bytes, the pen behind it); a run of them is
// composed by `_then_`, and `written` is the law of the whole (proofs/).
// Rests on `terms`, `number` and `coordinate`.
//
// Settled: `Wrote p x q` says that q is `put p x`, `clear_output` and `finish` say what is left and answered, so no second answer and no second
// memory satisfies any contract here (`Wrote-one`, `output-one`).
#![tactic(auto)]

ghost use Rattle.std.specs.Prelude.{◌≡◌, [], ◌∷◌, ◌%◌, set, length};
ghost use Rattle.terms.specs.Ascii.{ascii};
ghost use Rattle.number.specs.Decimal.{digit_of, padded};
ghost use Rattle.number.specs.House.{house_integer, house_pair, house_triple};
ghost use Rattle.coordinate.specs.House.{house_degrees, house_coordinate};
ghost use Rattle.output.specs.Output.{zero_bytes};
ghost use Rattle.output.specs.Packed.{big_endian};
ghost use Rattle.output.specs.Pen.{pen, Wrote, within, Finishes};

// The most bytes that a writing may have.
pub const MOST: usize = 16777215;

// ## Bytes

// A byte is stored where there is room.
fn store(out: &mut [u8], at: usize, b: u8)
    ensures { out.new ≡ set out.old at b }
{
    if at < out.len() {
        out[at] = b;
    }
}

// One byte. The answer is the next place, or one past the size limit.
pub fn put_byte(out: &mut [u8], at: usize, b: u8) -> usize
    ensures { Wrote (pen out.old at) (b ∷ []) (pen out.new result) }
{
    if at < MOST {
        store(out, at, b);
        return at + 1;
    }
    MOST + 1
}

// A row of bytes, as a name or a word.
pub fn put_bytes(out: &mut [u8], at: usize, s: &[u8]) -> usize
    ensures { Wrote (pen out.old at) s.now (pen out.new result) }
{
    let mut to = at;
    for &b in s {
        to = put_byte(out, to, b);
    }
    to
}

// What stands between two fields.
pub fn put_tab(out: &mut [u8], at: usize) -> usize
    ensures { Wrote (pen out.old at) (ascii "\t") (pen out.new result) }
{
    put_byte(out, at, b'\t')
}

// What ends a line.
pub fn put_line_end(out: &mut [u8], at: usize) -> usize
    ensures { Wrote (pen out.old at) (ascii "\n") (pen out.new result) }
{
    put_byte(out, at, b'\n')
}

// ## Numbers

// The last digit of a number.
fn put_digit(out: &mut [u8], at: usize, n: u32) -> usize
    ensures { Wrote (pen out.old at) (digit_of (n % 10) ∷ []) (pen out.new result) }
{
    put_byte(out, at, b'0' + (n % 10) as u8)
}

// A number in decimal: the digits of its tens, if it has any, then the last one. At most ten calls deep.
pub fn put_integer(out: &mut [u8], at: usize, n: u32) -> usize
    ensures { Wrote (pen out.old at) (house_integer n) (pen out.new result) }
{
    if n < 10 {
        return put_digit(out, at, n);
    }
    let to = put_integer(out, at, n / 10);
    put_digit(out, to, n)
}

// The last so many digits of a number, zeros in front too.
pub fn put_padded(out: &mut [u8], at: usize, digits: usize, n: u32) -> usize
    ensures { Wrote (pen out.old at) (padded digits n) (pen out.new result) }
{
    if digits == 0 {
        return at;
    }
    let last = put_padded(out, at, digits - 1, n / 10);
    put_digit(out, last, n)
}

// An identifier m.n.
pub fn put_pair(out: &mut [u8], at: usize, m: u32, n: u32) -> usize
    ensures { Wrote (pen out.old at) (house_pair m n) (pen out.new result) }
{
    let a = put_integer(out, at, m);
    let b = put_byte(out, a, b'.');
    put_integer(out, b, n)
}

// An identifier x.y.z.
pub fn put_triple(out: &mut [u8], at: usize, x: u32, y: u32, z: u32) -> usize
    ensures { Wrote (pen out.old at) (house_triple x y z) (pen out.new result) }
{
    let a = put_pair(out, at, x, y);
    let b = put_byte(out, a, b'.');
    put_integer(out, b, z)
}

// So many millionths of a degree, without a sign.
fn put_degrees(out: &mut [u8], at: usize, m: u32) -> usize
    ensures { Wrote (pen out.old at) (house_degrees m) (pen out.new result) }
{
    let a = put_integer(out, at, m / 1000000);
    let b = put_byte(out, a, b'.');
    put_padded(out, b, 6, m % 1000000)
}

// A coordinate, in millionths of a degree. Every i32 can be written, whether or not it is a permitted coordinate.
pub fn put_coordinate(out: &mut [u8], at: usize, z: i32) -> usize
    ensures { Wrote (pen out.old at) (house_coordinate z) (pen out.new result) }
{
    if z < 0 {
        let a = put_byte(out, at, b'-');
        return put_degrees(out, a, z.unsigned_abs());
    }
    put_degrees(out, at, z.unsigned_abs())
}

// ## Packed numbers, the high byte first

pub fn put_u16_be(out: &mut [u8], at: usize, n: u16) -> usize
    ensures { Wrote (pen out.old at) (big_endian 2 n) (pen out.new result) }
{
    put_bytes(out, at, &n.to_be_bytes())
}

pub fn put_u32_be(out: &mut [u8], at: usize, n: u32) -> usize
    ensures { Wrote (pen out.old at) (big_endian 4 n) (pen out.new result) }
{
    put_bytes(out, at, &n.to_be_bytes())
}

// ## The whole output

// Every byte is 0.
pub fn clear_output(out: &mut [u8])
    ensures { out.new ≡ zero_bytes (length out.old) }
{
    out.fill(0);
}

// All was put up to this place: it is not past the size limit, nor behind the output's end.
fn is_within(lent: usize, at: usize) -> bool
    ensures { result ≡ within lent at }
{
    at <= MOST && at <= lent
}

// The end of a writing at a place: it stays if all of it is there, else the output is zero over its whole length.
pub fn finish(out: &mut [u8], at: usize) -> Option<usize>
    ensures { Finishes out.old at out.new result }
{
    if is_within(out.len(), at) {
        return Some(at);
    }
    clear_output(out);
    None
}
