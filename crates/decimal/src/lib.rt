// Numbers in decimal, and lines of numbers, put into a lent buffer. As in crate `text`, what does not fit is counted.
// And digits read as a number.
#![tactic(auto)]

ghost use Rattle.std.specs.Prelude.{◌≡◌, true, ◌++◌, ◌+◌, ◌^◌, ◌<◌, length};
ghost use Rattle.text.specs.PutAt.{count_limit};
ghost use Rattle.text.specs.Puts.{Puts};
ghost use Rattle.decimal.specs.Decimal.{digits_by, digits_most, digits};
ghost use Rattle.decimal.specs.Lines.{triple_most, pair_line, triple_line};
ghost use Rattle.decimal.specs.Value.{digits_only, value_from};
ghost use Rattle.decimal.specs.Nines.{nines};

use text::Writer;

const LINE_FEED: u8 = b'\n';

// No number has more digits.
const DIGITS_MOST: usize = 10;

// The byte of a digit.
pub fn digit(d: usize) -> u8
    requires { d < 10 }
    ensures { result ≡ 48 + d }
{
    b'0' + d as u8
}

// Puts the last digits of n, at most `places` of them.
fn put_digits(writer: &mut Writer<'_>, places: usize, n: usize)
    requires { writer.old.at + places < count_limit }
    ensures { Puts (digits_by places n) writer.old writer.new }
{
    if places == 0 {
        return;
    }
    if n < 10 {
        return writer.put(digit(n));
    }
    put_digits(writer, places - 1, n / 10);
    writer.put(digit(n % 10));
}

// Puts a number in decimal.
pub fn put_number(writer: &mut Writer<'_>, n: usize)
    requires { writer.old.at + digits_most < count_limit }
    ensures { Puts (digits n) writer.old writer.new }
{
    put_digits(writer, DIGITS_MOST, n);
}

// Puts a byte string and a number behind it.
fn put_field(writer: &mut Writer<'_>, ahead: &[u8], n: usize)
    requires { writer.old.at + length ahead.now + digits_most < count_limit }
    ensures { Puts (ahead.now ++ digits n) writer.old writer.new }
{
    writer.put_all(ahead);
    put_number(writer, n);
}

// Puts a line of two numbers, each behind a byte string.
pub fn put_pair(writer: &mut Writer<'_>, first: &[u8], m: usize, second: &[u8], n: usize)
    requires { writer.old.at + length first.now + length second.now + triple_most < count_limit }
    ensures { Puts (pair_line first.now m second.now n) writer.old writer.new }
{
    put_field(writer, first, m);
    put_field(writer, second, n);
    writer.put(LINE_FEED);
}

// Puts a line of three numbers, with a space between them.
pub fn put_triple(writer: &mut Writer<'_>, a: usize, b: usize, c: usize)
    requires { writer.old.at + triple_most < count_limit }
    ensures { Puts (triple_line a b c) writer.old writer.new }
{
    put_number(writer, a);
    put_field(writer, b" ", b);
    put_field(writer, b" ", c);
    writer.put(LINE_FEED);
}

// Whether each byte is that of a digit.
pub fn digits_only(bytes: &[u8]) -> bool
    ensures { result ≡ digits_only bytes.now }
{
    bytes.iter().all(u8::is_ascii_digit)
}

// The number `ahead` with digits written behind it.
pub fn value_from(ahead: u32, bytes: &[u8]) -> u32
    requires { (digits_only bytes.now ≡ true) × (nines ahead (length bytes.now) < 2 ^ 32) }
    ensures { result ≡ value_from ahead bytes.now }
{
    let mut v = ahead;
    for byte in bytes {
        v = v * 10 + u32::from(*byte - b'0');
    }
    v
}
