// Positions in mils: the pixel of a position given as text, and the smallest position of a pixel, as a number and as
// text. A call is handed an order and one coordinate, and no map.
#![tactic(auto)]

ghost use Rattle.std.specs.Prelude.{◌≡◌, true, ◌^◌, ◌<◌, length};
ghost use Rattle.refusal.specs.Checks.{Gives};
ghost use Rattle.refusal.specs.Refused.{said};
ghost use Rattle.tile.specs.Tile.{highest_order};
ghost use Rattle.text.specs.PutAt.{PutAt};
ghost use Rattle.decimal.specs.Decimal.{digits};
ghost use Rattle.mils.specs.Mils.{smallest_in};
ghost use Rattle.mils.specs.Position.{hundredths_limit, needless_zero, well_formed, named_by, position_text};
ghost use Rattle.mils.specs.Calls.{pixel_of, pixel_asked, hundredths_of, text_of};
ghost use Rattle.mils.specs.Answers.{answered_pixel, answered_hundredths, answered_text};

use refusal::{Checked, Refusal};
use text::Writer;

// 127 pixels are as wide as 200,000 hundredths of a mil: two inches.
const PIXELS: u32 = 127;

const HUNDREDTHS: u32 = 200000;

const POINT: u8 = b'.';

// A text of the form has at least, and at most, so many bytes.
const SHORTEST: usize = 4;

const LONGEST: usize = 8;

// The bytes from the point on.
const BEHIND: usize = 3;

// Whether the first byte is a zero ahead of other digits of the whole mils.
fn needless_zero(length: usize, first: u8) -> bool
    ensures { result ≡ needless_zero length first }
{
    if length <= SHORTEST {
        return false;
    }
    first == b'0'
}

// Whether a text has the form: one to five digits, a point, two digits, no needless leading zero.
fn well_formed(text: &[u8]) -> bool
    ensures { result ≡ well_formed text.now }
{
    let n = text.len();
    if n < SHORTEST {
        return false;
    }
    if LONGEST < n {
        return false;
    }
    let at = n - BEHIND;
    if text[at] != POINT {
        return false;
    }
    if needless_zero(n, text[0]) {
        return false;
    }
    if !decimal::digits_only(&text[..at]) {
        return false;
    }
    let behind = at + 1;
    decimal::digits_only(&text[behind..])
}

// The hundredths of a mil that a text of the form names.
fn named_by(text: &[u8]) -> u32
    requires { well_formed text.now ≡ true }
    ensures { (result ≡ named_by text.now) × (result < hundredths_limit) }
{
    let n = text.len();
    let at = n - BEHIND;
    let whole = decimal::value_from(0, &text[..at]);
    let behind = at + 1;
    decimal::value_from(whole, &text[behind..])
}

// The offered call: the pixel of a position on a bed of an order.
pub fn pixel_of(order: u32, text: &[u8]) -> Result<u32, Refusal>
    ensures { answered_pixel result ≡ pixel_of order text.now }
{
    checks::order(order)?;
    if !well_formed(text) {
        return Err(Refusal::PositionInvalid);
    }
    let pixel = named_by(text) * PIXELS / HUNDREDTHS;
    match checks::coordinate(order, pixel) {
        Ok(()) => Ok(pixel),
        Err(_) => Err(Refusal::PositionInvalid),
    }
}

// The checks of the way back: 1, then 31.
fn pixel_asked(order: u32, pixel: u32) -> Checked
    ensures { said result ≡ pixel_asked order pixel }
{
    checks::order(order)?;
    checks::coordinate(order, pixel)
}

// The smallest hundredths of a mil in a pixel.
fn smallest_in(pixel: u32) -> u32
    requires { pixel < 2 ^ highest_order }
    ensures { result ≡ smallest_in pixel }
{
    (pixel * HUNDREDTHS + (PIXELS - 1)) / PIXELS
}

// The offered call: the smallest position of a pixel, in hundredths of a mil.
pub fn hundredths_of(order: u32, pixel: u32) -> Result<u32, Refusal>
    ensures { answered_hundredths result ≡ hundredths_of order pixel }
{
    pixel_asked(order, pixel)?;
    Ok(smallest_in(pixel))
}

// How many digits a number of at most five has.
fn places(n: usize) -> usize
    requires { n < 10 ^ 5 }
    ensures { result ≡ length (digits n) }
{
    n.max(1).ilog10() as usize + 1
}

// How many bytes the text of a position has.
fn text_length(h: usize) -> usize
    requires { h < hundredths_limit }
    ensures { result ≡ length (position_text h) }
{
    places(h / 100) + BEHIND
}

// Puts the text of a position.
fn put_position(out: &mut [u8], h: usize) -> usize
    ensures { PutAt (position_text h) 0 out.old result out.new }
{
    let mut writer = Writer::new(out);
    decimal::put_number(&mut writer, h / 100);
    writer.put(POINT);
    writer.put(decimal::digit(h / 10 % 10));
    writer.put(decimal::digit(h % 10));
    writer.count()
}

// The offered call: the text of the smallest position of a pixel, at the front of the lent bytes. Those behind it stay.
pub fn text_of(order: u32, pixel: u32, out: &mut [u8]) -> Result<usize, Refusal>
    ensures { Gives (answered_text result) out.new (text_of order pixel out.old) }
{
    pixel_asked(order, pixel)?;
    let h = smallest_in(pixel) as usize;
    if out.len() < text_length(h) {
        return Err(Refusal::BytesTooFew);
    }
    Ok(put_position(out, h))
}

// What C gets of a position's pixel: it, or 0 behind the refusal's number.
#[repr(C)]
#[derive(Clone, Copy, Debug, PartialEq, Eq)]
pub struct PixelAnswer {
    pub number: u32,
    pub pixel: u32,
}

impl From<Result<u32, Refusal>> for PixelAnswer {
    ghost from_gives = { λ r e. e ≡ answered_pixel r };

    fn from(answer: Result<u32, Refusal>) -> PixelAnswer {
        match answer {
            Ok(pixel) => PixelAnswer { number: 0, pixel },
            Err(refusal) => PixelAnswer {
                number: u32::from(refusal),
                pixel: 0,
            },
        }
    }
}

// What C gets of a pixel's hundredths of a mil, likewise.
#[repr(C)]
#[derive(Clone, Copy, Debug, PartialEq, Eq)]
pub struct HundredthsAnswer {
    pub number: u32,
    pub h: u32,
}

impl From<Result<u32, Refusal>> for HundredthsAnswer {
    ghost from_gives = { λ r e. e ≡ answered_hundredths r };

    fn from(answer: Result<u32, Refusal>) -> HundredthsAnswer {
        match answer {
            Ok(h) => HundredthsAnswer { number: 0, h },
            Err(refusal) => HundredthsAnswer {
                number: u32::from(refusal),
                h: 0,
            },
        }
    }
}

// What C gets of a text put into lent bytes: its length, or 0 behind the refusal's number.
#[repr(C)]
#[derive(Clone, Copy, Debug, PartialEq, Eq)]
pub struct TextAnswer {
    pub number: u32,
    pub length: usize,
}

impl From<Result<usize, Refusal>> for TextAnswer {
    ghost from_gives = { λ r e. e ≡ answered_text r };

    fn from(answer: Result<usize, Refusal>) -> TextAnswer {
        match answer {
            Ok(length) => TextAnswer { number: 0, length },
            Err(refusal) => TextAnswer {
                number: u32::from(refusal),
                length: 0,
            },
        }
    }
}
