// The refusals of every call, under the name of the condition met, and what checks answer. specs/Refusal.antt has the
// same list of numbers for the definitions.
#![tactic(auto)]

ghost use Rattle.std.specs.Prelude.{◌≡◌};
ghost use Rattle.refusal.specs.Refused.{number, said};

use std::error::Error;
use std::fmt;

// The first condition that a call breaks; each has the number that document 01 or 02 gives it.
#[derive(Clone, Copy, Debug, PartialEq, Eq, Hash)]
pub enum Refusal {
    OrderTooLarge = 1,
    CountAboveSlots = 2,
    HighBitsSet = 11,
    SizeAboveOrder = 12,
    CornerInvalid = 13,
    AccountZero = 14,
    TilesOverlap = 15,
    SiblingsUnmerged = 16,
    ScannedTooLarge = 21,
    TileUnscanned = 22,
    ScanFull = 23,
    AccountTooLarge = 24,
    SlotsExceeded = 25,
    BytesTooFew = 26,
    PointOutside = 31,
    BlockInvalid = 32,
    RasterLength = 33,
    AskerInvalid = 34,
    FileCutShort = 41,
    TrailingBytes = 42,
    RosterWrong = 43,
    OrdersDiffer = 51,
    Unscanned = 52,
    PositionInvalid = 53,
    RosterUnsorted = 54,
    TableMalformed = 55,
    TableUnsound = 56,
}

// What checks answer: nothing, where they pass.
pub type Checked = Result<(), Refusal>;

// The number that stands for it in C.
impl From<Refusal> for u32 {
    ghost from_gives = { λ r n. n ≡ number r };

    fn from(refusal: Refusal) -> u32 {
        refusal as u32
    }
}

// The number of an answer in C: 0 where it is no refusal.
pub fn said<T>(answer: &Result<T, Refusal>) -> u32
    ensures { result ≡ said answer.now }
{
    match answer {
        Ok(_) => 0,
        Err(refusal) => u32::from(*refusal),
    }
}

impl fmt::Display for Refusal {
    fn fmt<W: fmt::Write>(&self, f: &mut fmt::Formatter<W>) -> fmt::Result {
        f.write_str(match self {
            Refusal::OrderTooLarge => "the order is above 10",
            Refusal::CountAboveSlots => "the tile count is above the number of slots",
            Refusal::HighBitsSet => "a tile word has bit 31 or 30 set",
            Refusal::SizeAboveOrder => "a tile is larger than the bed",
            Refusal::CornerInvalid =>
                "a tile's corner is off the bed or not a multiple of its area",
            Refusal::AccountZero => "a tile has account 0",
            Refusal::TilesOverlap => "a tile begins before the end of the tile ahead of it",
            Refusal::SiblingsUnmerged =>
                "four tiles of one account are the quarters of one block and should be one tile",
            Refusal::ScannedTooLarge => "more pixels are scanned than the bed has",
            Refusal::TileUnscanned => "a tile covers a pixel that is not scanned yet",
            Refusal::ScanFull => "the scan already has every pixel",
            Refusal::AccountTooLarge => "the account is above 63",
            Refusal::SlotsExceeded => "the list would have more tiles than there are slots",
            Refusal::BytesTooFew => "the bytes lent are fewer than the file or the text takes",
            Refusal::PointOutside => "the pixel is off the bed",
            Refusal::BlockInvalid =>
                "the block is larger than the bed, off the bed, or its corner not a multiple of its area",
            Refusal::RasterLength => "the raster does not have one byte for each pixel",
            Refusal::AskerInvalid => "the asking account is 0 or above 63",
            Refusal::FileCutShort => "the file ends too early",
            Refusal::TrailingBytes => "bytes follow the end of the file's roster",
            Refusal::RosterWrong => "the file's roster does not match its tiles",
            Refusal::OrdersDiffer => "the two maps have different orders",
            Refusal::Unscanned => "the pixel, the block or the bed is not wholly scanned yet",
            Refusal::PositionInvalid =>
                "the text is no position in mils, or the position is off the bed",
            Refusal::RosterUnsorted =>
                "the accounts in the file's roster do not rise from entry to entry",
            Refusal::TableMalformed =>
                "the table of rights has a wrong count, a wrong length or a byte above 1",
            Refusal::TableUnsound => "a row of the table of rights lacks a yes that it must have",
        })
    }
}

impl Error for Refusal {}
