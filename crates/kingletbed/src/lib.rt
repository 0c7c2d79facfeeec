// The library for C and Rust: each export hands its arguments to the offered call and its answer back. Nothing is asked
// of the caller. include/kingletbed.h declares them and says what they do.
#![tactic(auto)]

ghost use Rattle.std.specs.Prelude.{◌≡◌, ℕ};
ghost use Rattle.refusal.specs.Checks.{Gives};
ghost use Rattle.tile.specs.Tile.{tile_of};
ghost use Rattle.bed.specs.Kinds.{kind_of};
ghost use Rattle.bed.specs.Places.{scan_of};
ghost use Rattle.points.specs.Points.{extent_of, number_of, around_of, point_of};
ghost use Rattle.mils.specs.Calls.{pixel_of, hundredths_of, text_of};
ghost use Rattle.list_check.specs.ListCheck.{list_check};
ghost use Rattle.scan.specs.FreshScan.{fresh_of};
ghost use Rattle.scan.specs.Feed.{feed_of};
ghost use Rattle.decode.specs.Decode.{decode_of};
ghost use Rattle.lookup.specs.Lookup.{lookup_of};
ghost use Rattle.part.specs.Part.{part_of};
ghost use Rattle.table.specs.Load.{load_of};
ghost use Rattle.rights.specs.Rights.{rights_of};
ghost use Rattle.claim.specs.Claim.{claim_of};
ghost use Rattle.claim.specs.Preview.{preview_of};
ghost use Rattle.combine_rule.specs.Choices.{choice_of};
ghost use Rattle.combine.specs.Combine.{combine_of};
ghost use Rattle.mapfile_write.specs.Writer.{write_of};
ghost use Rattle.mapfile_read.specs.Reader.{read_of};
ghost use Rattle.kingletbed.specs.Exports.{fresh_export, feed_export, fresh_numbers, fed_numbers};

use bed::{Kind, Point, Scan};
use claim::ClaimAnswer;
use combine::CombineAnswer;
use combine_rule::Choice;
use lookup::LookupAnswer;
use mapfile_read::ReadAnswer;
use mapfile_write::WriteAnswer;
use mils::{HundredthsAnswer, PixelAnswer, TextAnswer};
use part::PartAnswer;
use points::{BlockAnswer, ExtentAnswer, MortonAnswer, PointAnswer};
use refusal::Refusal;
use rights::RightAnswer;
use scan::Fed;
use tile::{Block, Tile};

// A fresh scan's answer, with the record's four numbers.
#[repr(C)]
#[derive(Clone, Copy, Debug, PartialEq, Eq)]
pub struct FreshAnswer {
    pub number: u32,
    pub kind: u32,
    pub order: u32,
    pub pixels: u32,
    pub tiles: usize,
}

// The answer to what was asked for a kind: refused, the record is of that kind, and its numbers are 0.
fn fresh_answer(kind: Kind, fresh: Result<Scan, Refusal>) -> FreshAnswer
    ensures { result ≡ fresh_export kind fresh }
{
    let scan = fresh.unwrap_or(Scan::fresh(kind, 0));
    FreshAnswer {
        number: refusal::said(&fresh),
        kind: u32::from(scan.kind),
        order: scan.order,
        pixels: scan.pixels,
        tiles: scan.tiles,
    }
}

// A feed's answer, with the new record's four numbers.
#[repr(C)]
#[derive(Clone, Copy, Debug, PartialEq, Eq)]
pub struct FeedAnswer {
    pub number: u32,
    pub taken: usize,
    pub kind: u32,
    pub order: u32,
    pub pixels: u32,
    pub tiles: usize,
}

impl From<Fed> for FeedAnswer {
    ghost from_gives = { λ fed answer. answer ≡ feed_export fed };

    fn from(fed: Fed) -> FeedAnswer {
        FeedAnswer {
            number: refusal::said(&fed.end),
            taken: fed.taken,
            kind: u32::from(fed.scan.kind),
            order: fed.scan.order,
            pixels: fed.scan.pixels,
            tiles: fed.scan.tiles,
        }
    }
}

fn scan_of(kind: u32, order: u32, pixels: u32, tiles: usize) -> Scan
    ensures { result ≡ scan_of (kind_of kind) order pixels tiles }
{
    Scan {
        kind: Kind::from(kind),
        order,
        pixels,
        tiles,
    }
}

#[unsafe(no_mangle)]
pub extern "C" fn kb_extent(order: u32) -> ExtentAnswer
    ensures { result ≡ extent_of order }
{
    ExtentAnswer::from(points::measure(order))
}

#[unsafe(no_mangle)]
pub extern "C" fn kb_morton(order: u32, column: u32, row: u32) -> MortonAnswer
    ensures { result ≡ number_of order column row }
{
    MortonAnswer::from(points::number_at(order, Point { column, row }))
}

#[unsafe(no_mangle)]
pub extern "C" fn kb_block(order: u32, column: u32, row: u32, size: u32) -> BlockAnswer
    ensures { result ≡ around_of order column row size }
{
    BlockAnswer::from(points::block_around(order, Point { column, row }, size))
}

#[unsafe(no_mangle)]
pub extern "C" fn kb_point(order: u32, morton: u32) -> PointAnswer
    ensures { result ≡ point_of order morton }
{
    PointAnswer::from(points::point_of(order, morton))
}

#[unsafe(no_mangle)]
pub extern "C" fn kb_tile_corner(word: u32) -> u32
    ensures { result ≡ (tile_of word).corner }
{
    tile::corner(word)
}

#[unsafe(no_mangle)]
pub extern "C" fn kb_tile_size(word: u32) -> u32
    ensures { result ≡ (tile_of word).size }
{
    tile::size(word)
}

#[unsafe(no_mangle)]
pub extern "C" fn kb_tile_account(word: u32) -> u8
    ensures { result ≡ (tile_of word).account }
{
    tile::account(word)
}

#[unsafe(no_mangle)]
pub extern "C" fn kb_check(order: u32, tiles: usize, slots: &[u32]) -> u32
    ensures { result ≡ list_check order tiles slots.now }
{
    refusal::said(&list_check::check_in_place(order, tiles, slots))
}

#[unsafe(no_mangle)]
pub extern "C" fn kb_fresh(kind: u32, order: u32, slots: &mut [u32]) -> FreshAnswer
    ensures { Gives result slots.new (fresh_numbers (fresh_of (kind_of kind) order slots.old)) }
{
    let kind = Kind::from(kind);
    fresh_answer(kind, scan::fresh_scan(kind, order, slots))
}

#[unsafe(no_mangle)]
pub extern "C" fn kb_feed(
    kind: u32,
    order: u32,
    pixels: u32,
    tiles: usize,
    slots: &mut [u32],
    accounts: &[u8],
) -> FeedAnswer
    ensures { Gives result slots.new (fed_numbers
        (feed_of (scan_of (kind_of kind) order pixels tiles) slots.old accounts.now)) }
{
    let scan = scan_of(kind, order, pixels, tiles);
    FeedAnswer::from(scan::feed(scan, slots, accounts))
}

#[unsafe(no_mangle)]
pub extern "C" fn kb_decode(order: u32, tiles: usize, slots: &[u32], raster: &mut [u8]) -> u32
    ensures { Gives result raster.new (decode_of order tiles slots.now raster.old) }
{
    refusal::said(&decode::decode(order, tiles, slots, raster))
}

#[unsafe(no_mangle)]
pub extern "C" fn kb_lookup(
    kind: u32,
    order: u32,
    pixels: u32,
    tiles: usize,
    slots: &[u32],
    column: u32,
    row: u32,
) -> LookupAnswer
    ensures { result ≡ lookup_of (scan_of (kind_of kind) order pixels tiles) slots.now column row }
{
    let scan = scan_of(kind, order, pixels, tiles);
    LookupAnswer::from(lookup::lookup(scan, slots, Point { column, row }))
}

#[unsafe(no_mangle)]
pub extern "C" fn kb_part(
    order: u32,
    tiles: usize,
    slots: &[u32],
    corner: u32,
    size: u32,
) -> PartAnswer
    ensures { result ≡ part_of order tiles slots.now corner size }
{
    PartAnswer::from(part::quadrant_part(order, tiles, slots, Block { corner, size }))
}

#[unsafe(no_mangle)]
pub extern "C" fn kb_load(file: &[u8], table: &mut [u8]) -> u32
    ensures { Gives result table.new (load_of file.now table.old) }
{
    refusal::said(&table::load(file, table))
}

#[unsafe(no_mangle)]
pub extern "C" fn kb_rights(
    table: &[u8],
    kind: u32,
    order: u32,
    pixels: u32,
    tiles: usize,
    slots: &[u32],
    column: u32,
    row: u32,
    account: u8,
) -> RightAnswer
    ensures { result ≡ rights_of table.now (scan_of (kind_of kind) order pixels tiles) slots.now
        column row account }
{
    let scan = scan_of(kind, order, pixels, tiles);
    RightAnswer::from(rights::rights(table, scan, slots, Point { column, row }, account))
}

#[unsafe(no_mangle)]
pub extern "C" fn kb_claim(
    kind: u32,
    order: u32,
    pixels: u32,
    tiles: usize,
    slots: &mut [u32],
    corner: u32,
    size: u32,
    account: u8,
) -> ClaimAnswer
    ensures { Gives result slots.new
        (claim_of (scan_of (kind_of kind) order pixels tiles) slots.old corner size account) }
{
    let scan = scan_of(kind, order, pixels, tiles);
    let tile = Tile {
        corner,
        size,
        account,
    };
    ClaimAnswer::from(claim::claim(scan, slots, tile))
}

#[unsafe(no_mangle)]
pub extern "C" fn kb_preview(
    kind: u32,
    order: u32,
    pixels: u32,
    tiles: usize,
    slots: &[u32],
    corner: u32,
    size: u32,
    account: u8,
) -> ClaimAnswer
    ensures { result ≡ preview_of (scan_of (kind_of kind) order pixels tiles) slots.now
        corner size account }
{
    let scan = scan_of(kind, order, pixels, tiles);
    let tile = Tile {
        corner,
        size,
        account,
    };
    ClaimAnswer::from(claim::preview(scan, slots, tile))
}

#[unsafe(no_mangle)]
pub extern "C" fn kb_combine(
    choice: u32,
    order1: u32,
    tiles1: usize,
    slots1: &[u32],
    order2: u32,
    tiles2: usize,
    slots2: &[u32],
    out: &mut [u32],
) -> CombineAnswer
    ensures { Gives result out.new (combine_of (choice_of choice) order1 tiles1 slots1.now
        order2 tiles2 slots2.now out.old) }
{
    let choice = Choice::from(choice);
    CombineAnswer::from(combine::combine(
        choice, order1, tiles1, slots1, order2, tiles2, slots2, out,
    ))
}

#[unsafe(no_mangle)]
pub extern "C" fn kb_write(
    kind: u32,
    order: u32,
    pixels: u32,
    tiles: usize,
    slots: &[u32],
    file: &mut [u8],
) -> WriteAnswer
    ensures { Gives result file.new
        (write_of (scan_of (kind_of kind) order pixels tiles) slots.now file.old) }
{
    let scan = scan_of(kind, order, pixels, tiles);
    WriteAnswer::from(mapfile_write::write(scan, slots, file))
}

#[unsafe(no_mangle)]
pub extern "C" fn kb_read(file: &[u8], slots: &mut [u32]) -> ReadAnswer
    ensures { Gives result slots.new (read_of file.now slots.old) }
{
    ReadAnswer::from(mapfile_read::read(file, slots))
}

#[unsafe(no_mangle)]
pub extern "C" fn kb_mils_pixel(order: u32, text: &[u8]) -> PixelAnswer
    ensures { result ≡ pixel_of order text.now }
{
    PixelAnswer::from(mils::pixel_of(order, text))
}

#[unsafe(no_mangle)]
pub extern "C" fn kb_mils_h(order: u32, pixel: u32) -> HundredthsAnswer
    ensures { result ≡ hundredths_of order pixel }
{
    HundredthsAnswer::from(mils::hundredths_of(order, pixel))
}

#[unsafe(no_mangle)]
pub extern "C" fn kb_mils_text(order: u32, pixel: u32, text: &mut [u8]) -> TextAnswer
    ensures { Gives result text.new (text_of order pixel text.old) }
{
    TextAnswer::from(mils::text_of(order, pixel, text))
}
