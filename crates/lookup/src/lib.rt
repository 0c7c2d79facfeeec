// Lookup: the account at a column and a row, and the largest block around it that is scanned and has this account.
// Behind the checks it is one binary search: the tiles on either side of the place found bound the stretch of nobody's
// around a nobody's pixel, and a few steps lead from there to a block that is scanned.
#![tactic(auto)]

ghost use Rattle.std.specs.Prelude.{◌≡◌, ◌^◌, ◌<◌, ◌≤◌, length};
ghost use Rattle.tile.specs.Tile.{highest_order};
ghost use Rattle.tile.specs.Slots.{tiles};
ghost use Rattle.quadtree.specs.Raster.{account_at};
ghost use Rattle.quadtree.specs.Tiling.{Without};
ghost use Rattle.bed.specs.Bed.{bed_of};
ghost use Rattle.bed.specs.Places.{place_of};
ghost use Rattle.lookup.specs.Answers.{lookup_answer};
ghost use Rattle.lookup.specs.Block.{block_at, Blank};
ghost use Rattle.lookup.specs.Lookup.{lookup_of};
ghost use Rattle.lookup.specs.Stretch.{stretch_from, stretch_upto, LargestIn, ScannedTo};

use bed::{Point, Scan};
use list_check::Quadtree;
use refusal::Refusal;
use tile::{Block, Tile};

// Lookup's answer, as C gets it: the largest block with the pixel that is wholly scanned and has one account, and this
// account; refused, the refusal's number and 0 in all else.
#[repr(C)]
#[derive(Clone, Copy, Debug, PartialEq, Eq)]
pub struct LookupAnswer {
    pub number: u32,
    pub account: u8,
    pub corner: u32,
    pub size: u32,
}

impl From<Result<Tile, Refusal>> for LookupAnswer {
    ghost from_gives = { λ r a. a ≡ lookup_answer r };

    fn from(answer: Result<Tile, Refusal>) -> LookupAnswer {
        match answer {
            Ok(
                Tile {
                    corner,
                    size,
                    account,
                },
            ) => LookupAnswer {
                number: 0,
                account,
                corner,
                size,
            },
            Err(refusal) => LookupAnswer {
                number: u32::from(refusal),
                account: 0,
                corner: 0,
                size: 0,
            },
        }
    }
}

// Where the tile ahead of a place in the list stops, 0 where none is: a stretch of nobody's starts there.
fn stretch_from(words: &[u32], place: usize) -> u32
    requires { place ≤ length words.now }
    ensures { result ≡ stretch_from words.now place }
{
    if place == 0 {
        return 0;
    }
    tile::stop(words[place - 1])
}

// Where the tile at a place in the list starts, or the bed ends: a stretch of nobody's ends there.
fn stretch_upto(tree: Quadtree<'_>, place: usize) -> u32
    ensures { result ≡ stretch_upto tree.entry.order (length tree.entry.words.now) tree.entry.words.now place }
{
    match tree.words.get(place) {
        Some(word) => tile::corner(*word),
        None => tile::area(tree.order),
    }
}

// The size of the largest block that has z and not y: half the place of the highest bit in which the two differ.
fn size_without(z: u32, y: u32) -> u32
    requires { z ≡ y → ⊥ }
    ensures { Without z y result }
{
    (z ^ y).ilog2() / 2
}

// The size of the largest block that has z and lies in a stretch: it has neither the first number behind the stretch
// nor the last one ahead of it, where one is.
fn largest_in(from: u32, upto: u32, z: u32) -> u32
    requires { (from ≤ z) × (z < upto) }
    ensures { LargestIn from upto z result }
{
    let behind = size_without(z, upto);
    if from == 0 {
        return behind;
    }
    behind.min(size_without(z, from - 1))
}

// The largest size up to `size` of a block that has the scanned pixel z and is wholly scanned.
fn scanned_size(scan: Scan, size: u32, z: u32) -> u32
    requires { (scan.order ≤ highest_order) × (z < 4 ^ scan.order) × (size ≤ scan.order)
        × (place_of scan.kind scan.order z < scan.pixels) }
    ensures { ScannedTo scan size z result }
{
    for k in (1..=size).rev() {
        let block = Block {
            corner: tile::corner_at(k, z),
            size: k,
        };
        if scan_check::block_scanned(scan, block).is_ok() {
            return k;
        }
    }
    0
}

// The block that an opened scan has at the Morton number z of a scanned pixel: only the last tile that starts by z can
// cover it, and else that tile and the next one bound the stretch of nobody's around it.
fn block_at(scan: Scan, tree: Quadtree<'_>, z: u32) -> Tile
    requires { (tree.order ≡ scan.order)
        × Blank scan.kind scan.order scan.pixels (account_at (tiles tree.words.now))
        × (z < 4 ^ scan.order) × (place_of scan.kind scan.order z < scan.pixels) }
    ensures { result ≡ block_at
        (bed_of scan.kind scan.order scan.pixels (account_at (tiles tree.entry.words.now)))
        (tiles tree.entry.words.now) z }
{
    let words = tree.words;
    let place = list_search::cut(words, 0, words.len(), z + 1);
    let from = stretch_from(words, place);
    if z < from {
        return Tile::from(words[place - 1]);
    }
    let upto = stretch_upto(tree, place);
    let size = scanned_size(scan, largest_in(from, upto, z), z);
    Tile {
        corner: tile::corner_at(size, z),
        size,
        account: 0,
    }
}

// The offered call: the account at a column and a row, 0 for nobody, and the block that has it: the tile, or the
// largest quadrant block that is wholly scanned and wholly nobody's. The checks are the opening checks, 31, 52.
pub fn lookup(scan: Scan, slots: &[u32], point: Point) -> Result<Tile, Refusal>
    ensures { lookup_answer result ≡ lookup_of scan slots.now point.column point.row }
{
    let tree = scan_check::open_check(scan, slots)?;
    checks::point(scan.order, point)?;
    let z = morton::number(point.column, point.row);
    scan_check::pixel_scanned(scan, z)?;
    Ok(block_at(scan, tree, z))
}
