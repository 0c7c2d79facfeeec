// The checks of a scan: the opening checks, those of its list and then 21 and 22 of its record; and 52, that what a
// call asks for is scanned, a function for each thing asked.
#![tactic(auto)]

ghost use Rattle.std.specs.Prelude.{◌≡◌, ℕ, ◌^◌, ◌<◌, ◌≤◌, eqb, leb, take, IfOk};
ghost use Rattle.refusal.specs.Refused.{said};
ghost use Rattle.tile.specs.Tile.{highest_order};
ghost use Rattle.tile.specs.Slots.{tiles};
ghost use Rattle.quadtree.specs.Raster.{Aligned};
ghost use Rattle.bed.specs.declared.Kind.TheVariants.{Rows};
ghost use Rattle.bed.specs.Places.{scan_of, place_of, unscanned_in};
ghost use Rattle.scan_check.specs.Opening.{covers_unscanned, opening};
ghost use Rattle.scan_check.specs.Standing.{Stands};
ghost use Rattle.scan_check.specs.Scanned.{scanned_check, block_scanned_check, finished_check};

use bed::{Kind, Scan};
use list_check::Quadtree;
use refusal::{Checked, Refusal};
use tile::Block;

// Whether a block has a pixel that is not scanned: its last pixel comes last in the scan, whatever the kind.
fn unscanned_in(scan: Scan, block: Block) -> bool
    requires { (scan.order ≤ highest_order) × (block.size ≤ scan.order) × (block.corner < 4 ^ scan.order)
        × Aligned block.size block.corner }
    ensures { result ≡ unscanned_in scan.kind scan.order scan.pixels block.corner block.size }
{
    let last = block.corner + tile::area(block.size) - 1;
    scan.pixels <= scan.kind.place(scan.order, last)
}

// Whether the pixel z comes where the scan by rows stands, or behind it. The row and the column of that place are
// spread as they are in z, so that nothing in z need be moved.
fn behind(row: u32, column: u32, z: u32) -> bool
    ensures { (n s : ℕ) → Stands n s row column → z < 4 ^ n → result ≡ leb s (place_of Rows n z) }
{
    let down = morton::row_bits(z);
    (row < down) | ((row == down) & (column <= morton::column_bits(z)))
}

// Whether a tile of the list covers a pixel that is not scanned by rows: its last pixel comes last in the scan. No
// branch inside, so that the loop is vectorized.
fn rows_unscanned(pixels: u32, tree: Quadtree) -> bool
    requires { pixels < 4 ^ tree.order }
    ensures { (t : ℕ) → result ≡ covers_unscanned (scan_of Rows tree.entry.order pixels t) (tiles tree.entry.words.now) }
{
    let row = morton::spread(pixels >> tree.order) << 1;
    let column = morton::spread(pixels % tile::side(tree.order));
    let mut bad = false;
    for word in tree.words {
        bad = bad | behind(row, column, tile::stop(*word) - 1);
    }
    bad
}

// Whether a tile of the scan's list covers a pixel that is not scanned. In Morton order the last tile decides, since
// the tiles of a valid list rise.
fn covers_unscanned(scan: Scan, tree: Quadtree) -> bool
    requires { tree.order ≡ scan.order }
    ensures { result ≡ covers_unscanned scan (tiles tree.entry.words.now) }
{
    if tile::area(scan.order) <= scan.pixels {
        return false;
    }
    let tiles = tree.words.len();
    if tiles == 0 {
        return false;
    }
    match scan.kind {
        Kind::Rows => rows_unscanned(scan.pixels, tree),
        Kind::Morton => scan.pixels < tile::stop(tree.words[tiles - 1]),
    }
}

// The opening checks: 1, 2 and 11 to 16 of the list, then 21 and 22 of the record. Once all pixels are scanned, no list
// meets 22. They answer the list.
pub fn open_check(scan: Scan, slots: &[u32]) -> Result<Quadtree<'_>, Refusal>
    ensures number { said result ≡ opening scan slots.now }
    ensures tree { IfOk result (λ q. (q.order ≡ scan.order) × (q.words.now ≡ take scan.tiles slots.now)) }
{
    let tree = list_check::check_in_place(scan.order, scan.tiles, slots)?;
    let area = tile::area(scan.order);
    if area < scan.pixels {
        return Err(Refusal::ScannedTooLarge);
    }
    if area == scan.pixels {
        return Ok(tree);
    }
    if covers_unscanned(scan, tree) {
        return Err(Refusal::TileUnscanned);
    }
    Ok(tree)
}

// The opening checks without the list. A call of its own, so that the answer with the list is not on the caller's stack.
#[cold]
#[inline(never)]
fn open_unfinished(scan: Scan, slots: &[u32]) -> Checked
    ensures { said result ≡ opening scan slots.now }
{
    open_check(scan, slots)?;
    Ok(())
}

// The same as `open_check` for a call on finished scans that takes little stack (tests/memory): a finished scan has its
// list checked and nothing else, with one call in between. Any other goes through all checks.
pub fn open_finished(scan: Scan, slots: &[u32]) -> Result<Quadtree<'_>, Refusal>
    ensures number { said result ≡ opening scan slots.now }
    ensures tree { IfOk result (λ q. (q.order ≡ scan.order) × (q.words.now ≡ take scan.tiles slots.now)) }
{
    let tree = list_check::check(scan.order, scan.tiles, slots)?;
    if tile::area(scan.order) == scan.pixels {
        return Ok(tree);
    }
    open_unfinished(scan, slots)?;
    Ok(tree)
}

// Whether every pixel is scanned: then what is asked need not be looked at.
fn whole(scan: Scan) -> bool
    requires { scan.order ≤ highest_order }
    ensures { result ≡ eqb scan.pixels (4 ^ scan.order) }
{
    scan.pixels == tile::area(scan.order)
}

// 52: the pixel asked, by its Morton number, is scanned.
pub fn pixel_scanned(scan: Scan, z: u32) -> Checked
    requires { (scan.order ≤ highest_order) × (z < 4 ^ scan.order) }
    ensures { said result ≡ scanned_check scan z }
{
    if whole(scan) {
        return Ok(());
    }
    if scan.pixels <= scan.kind.place(scan.order, z) {
        return Err(Refusal::Unscanned);
    }
    Ok(())
}

// 52: the block asked is wholly scanned.
pub fn block_scanned(scan: Scan, block: Block) -> Checked
    requires { (scan.order ≤ highest_order) × (block.size ≤ scan.order) × (block.corner < 4 ^ scan.order)
        × Aligned block.size block.corner }
    ensures { said result ≡ block_scanned_check scan block.corner block.size }
{
    if whole(scan) {
        return Ok(());
    }
    if unscanned_in(scan, block) {
        return Err(Refusal::Unscanned);
    }
    Ok(())
}

// 52: the scan to be written has every pixel.
pub fn finished(scan: Scan) -> Checked
    requires { scan.order ≤ highest_order }
    ensures { said result ≡ finished_check scan }
{
    if whole(scan) {
        return Ok(());
    }
    Err(Refusal::Unscanned)
}
