// Decoding a map to the accounts of its pixels, row after row: tile by tile, and each tile by the spans of its rows.
#![tactic(auto)]

ghost use Rattle.std.specs.Prelude.{◌≡◌, ℕ, ◌+◌, ◌*◌, ◌^◌, ◌≤◌, length};
ghost use Rattle.refusal.specs.Checks.{Gives};
ghost use Rattle.refusal.specs.Refused.{said};
ghost use Rattle.tile.specs.Tile.{highest_order};
ghost use Rattle.tile.specs.Slots.{tiles};
ghost use Rattle.quadtree.specs.Raster.{account_at, Quadrant};
ghost use Rattle.bed.specs.Places.{rows};
ghost use Rattle.decode.specs.Decode.{decode_of};
ghost use Rattle.decode.specs.Filled.{RectangleFilled, TileFilled};

use list_check::Quadtree;
use refusal::{Checked, Refusal};
use tile::Tile;

// Sets a square of a raster whose rows have `width` bytes, row by row.
fn square(raster: &mut [u8], width: usize, column: usize, row: usize, side: usize, account: u8)
    requires { (width ≤ 2 ^ highest_order) × (column + side ≤ width) × (row + side ≤ width)
        × (length raster.old ≡ width * width) }
    ensures { RectangleFilled width raster.old column row side side account raster.new }
{
    for y in 0..side {
        let from = (row + y) * width + column;
        raster[from..from + side].fill(account);
    }
}

// Sets the pixels of a tile.
fn paint(order: u32, tile: Tile, raster: &mut [u8])
    requires { (order ≤ highest_order) × Quadrant order tile × (length raster.old ≡ 4 ^ order) }
    ensures { TileFilled order tile raster.old raster.new }
{
    let Tile {
        corner,
        size,
        account,
    } = tile;
    let width = tile::side(order) as usize;
    let side = tile::side(size) as usize;
    let column = morton::column_of(corner) as usize;
    let row = morton::row_of(corner) as usize;
    square(raster, width, column, row, side, account);
}

// Sets each pixel to the account that a list shows there: to 0, and then the tiles in turn.
fn fill(map: Quadtree<'_>, raster: &mut [u8])
    requires { length raster.old ≡ 4 ^ map.order }
    ensures { raster.new ≡ rows map.entry.order (account_at (tiles map.entry.words.now)) }
{
    raster.fill(0);
    for word in map.words {
        paint(map.order, Tile::from(*word), raster);
    }
}

// The offered call: writes the account of each pixel to the raster, row after row. A list that list checking refuses is
// refused, and so is a raster of another length than the bed has pixels; then no byte changes.
pub fn decode(order: u32, tiles: usize, slots: &[u32], raster: &mut [u8]) -> Checked
    ensures { Gives (said result) raster.new (decode_of order tiles slots.now raster.old) }
{
    let map = list_check::check(order, tiles, slots)?;
    if raster.len() != tile::area(order) as usize {
        return Err(Refusal::RasterLength);
    }
    fill(map, raster);
    Ok(())
}
