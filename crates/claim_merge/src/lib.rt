// Merging, which only reads: a tile in place of others goes together with its siblings on both sides, over as many
// levels as fit.
#![tactic(auto)]

ghost use Rattle.std.specs.Prelude.{◌≡◌, map, ◌+◌, ◌-◌, ◌≤◌, length};
ghost use Rattle.basics.specs.Test.{Test};
ghost use Rattle.tile.specs.Tile.{tile_of, highest_order};
ghost use Rattle.quadtree.specs.Raster.{account_at};
ghost use Rattle.bed.specs.Bed.{claimed};
ghost use Rattle.claim_merge.specs.Standing.{Block, quadrant_of, Beside, Stands, Merges};

use tile::Tile;

// A tile in place of the tiles of a list from `lo` up to `hi`.
#[derive(Clone, Copy, Debug, PartialEq, Eq)]
pub struct Standing {
    pub lo: usize,
    pub hi: usize,
    pub tile: Tile,
}

// Which quadrant of its parent a tile is.
fn quadrant(tile: Tile) -> u32
    requires { tile.size ≤ highest_order }
    ensures { result ≡ quadrant_of tile.corner tile.size }
{
    tile.corner / tile::area(tile.size) % 4
}

// Do the three siblings of the tile stand ahead of lo and from hi on?
fn beside(list: &[u32], standing: Standing) -> bool
    requires { (standing.lo ≤ length list.now) × (standing.hi ≤ length list.now)
        × Block standing.tile.corner standing.tile.size }
    ensures { Test (Beside (map tile_of list.now) standing.lo standing.hi standing.tile.corner standing.tile.size
        standing.tile.account) result }
{
    let Standing { lo, hi, tile } = standing;
    let area = tile::area(tile.size);
    let place = quadrant(tile);
    let before = place as usize;
    let after = 3 - before;
    if lo < before {
        return false;
    }
    if list.len() - hi < after {
        return false;
    }
    let first = Tile {
        corner: tile.corner - place * area,
        ..tile
    };
    if !list_equal::are_equal(&list[lo - before..lo], first) {
        return false;
    }
    let next = Tile {
        corner: tile.corner + area,
        ..tile
    };
    list_equal::are_equal(&list[hi..hi + after], next)
}

// Merges a tile in place of others with its siblings on both sides, over as many levels as they are all there.
pub fn merge(order: u32, list: &[u32], standing: Standing) -> Standing
    requires { (order ≤ highest_order)
        × Stands (claimed (account_at (map tile_of list.now)) standing.tile.corner standing.tile.size
        standing.tile.account) order (map tile_of list.now) standing.tile.account standing.lo standing.hi
        standing.tile.corner standing.tile.size }
    ensures { (result.tile.account ≡ standing.tile.account)
        × Merges (claimed (account_at (map tile_of list.now)) standing.tile.corner standing.tile.size
        standing.tile.account) order (map tile_of list.now) standing.tile.account result.lo result.hi
        result.tile.corner result.tile.size }
{
    let mut merged = standing;
    while beside(list, merged) {
        let Tile {
            corner,
            size,
            account,
        } = merged.tile;
        let place = quadrant(merged.tile);
        let before = place as usize;
        let parent = Tile {
            corner: corner - place * tile::area(size),
            size: size + 1,
            account,
        };
        merged = Standing {
            lo: merged.lo - before,
            hi: merged.hi + (3 - before),
            tile: parent,
        };
    }
    merged
}
