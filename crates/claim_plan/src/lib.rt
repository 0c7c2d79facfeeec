// The plan of a claim, which only reads: which tiles of a checked list go, which tiles come in their place, and how
// many the list then has.
#![tactic(auto)]

ghost use Rattle.std.specs.Prelude.{◌≡◌, map, ◌+◌, ◌*◌, ◌≤◌, length};
ghost use Rattle.basics.specs.Test.{Test};
ghost use Rattle.tile.specs.Tile.{tile_of, highest_order};
ghost use Rattle.list_search.specs.FirstPast.{FirstPast};
ghost use Rattle.claim_plan.specs.Plan.{Claimable, Covered, Changes, inner, Plans};

use claim_merge::Standing;
use list_check::Quadtree;
use tile::{Block, Tile};

// The tiles from `lo` up to `hi` give way to those of the block `whole`, in which `block` has the claimed account and
// the rest is the owner's.
#[derive(Clone, Copy, Debug, PartialEq, Eq)]
pub struct Change {
    pub lo: usize,
    pub hi: usize,
    pub whole: Block,
    pub block: Block,
    pub owner: u8,
}

// A change, how many tiles come, and how many the list then has.
#[derive(Clone, Copy, Debug, PartialEq, Eq)]
pub struct Planned {
    pub change: Change,
    pub pieces: usize,
    pub tiles: usize,
}

// Is the tile at lo larger than the block, and does it not start behind its corner?
fn covered(list: &[u32], lo: usize, block: Block) -> bool
    ensures { Test (Covered list.now lo block.corner block.size) result }
{
    if list.len() <= lo {
        return false;
    }
    let Tile { corner, size, .. } = Tile::from(list[lo]);
    if size <= block.size {
        return false;
    }
    corner <= block.corner
}

// The change where the tile at lo covers the block of the tile claimed: it is split, or kept if the account is its own.
fn split(tree: Quadtree<'_>, lo: usize, tile: Tile) -> Change
    requires { Claimable tree.order (map tile_of tree.words.now) tile.corner tile.size tile.account
        × FirstPast tree.words.now 0 tile.corner lo × Covered tree.words.now lo tile.corner tile.size }
    ensures { Changes tree.entry.order (map tile_of tree.entry.words.now) tile.corner tile.size tile.account result }
{
    let Tile {
        corner,
        size,
        account,
    } = Tile::from(tree.words[lo]);
    let whole = Block { corner, size };
    let owner = account;
    if owner == tile.account {
        return Change {
            lo,
            hi: lo + 1,
            whole,
            block: whole,
            owner,
        };
    }
    let block = Block {
        corner: tile.corner,
        size: tile.size,
    };
    Change {
        lo,
        hi: lo + 1,
        whole,
        block,
        owner,
    }
}

// What the claim of a tile's block for its account changes.
fn find_change(tree: Quadtree<'_>, tile: Tile) -> Change
    requires { Claimable tree.order (map tile_of tree.words.now) tile.corner tile.size tile.account }
    ensures { Changes tree.entry.order (map tile_of tree.entry.words.now) tile.corner tile.size tile.account result }
{
    let Quadtree { order, words, .. } = tree;
    let Tile {
        corner,
        size,
        account,
    } = tile;
    let block = Block { corner, size };
    let lo = list_search::first_past(words, 0, corner);
    if covered(words, lo, block) {
        return split(tree, lo, tile);
    }
    let hi = list_search::first_past(words, lo, corner + tile::area(size));
    if account == 0 {
        return Change {
            lo,
            hi,
            whole: block,
            block,
            owner: 0,
        };
    }
    let Standing { lo, hi, tile } = claim_merge::merge(order, words, Standing { lo, hi, tile });
    let block = Block {
        corner: tile.corner,
        size: tile.size,
    };
    Change {
        lo,
        hi,
        whole: block,
        block,
        owner: 0,
    }
}

// How many tiles a block has that is split over so many levels, around a block of an account.
fn count_pieces(levels: u32, account: u8) -> usize
    requires { levels ≤ highest_order }
    ensures { result ≡ 3 * levels + inner account }
{
    3 * levels as usize + usize::from(account != 0)
}

// Plans the claim of a tile's block for its account: what changes, and how many tiles the list then has.
pub fn plan(tree: Quadtree<'_>, tile: Tile) -> Planned
    requires { Claimable tree.order (map tile_of tree.words.now) tile.corner tile.size tile.account }
    ensures { Plans tree.entry.order (map tile_of tree.entry.words.now) tile.corner tile.size tile.account result }
{
    let change = find_change(tree, tile);
    let pieces = count_pieces(change.whole.size - change.block.size, tile.account);
    let left = tree.words.len() - change.hi;
    Planned {
        change,
        pieces,
        tiles: change.lo + pieces + left,
    }
}
