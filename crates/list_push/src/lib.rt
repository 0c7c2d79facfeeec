// How a tile merges with the tiles ahead of it in a tile list: four siblings become one tile, which may be the last of
// four siblings again.
#![tactic(auto)]

ghost use Rattle.std.specs.Prelude.{◌≡◌, ◌+◌, ◌-◌, ◌*◌, ◌^◌, ◌<◌, ◌≤◌, length};
ghost use Rattle.tile.specs.Tile.{tile, stop, word_of, highest_order, highest_account};
ghost use Rattle.quadtree.specs.Tiling.{Levels};
ghost use Rattle.list_push.specs.Merging.{Room, Three, MergedInto};

use tile::Tile;

// What a tile becomes when it merges with the words ahead of it: the slot that it takes, and its size.
#[derive(Clone, Copy, Debug, PartialEq, Eq)]
pub struct Top {
    pub at: usize,
    pub size: u32,
}

// The word of the tile that stands `count` of its own areas ahead of the tile `last`.
fn word_ahead(last: Tile, count: u32) -> u32
    requires { (count * 4 ^ last.size ≤ last.corner) × (last.corner < 4 ^ highest_order) × (last.size ≤ highest_order)
        × (last.account ≤ highest_account) }
    ensures { result ≡ word_of (tile (last.corner - count * 4 ^ last.size) last.size last.account) }
{
    let corner = last.corner - count * tile::area(last.size);
    Tile { corner, ..last }.word()
}

// Whether the three words before `top` are the siblings of the tile `last`.
fn siblings(slots: &[u32], top: usize, last: Tile) -> bool
    requires { Room slots.now top (stop last) last.size last.account }
    ensures { Three slots.now top (stop last) last.size last.account result }
{
    slots[top - 1] == word_ahead(last, 1)
        && slots[top - 2] == word_ahead(last, 2)
        && slots[top - 3] == word_ahead(last, 3)
}

// How far a tile merges with the words before `front`, where the largest block that ends with it has the size `levels`.
pub fn merge(slots: &[u32], front: usize, tile: Tile, levels: u32) -> Top
    requires front_in_bounds { front ≤ length slots.now }
    requires size_bound { (stop tile ≤ 4 ^ highest_order) × (tile.account ≤ highest_account) }
    requires size_le_levels { (tile.size ≤ levels) × Levels (stop tile) levels }
    ensures { MergedInto slots.now front tile result }
{
    let end = tile.corner + tile::area(tile.size);
    let mut at = front;
    for size in tile.size..levels {
        let last = Tile {
            corner: end - tile::area(size),
            size,
            ..tile
        };
        if at < 3 || !siblings(slots, at, last) {
            return Top { at, size };
        }
        at -= 3;
    }
    Top { at, size: levels }
}
