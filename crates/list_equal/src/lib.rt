// Equal tiles: of one size and account, one behind the other, compared with words of a list and written as words.
#![tactic(auto)]

ghost use Rattle.std.specs.Prelude.{◌≡◌, map, ◌+◌, ◌*◌, ◌^◌, ◌<◌, ◌≤◌, length};
ghost use Rattle.basics.specs.Test.{Test};
ghost use Rattle.tile.specs.Tile.{tile_of, word_of, highest_order, highest_account};
ghost use Rattle.quadtree.specs.Tiling.{equal_tiles};

use tile::Tile;

// Are these words the equal tiles that begin with `first`?
pub fn are_equal(words: &[u32], first: Tile) -> bool
    requires { (first.size ≤ highest_order) × (first.corner + length words.now * 4 ^ first.size < 2 ^ 32) }
    ensures { Test (map tile_of words.now ≡ equal_tiles first.size first.account (length words.now) first.corner)
        result }
{
    let area = tile::area(first.size);
    let mut expected = first;
    for word in words {
        if Tile::from(*word) != expected {
            return false;
        }
        expected.corner += area;
    }
    true
}

// Writes the equal tiles that begin with `first`, one to each slot.
pub fn write_equal(slots: &mut [u32], first: Tile)
    requires { (first.size ≤ highest_order) × (first.account ≤ highest_account)
        × (first.corner + length slots.old * 4 ^ first.size ≤ 4 ^ highest_order) }
    ensures { slots.new ≡ map word_of (equal_tiles first.size first.account (length slots.old) first.corner) }
{
    let area = tile::area(first.size);
    let mut tile = first;
    for slot in slots.iter_mut() {
        *slot = tile.word();
        tile.corner += area;
    }
}
