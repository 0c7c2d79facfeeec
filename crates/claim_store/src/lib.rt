// The stores of a claim: room made in the list by one move of its tail, and the tiles that come written there.
#![tactic(auto)]

ghost use Rattle.std.specs.Prelude.{◌≡◌, ◌++◌, map, ◌+◌, ◌-◌, ◌*◌, ◌≤◌, length, take, drop};
ghost use Rattle.tile.specs.Tile.{word_of};
ghost use Rattle.claim_split.specs.Split.{pieces};
ghost use Rattle.claim_plan.specs.Plan.{inner};
ghost use Rattle.claim_store.specs.Stores.{Drawn, RoomMade};

use claim_plan::Change;
use tile::{Block, Tile};

// Makes room for `count` words in place of those from lo up to hi, in a list of so many tiles: the slots behind the list
// are needed too, so that the count stands beside them.
pub fn make_room(slots: &mut [u32], lo: usize, hi: usize, tiles: usize, count: usize)
    requires { (lo ≤ hi) × (hi ≤ tiles) × (tiles ≤ length slots.old)
        × (lo + count + (tiles - hi) ≤ length slots.old) }
    ensures { RoomMade slots.old slots.new lo hi tiles count }
{
    if hi == lo + count {
        return;
    }
    slots.copy_within(hi..tiles, lo + count);
}

// Writes the `count` tiles that come, from the outermost level to the block itself: those ahead of it from the left,
// those behind it from the right.
pub fn write_pieces(slots: &mut [u32], change: Change, count: usize, account: u8)
    requires { Drawn (length slots.old) change.lo change.block.size change.block.corner account change.owner
        change.whole.size change.whole.corner × (count ≡ 3 * (change.whole.size - change.block.size) + inner account) }
    ensures { slots.new ≡ take change.lo slots.old
        ++ (map word_of (pieces change.block.size change.block.corner account change.owner
        (change.whole.size - change.block.size) change.whole.corner) ++ drop (change.lo + count) slots.old) }
{
    let Block { corner, size } = change.block;
    let mut left = change.lo;
    let mut right = change.lo + count;
    let mut d = change.whole.corner;
    for s in (size..change.whole.size).rev() {
        let area = tile::area(s);
        let place = (corner - d) / area;
        let before = place as usize;
        let after = 3 - before;
        let first = Tile {
            corner: d,
            size: s,
            account: change.owner,
        };
        list_equal::write_equal(&mut slots[left..left + before], first);
        d += place * area;
        right -= after;
        let next = Tile {
            corner: d + area,
            ..first
        };
        list_equal::write_equal(&mut slots[right..right + after], next);
        left += before;
    }
    if account != 0 {
        slots[left] = Tile {
            corner,
            size,
            account,
        }
        .word();
    }
}
