// Runs cut into blocks: a stretch of Morton numbers of one account is cut, from its start on, into the largest blocks
// that fit; they are counted, or written as words.
#![tactic(auto)]

ghost use Rattle.std.specs.Prelude.{◌≡◌, map, ◌+◌, ◌^◌, ◌<◌, ◌≤◌, length};
ghost use Rattle.std.proofs.lemmas.List.Edits.{sets};
ghost use Rattle.tile.specs.Tile.{word_of, highest_order, highest_account};
ghost use Rattle.quadtree.specs.Runs.{Greedy, cut};

use std::ops::Range;
use tile::Tile;

// The size of the largest block that starts where the stretch starts and ends in it: the trailing zeros of its start
// say what can start there, and the highest bit of its length what has room.
pub fn largest(stretch: Range<u32>) -> u32
    requires { (stretch.start < stretch.end) × (stretch.end ≤ 4 ^ highest_order) }
    ensures { Greedy stretch.start stretch.end result }
{
    let starts = stretch.start.trailing_zeros() / 2;
    let room = (31 - (stretch.end - stretch.start).leading_zeros()) / 2;
    starts.min(room)
}

// How many tiles a stretch is cut into; nobody's has none.
pub fn count_cut(stretch: Range<u32>, account: u8) -> usize
    requires { (stretch.start ≤ stretch.end) × (stretch.end ≤ 4 ^ highest_order) }
    ensures { result ≡ length (cut highest_order stretch.start stretch.end account) }
{
    if account == 0 {
        return 0;
    }
    let mut corner = stretch.start;
    let mut count = 0;
    // A `while`, as in `put_cut`: the blocks have different sizes.
    while corner < stretch.end {
        corner += tile::area(largest(corner..stretch.end));
        count += 1;
    }
    count
}

// Writes the words of these tiles to the slots from `at` on, and answers the slot behind them.
pub fn put_cut(slots: &mut [u32], at: usize, stretch: Range<u32>, account: u8) -> usize
    requires { (stretch.start ≤ stretch.end) × (stretch.end ≤ 4 ^ highest_order) × (account ≤ highest_account)
        × (at + length (cut highest_order stretch.start stretch.end account) ≤ length slots.old) }
    ensures { (result ≡ at + length (cut highest_order stretch.start stretch.end account))
        × (slots.new ≡ sets slots.old at (map word_of (cut highest_order stretch.start stretch.end account))) }
{
    if account == 0 {
        return at;
    }
    let mut corner = stretch.start;
    let mut top = at;
    while corner < stretch.end {
        let size = largest(corner..stretch.end);
        let tile = Tile {
            corner,
            size,
            account,
        };
        slots[top] = tile.word();
        corner += tile::area(size);
        top += 1;
    }
    top
}
