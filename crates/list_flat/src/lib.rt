// List checking without a branch in the loop: how far the words of a list are clear. It does not tell what is wrong
// with one that is not: that is list_check's, word by word.
#![tactic(auto)]

ghost use Rattle.std.specs.Prelude.{◌≡◌, false, ℕ, ◌+◌, ◌<◌, ◌≤◌, length};
ghost use Rattle.tile.specs.Tile.{tile_of, highest_order};
ghost use Rattle.list_flat.specs.Clear.{Clear, ClearAt};

// How many words behind a word are looked at with it.
pub const BEHIND: usize = 3;

// How many words are looked at, at most, before a fault among them ends the search.
const LONGEST: usize = 256;

// Whether the tile of x is not aligned or nobody's, the tile of y starts before it ends, or the four words are
// siblings: then they differ in nothing but the corner, and there by less than their block. The area is one local, and
// nothing but 1 is shifted by a size: else the compiler needs multiplications for it.
fn fault(x: u32, y: u32, z: u32, t: u32) -> bool
    ensures { result ≡ false → Clear (tile_of x) (tile_of y) (tile_of z) (tile_of t) }
{
    let corner = tile::corner(x);
    let area = tile::area(tile::size(x));
    let apart = (x ^ y) | (x ^ z) | (x ^ t);
    let siblings = (tile::account(apart) == 0)
        & (tile::size(apart) == 0)
        & (tile::corner(apart) / 4 < area);
    (corner % area != 0) | (tile::account(x) == 0) | (tile::corner(y) < corner + area) | siblings
}

// Whether there is a fault at one of the words from `from` up to `to`, or one of them is not on the bed: the corners of
// all, joined bit by bit, are no smaller than each. No branch inside, so that the loop is vectorized.
fn faults(order: u32, from: usize, to: usize, slots: &[u32]) -> bool
    requires { (order ≤ highest_order) × (to + 3 ≤ length slots.now) }
    ensures { result ≡ false → (j : ℕ) → from ≤ j → j < to → ClearAt order slots.now j }
{
    let mut bad = false;
    let mut all = 0u32;
    for i in from..to {
        let x = slots[i];
        bad |= fault(x, slots[i + 1], slots[i + 2], slots[i + 3]);
        all |= x;
    }
    bad | (tile::area(order) <= tile::corner(all))
}

// Where the stretch ends that starts at i: it has as many words as were looked at up to there, so that stretches double
// and a fault near the front is soon found.
fn stretch_end(i: usize, end: usize) -> usize
    requires { i < end }
    ensures { (i < result) × (result ≤ end) }
{
    let longest = i.min(LONGEST - BEHIND) + BEHIND;
    i + longest.min(end - i)
}

// Where the first stretch starts, from `from` on, in which there is a fault, or the end.
pub fn flat(order: u32, from: usize, end: usize, slots: &[u32]) -> usize
    requires { (order ≤ highest_order) × (from ≤ end) × (end + 3 ≤ length slots.now) }
    ensures { (from ≤ result) × (result ≤ end)
        × ((j : ℕ) → from ≤ j → j < result → ClearAt order slots.now j) }
{
    let mut i = from;
    // A `while`: the stretches have different lengths.
    while i < end {
        let next = stretch_end(i, end);
        if faults(order, i, next, slots) {
            return i;
        }
        i = next;
    }
    i
}
