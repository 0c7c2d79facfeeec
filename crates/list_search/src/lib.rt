// Where a Morton number falls among words, by where their tiles start or by where they stop. Nothing is asked of the
// words; in a valid list there is one such place.
#![tactic(auto)]

ghost use Rattle.std.specs.Prelude.{◌≡◌, ◌-◌, ◌<◌, ◌≤◌, length, slice_index, true, false};
ghost use Rattle.tile.specs.Slots.{tiles_in};
ghost use Rattle.quadtree.specs.Quadtree.{Rising};
ghost use Rattle.list_search.specs.Cut.{Cut};
ghost use Rattle.list_search.specs.FirstPast.{FirstPast};
ghost use Rattle.list_search.specs.Count.{is_ahead, counted};

// The place from `from` to `to` at which a test of the words turns: the word ahead of it passes, the word at it does
// not. By halves; the library's `partition_point` promises nothing of words that the test does not part.
fn turn<P: Fn(u32) -> bool>(words: &[u32], from: usize, to: usize, passes: P) -> usize
    requires in_bounds { (from ≤ to) × (to ≤ length words.now) }
    requires callable { P.IsAlwaysCallable passes }
    ensures within { (from ≤ result) × (result ≤ to) }
    ensures ahead { from < result → P.post passes (slice_index words.now (result - 1)) true }
    ensures behind { result < to → P.post passes (slice_index words.now result) false }
{
    let mut low = from;
    let mut high = to;
    while low < high {
        let middle = low + (high - low) / 2;
        if passes(words[middle]) {
            low = middle + 1;
        } else {
            high = middle;
        }
    }
    low
}

// The place of z from `from` to `to`.
pub fn cut(slots: &[u32], from: usize, to: usize, z: u32) -> usize
    requires { (from ≤ to) × (to ≤ length slots.now) }
    ensures { Cut slots.now from to z result }
{
    turn(slots, from, to, |word| tile::corner(word) < z)
}

// The place of z from `from` on, where it is expected to be near: in steps that double, and by halves in the last of
// them.
pub fn reach(slots: &[u32], from: usize, z: u32) -> usize
    requires { from ≤ length slots.now }
    ensures { Cut slots.now from (length slots.now) z result }
{
    let n = slots.len();
    let mut low = from;
    // A `while`: the step doubles.
    while low - from < n - low {
        let probe = low + (low - from);
        if z <= tile::corner(slots[probe]) {
            return cut(slots, low, probe, z);
        }
        low = probe + 1;
    }
    cut(slots, low, n, z)
}

// How many tiles of a sorted list have a corner below z.
pub fn ahead(slots: &[u32], tiles: usize, z: u32) -> usize
    requires { (tiles ≤ length slots.now) × Rising 0 (tiles_in tiles slots.now) }
    ensures { result ≡ counted (is_ahead z) (tiles_in tiles slots.now) }
{
    cut(slots, 0, tiles, z)
}

// The first index from `from` on whose tile stops past x, or the length.
pub fn first_past(list: &[u32], from: usize, x: u32) -> usize
    requires { from ≤ length list.now }
    ensures { FirstPast list.now from x result }
{
    turn(list, from, list.len(), |word| tile::stop(word) <= x)
}
