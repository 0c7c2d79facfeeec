// A tile list in lent slots with a gap: its words before `front` and those from `back` on. A pixel is put where the gap
// lies, and merges with its siblings ahead of it before it needs a slot. The slots are handed along with the gap.
#![tactic(auto)]

ghost use Rattle.std.specs.Prelude.{◌≡◌, true, ◌++◌, ◌+◌, ◌-◌, ◌^◌, ◌<◌, ◌≤◌, length, get_or, replicate};
ghost use Rattle.tile.specs.Tile.{tile, stop, tile_of, highest_order, highest_account};
ghost use Rattle.quadtree.specs.Tiling.{Levels};
ghost use Rattle.scan_gap.specs.Gap.{outcome, held, Fits, Placed, Pushed, Low, High, Moved};

use tile::Tile;

// Where the two parts of a list end and start.
#[derive(Clone, Copy, Debug, PartialEq, Eq)]
pub struct Gap {
    pub front: usize,
    pub back: usize,
}

// There was no slot for a pixel; the gap lies here.
#[derive(Clone, Copy, Debug, PartialEq, Eq)]
pub struct Full {
    pub gap: Gap,
}

// A pixel as a tile.
fn one_pixel(z: u32, account: u8) -> Tile
    ensures { result ≡ tile z 0 account }
{
    Tile {
        corner: z,
        size: 0,
        account,
    }
}

impl Gap {
    // Puts a tile behind the front part, where a slot is free for the tile that is left after merging. It merges up to
    // the size `levels`: the largest block that ends with it has this size.
    pub fn push(self, slots: &mut [u32], tile: Tile, levels: u32) -> Result<Gap, Full>
        requires fits { Fits slots.old self.front self.back }
        requires size_bound { (stop tile ≤ 4 ^ highest_order) × (tile.account ≤ highest_account) }
        requires size_le_levels { (tile.size ≤ levels) × Levels (stop tile) levels }
        ensures { Pushed slots.old slots.new self.front self.back tile (outcome result) }
    {
        let Gap { front, back } = self;
        let top = list_push::merge(slots, front, tile, levels);
        let at = top.at;
        if at == back {
            return Err(Full { gap: self });
        }
        let end = tile.corner + tile::area(tile.size);
        let grown = Tile {
            corner: end - tile::area(top.size),
            size: top.size,
            account: tile.account,
        };
        slots[at] = grown.word();
        Ok(Gap {
            front: at + 1,
            back,
        })
    }

    // Moves the gap back to the pixel z, which the last tile of the front part does not start ahead of: the words from
    // its place on go to the back part in one piece.
    fn retreat(self, slots: &mut [u32], z: u32) -> Gap
        requires fits { Fits slots.old self.front self.back }
        requires front_nonzero { (0 < self.front)
            × (z ≤ (tile_of (get_or slots.old (self.front - 1) 0)).corner) }
        ensures { Moved slots.old slots.new self.front self.back z result }
    {
        let Gap { front, back } = self;
        let at = list_search::cut(slots, 0, front - 1, z);
        let k = back - front;
        list_words::move_up(slots, at, front, k);
        Gap {
            front: at,
            back: at + k,
        }
    }

    // Moves the gap on to the pixel z, which the first tile of the back part starts ahead of: the words up to its
    // place, which is mostly near, go to the front part in one piece.
    fn advance(self, slots: &mut [u32], z: u32) -> Gap
        requires fits { Fits slots.old self.front self.back }
        requires back_in_bounds { (self.back < length slots.old)
            × ((tile_of (get_or slots.old self.back 0)).corner < z) }
        ensures { Moved slots.old slots.new self.front self.back z result }
    {
        let Gap { front, back } = self;
        let to = list_search::reach(slots, back + 1, z);
        let k = back - front;
        list_words::move_down(slots, front, to, k);
        Gap {
            front: to - k,
            back: to,
        }
    }

    // Whether the gap lies at the pixel z already.
    fn lies(self, slots: &[u32], z: u32) -> bool
        requires { Fits slots.now self.front self.back }
        ensures { result ≡ true → Low slots.now self.front z × High slots.now self.back z }
    {
        let Gap { front, back } = self;
        (front == 0 || tile::corner(slots[front - 1]) < z)
            && (back == slots.len() || z <= tile::corner(slots[back]))
    }

    // Moves the gap to the pixel z.
    pub fn seek(self, slots: &mut [u32], z: u32) -> Gap
        requires { Fits slots.old self.front self.back }
        ensures { Moved slots.old slots.new self.front self.back z result }
    {
        let Gap { front, back } = self;
        if 0 < front && z <= tile::corner(slots[front - 1]) {
            return self.retreat(slots, z);
        }
        if back < slots.len() && tile::corner(slots[back]) < z {
            return self.advance(slots, z);
        }
        self
    }

    // Puts somebody's account on the pixel z of the list, if the list that this makes has a slot for each of its tiles.
    // `levels` is the size of the largest block that ends with z.
    pub fn put(self, slots: &mut [u32], z: u32, levels: u32, account: u8) -> Result<Gap, Full>
        requires fits { Fits slots.old self.front self.back }
        requires z_bound { (z < 4 ^ highest_order) × (0 < account) × (account ≤ highest_account) }
        requires levels { Levels (z + 1) levels }
        ensures { Placed slots.old slots.new self.front self.back z account (outcome result) }
    {
        if self.lies(slots, z) {
            return self.push(slots, one_pixel(z, account), levels);
        }
        let gap = self.seek(slots, z);
        gap.push(slots, one_pixel(z, account), levels)
    }

    // The same where all the words lie in the front part and their tiles start ahead of z, so that nothing is searched:
    // the back part is empty, whatever `back` says.
    pub fn append(self, slots: &mut [u32], z: u32, levels: u32, account: u8) -> Result<Gap, Full>
        requires front_in_bounds { (self.front ≤ length slots.old) × Low slots.old self.front z }
        requires z_bound { (z < 4 ^ highest_order) × (0 < account) × (account ≤ highest_account) }
        requires levels { Levels (z + 1) levels }
        ensures placed { Placed slots.old slots.new self.front (length slots.old) z account (outcome result) }
        ensures back_value { ((outcome result).back ≡ length slots.new)
            × Low slots.new (outcome result).front (z + 1) }
    {
        let behind = Gap {
            front: self.front,
            back: slots.len(),
        };
        behind.push(slots, one_pixel(z, account), levels)
    }

    // Moves the back part down to the front part, and sets the rest of the slots to 0.
    pub fn close(self, slots: &mut [u32])
        requires { Fits slots.old self.front self.back }
        ensures { slots.new ≡ held slots.old self.front self.back ++ replicate (self.back - self.front) 0 }
    {
        let n = slots.len();
        let k = self.back - self.front;
        list_words::move_down(slots, self.front, n, k);
        list_words::clear_from(slots, n - k);
    }
}
