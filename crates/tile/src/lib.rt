// Tiles and their words, packed and unpacked by shifts and masks, and the areas, sides and corners of blocks. No other
// crate knows the bits.
#![tactic(auto)]

ghost use Rattle.std.specs.Prelude.{◌≡◌, ◌^◌, ◌<◌, ◌≤◌};
ghost use Rattle.tile.specs.Tile.{stop, corner_at, tile_of, word_of, highest_order, highest_account};

// A block of a bed, or a place for one: its corner's Morton number and its size.
#[derive(Clone, Copy, Debug, PartialEq, Eq)]
pub struct Block {
    pub corner: u32,
    pub size: u32,
}

// A block and its account.
#[derive(Clone, Copy, Debug, PartialEq, Eq)]
pub struct Tile {
    pub corner: u32,
    pub size: u32,
    pub account: u8,
}

impl Tile {
    // The word of a tile.
    pub fn word(self) -> u32
        requires { (self.corner < 4 ^ highest_order) × (self.size ≤ highest_order)
            × (self.account ≤ highest_account) }
        ensures { result ≡ word_of self }
    {
        (self.corner << CORNER_PLACE) | (self.size << ACCOUNT_BITS) | self.account as u32
    }
}

// The tile of a word.
impl From<u32> for Tile {
    ghost from_gives = { λ w t. t ≡ tile_of w };

    fn from(word: u32) -> Tile {
        Tile {
            corner: corner(word),
            size: size(word),
            account: account(word),
        }
    }
}

// Orders and sizes go from 0 to it.
pub const HIGHEST_ORDER: u32 = 10;

// Accounts go from 0, nobody's, to it.
pub const HIGHEST_ACCOUNT: u8 = 63;

// The account is in the lowest bits, the size stands above it, and the corner above the size.
const ACCOUNT_BITS: u32 = 6;

const SIZE_BITS: u32 = 4;

const CORNER_PLACE: u32 = ACCOUNT_BITS + SIZE_BITS;

const ACCOUNT_MASK: u32 = (1 << ACCOUNT_BITS) - 1;

const SIZE_MASK: u32 = (1 << SIZE_BITS) - 1;

// The words of tiles are below it: a corner takes two bits for each order, so that bits 31 and 30 are zero.
pub const WORD_LIMIT: u32 = 1 << (CORNER_PLACE + 2 * HIGHEST_ORDER);

// The corner of the tile of the word w.
pub fn corner(w: u32) -> u32
    ensures { result ≡ (tile_of w).corner }
{
    w >> CORNER_PLACE
}

// The size of the tile of the word w.
pub fn size(w: u32) -> u32
    ensures { result ≡ (tile_of w).size }
{
    (w >> ACCOUNT_BITS) & SIZE_MASK
}

// The account of the tile of the word w.
pub fn account(w: u32) -> u8
    ensures { result ≡ (tile_of w).account }
{
    (w & ACCOUNT_MASK) as u8
}

// The pixels of a tile of a size.
pub fn area(size: u32) -> u32
    requires { size ≤ 15 }
    ensures { result ≡ 4 ^ size }
{
    1u32 << (2 * size)
}

// The columns, or rows, of a block of a size.
pub fn side(size: u32) -> u32
    requires { size ≤ 15 }
    ensures { result ≡ 2 ^ size }
{
    1u32 << size
}

// The first Morton number past the tile of the word w.
pub fn stop(w: u32) -> u32
    ensures { result ≡ stop (tile_of w) }
{
    corner(w) + area(size(w))
}

// The corner of the block of a size that has the Morton number z.
pub fn corner_at(size: u32, z: u32) -> u32
    requires { size ≤ 15 }
    ensures { result ≡ corner_at size z }
{
    z - z % area(size)
}
