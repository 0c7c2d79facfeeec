// The layout of a map file, and numbers in its bytes, high byte first.
#![tactic(auto)]

ghost use Rattle.std.specs.Prelude.{◌≡◌, ◌+◌, ◌*◌, ◌/◌, ◌≤◌, ℕ, length, map};
ghost use Rattle.mapfile_bytes.specs.Layout.{word_length};
ghost use Rattle.mapfile_bytes.specs.Items.{word_at, words_at};

// Where the tile count stands: behind the order, which is one byte.
pub const COUNT_PLACE: usize = 1;

// The bytes of a tile count, a tile word, or an entry's pixels.
pub const WORD_LENGTH: usize = 4;

// Where the tile words stand.
pub const WORDS_PLACE: usize = COUNT_PLACE + WORD_LENGTH;

// Where the entries stand in the roster section: behind their count, which is one byte.
pub const ENTRIES_PLACE: usize = 1;

// The bytes of an entry: its account, which is one byte, and its pixels.
pub const ENTRY_LENGTH: usize = 1 + WORD_LENGTH;

// The bytes of a file without tiles: its order, its tile count and its roster count.
pub const BARE_LENGTH: usize = WORDS_PLACE + ENTRIES_PLACE;

// A tile word, as a number in a slot or as its bytes in a file.
pub trait Word {
    // The number that it is.
    ghost value: { Self → ℕ };

    fn number(&self) -> u32
        ensures { result ≡ value self.now };
}

impl Word for u32 {
    ghost value = { λ w. w };

    fn number(&self) -> u32 {
        *self
    }
}

impl Word for [u8; 4] {
    ghost value = { λ bytes. word_at bytes 0 };

    fn number(&self) -> u32 {
        join(self[0], self[1], self[2], self[3])
    }
}

// The number of 4 bytes, one by one: an array of them would be a copy.
fn join(a: u8, b: u8, c: u8, d: u8) -> u32
    ensures { result ≡ ((a * 256 + b) * 256 + c) * 256 + d }
{
    ((u32::from(a) * 256 + u32::from(b)) * 256 + u32::from(c)) * 256 + u32::from(d)
}

// The number in the 4 bytes from `p` on.
pub fn word_at(bytes: &[u8], p: usize) -> u32
    requires { p + word_length ≤ length bytes.now }
    ensures { result ≡ word_at bytes.now p }
{
    join(bytes[p], bytes[p + 1], bytes[p + 2], bytes[p + 3])
}

// The words that whole bytes make, 4 each.
pub fn words(bytes: &[u8]) -> &[[u8; 4]]
    ensures { map (λ w. word_at w 0) result.now ≡ words_at (length bytes.now / word_length) bytes.now 0 }
{
    let (words, _) = bytes.as_chunks::<WORD_LENGTH>();
    words
}
