// What a tile adds to the pixels of an account, and sets of accounts.
#![tactic(auto)]

ghost use Rattle.std.specs.Prelude.{◌≡◌, false, ◌||◌, ◌^◌, ◌<◌, ◌≤◌, eqb, map};
ghost use Rattle.basics.specs.Choice.{if};
ghost use Rattle.tile.specs.Tile.{tile_of, highest_account};
ghost use Rattle.mapfile_roster.specs.Roster.{covered};
ghost use Rattle.mapfile_roster.specs.Accounts.{has, SetOf, count};

use mapfile_bytes::Word;

// Somebody's accounts go from it to the highest.
pub const LOWEST_ACCOUNT: u8 = 1;

// An entry of a roster: an account and the pixels that it covers.
#[derive(Clone, Copy, Debug, PartialEq, Eq)]
pub struct Entry {
    pub account: u8,
    pub pixels: u32,
}

// The entry in its bytes in a file, which are only looked at: an array of them would be a copy.
impl From<&[u8; 5]> for Entry {
    ghost use Rattle.mapfile_roster.specs.Roster.{entry_in};

    ghost from_gives = { λ bytes e. e ≡ entry_in bytes.now };

    fn from(bytes: &[u8; 5]) -> Entry {
        Entry {
            account: bytes[0],
            pixels: mapfile_bytes::word_at(bytes, 1),
        }
    }
}

// A set of accounts, a bit for each: no other crate knows the bits.
#[derive(Clone, Copy, Debug, PartialEq, Eq)]
pub struct Accounts {
    bits: u64,
}

impl Accounts {
    // The set without accounts.
    pub fn none() -> Accounts
        ensures { SetOf (λ a. false) result }
    {
        Accounts { bits: 0 }
    }

    // The set with one account more.
    pub fn with(self, account: u8) -> Accounts
        requires { account ≤ highest_account }
        ensures { SetOf (λ a. eqb account a || has self a) result }
    {
        let bits = self.bits | (1u64 << account);
        Accounts { bits }
    }

    // The account is in the set.
    pub fn has(self, account: u8) -> bool
        requires { account ≤ highest_account }
        ensures { result ≡ has self account }
    {
        (self.bits >> account) % 2 == 1
    }

    // How many of somebody's accounts are in the set.
    pub fn count(self) -> usize
        ensures { result ≡ count self }
    {
        (self.bits >> LOWEST_ACCOUNT).count_ones() as usize
    }
}

// The pixels of a word's tile where it is the account's, else 0.
pub fn share(account: u8, word: u32) -> u32
    ensures { result ≡ if (eqb (tile_of word).account account) (4 ^ (tile_of word).size) 0 }
{
    if tile::account(word) != account {
        return 0;
    }
    let size = tile::size(word);
    tile::area(size)
}

// The pixels that an account covers: one pass over the words.
pub fn covered<W: Word>(account: u8, words: &[W]) -> u32
    requires { covered account (map tile_of (map W.value words.now)) < 2 ^ 32 }
    ensures { result ≡ covered account (map tile_of (map W.value words.now)) }
{
    let mut sum = 0;
    for word in words {
        sum += share(account, word.number());
    }
    sum
}
