// The sections of a map file, stored into bytes: words, and the roster, which is counted from the words with a pass for
// each account that has tiles.
#![tactic(auto)]

ghost use Rattle.std.specs.Prelude.{◌≡◌, ℕ, ◌+◌, ◌*◌, ◌%◌, ◌^◌, ◌<◌, ◌≤◌, ltb, length, map};
ghost use Rattle.std.proofs.lemmas.List.Edits.{sets};
ghost use Rattle.tile.specs.Tile.{tile_of, highest_account};
ghost use Rattle.mapfile_bytes.specs.Layout.{word_length, words_place, roster_place, entry_length, roster_length};
ghost use Rattle.mapfile_roster.specs.Roster.{covered, roster_of};
ghost use Rattle.mapfile_roster.specs.Accounts.{SetOf};
ghost use Rattle.mapfile_sections.specs.OneEntry.{entry_of};
ghost use Rattle.mapfile_sections.specs.Sections.{word_bytes, words_bytes, entries_bytes, roster_bytes};

use mapfile_bytes::{ENTRIES_PLACE, ENTRY_LENGTH, WORD_LENGTH, WORDS_PLACE};
use mapfile_roster::{Accounts, Entry, LOWEST_ACCOUNT};

// The lowest byte of a number.
fn low(w: u32) -> u8
    ensures { result ≡ w % 256 }
{
    (w % 256) as u8
}

// A number into the 4 bytes from `at` on, high byte first.
pub fn put(file: &mut [u8], at: usize, w: u32)
    requires { at + word_length ≤ length file.old }
    ensures { file.new ≡ sets file.old at (word_bytes w) }
{
    file[at] = low(w >> 24);
    file[at + 1] = low(w >> 16);
    file[at + 2] = low(w >> 8);
    file[at + 3] = low(w);
}

// The words of a list into their place.
pub fn put_words(words: &[u32], file: &mut [u8])
    requires { roster_place (length words.now) ≤ length file.old }
    ensures { file.new ≡ sets file.old words_place (words_bytes words.now) }
{
    for (i, word) in words.iter().enumerate() {
        put(file, WORDS_PLACE + WORD_LENGTH * i, *word);
    }
}

// The set of the accounts that have tiles: one pass over the words.
fn tiled(words: &[u32]) -> Accounts
    ensures { SetOf (λ a. ltb 0 (covered a (map tile_of words.now))) result }
{
    let mut set = Accounts::none();
    for word in words {
        set = set.with(tile::account(*word));
    }
    set
}

// An entry into the bytes from `p` on, if its account covers pixels; answers where the next one goes.
fn put_entry(file: &mut [u8], p: usize, entry: Entry) -> usize
    requires { p + entry_length * length (entry_of entry.account entry.pixels) ≤ length file.old }
    ensures next { result ≡ p + entry_length * length (entry_of entry.account entry.pixels) }
    ensures stored { file.new ≡ sets file.old p (entries_bytes (entry_of entry.account entry.pixels)) }
{
    let Entry { account, pixels } = entry;
    if pixels == 0 {
        return p;
    }
    file[p] = account;
    put(file, p + 1, pixels);
    p + ENTRY_LENGTH
}

// The roster of a list: its words, no account of which covers more than a number holds, and the accounts that have
// tiles.
#[derive(Clone, Copy)]
pub struct Roster<'a> {
    words: &'a [u32],
    accounts: Accounts,
    ghost has_tiles: { SetOf (λ a. ltb 0 (covered a (map tile_of words.now))) accounts },
    ghost fits: { (a : ℕ) → covered a (map tile_of words.now) < 2 ^ 32 },
}

impl<'a> Roster<'a> {
    // The roster of the words of a list.
    pub fn of(words: &'a [u32]) -> Roster<'a>
        requires { (a : ℕ) → covered a (map tile_of words.now) < 2 ^ 32 }
        ensures { result.words.now ≡ words.now }
    {
        let accounts = tiled(words);
        Roster { words, accounts }
    }

    // How many entries it has: one for each account that has tiles.
    pub fn len(&self) -> usize
        ensures { result ≡ length (roster_of (map tile_of self.now.words.now)) }
    {
        self.accounts.count()
    }

    // The pixels that an account covers: none where it has no tiles, else one pass over the words.
    fn pixels(&self, account: u8) -> u32
        requires { account ≤ highest_account }
        ensures { result ≡ covered account (map tile_of self.now.words.now) }
    {
        if !self.accounts.has(account) {
            return 0;
        }
        mapfile_roster::covered(account, self.words)
    }

    // The roster section into its part of a file: the count of the entries, and behind it the entries by rising account.
    // The place moves by hand, since only an account that has tiles takes 5 bytes.
    pub fn put(&self, section: &mut [u8])
        requires { roster_length (length (roster_of (map tile_of self.now.words.now))) ≤ length section.old }
        ensures { section.new ≡ sets section.old 0 (roster_bytes (roster_of (map tile_of self.now.words.now))) }
    {
        section[0] = self.len() as u8;
        let mut place = ENTRIES_PLACE;
        for account in LOWEST_ACCOUNT..=tile::HIGHEST_ACCOUNT {
            let pixels = self.pixels(account);
            place = put_entry(section, place, Entry { account, pixels });
        }
    }
}
