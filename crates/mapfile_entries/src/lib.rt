// The roster section of a map file, checked against the tiles: read only, with a pass over the words for each entry.
// Which accounts have tiles is not asked: entries that rise are the roster if each has the pixels of its account, of
// which there are some, and together they have those of all tiles.
#![tactic(auto)]

ghost use Rattle.std.specs.Prelude.{◌≡◌, ℕ, ◌^◌, ◌<◌, ◌≤◌, ◌↔◌, IsTrue, All, sum_by, length, map};
ghost use Rattle.refusal.specs.Refused.{said};
ghost use Rattle.mapfile_roster.specs.Roster.{covered, entry_in, roster_good};
ghost use Rattle.mapfile_entries.specs.RosterCheck.{roster_check};
ghost use Rattle.mapfile_entries.specs.Pixels.{file_tiles, area_of, pixels_in, rises, entry_right, entries_right};

use mapfile_bytes::ENTRY_LENGTH;
use mapfile_roster::Entry;
use refusal::{Checked, Refusal};

// The tiles of a file by their words, no account of which covers more than a number holds, and the pixels of all of
// them.
#[derive(Clone, Copy)]
pub struct Tiles<'a> {
    pub words: &'a [[u8; 4]],
    pub area: u32,
    pub ghost fits: { (a : ℕ) → covered a (file_tiles words.now) < 2 ^ 32 },
    pub ghost sums: { area ≡ area_of (file_tiles words.now) },
}

impl<'a> Tiles<'a> {
    // The entry has the pixels of its account, of which there are some.
    fn right(&self, entry: Entry) -> bool
        ensures { result ≡ entry_right (file_tiles self.now.words.now) entry }
    {
        let pixels = mapfile_roster::covered(entry.account, self.words);
        pixels != 0 && entry.pixels == pixels
    }

    // Every entry does.
    fn all_right(&self, entries: &[[u8; 5]]) -> bool
        ensures { IsTrue result ↔ All (λ e. IsTrue (entry_right (file_tiles self.now.words.now) (entry_in e))) entries.now }
    {
        entries.iter().all(|entry| self.right(Entry::from(entry)))
    }

    // Entries that rise are the roster of the tiles: together they have the pixels of all tiles, and each has those of
    // its account, of which there are some.
    fn listed_by(&self, entries: &[[u8; 5]]) -> bool
        requires few { length entries.now ≤ 255 }
        requires rise { IsTrue (rises 0 (map entry_in entries.now)) }
        ensures { result ≡ roster_good (file_tiles self.now.words.now) (map entry_in entries.now) }
    {
        pixels_in(entries) == self.area as usize && self.all_right(entries)
    }

    // The roster section of a file of the tiles: 41 for its count, then 41 and 54 entry by entry, 42, 43.
    pub fn check(&self, section: &[u8]) -> Checked
        ensures { said result ≡ roster_check (file_tiles self.now.words.now) section.now }
    {
        let Some((count, entries)) = section.split_first() else {
            return Err(Refusal::FileCutShort);
        };
        let count = *count as usize;
        let (whole, _) = entries.as_chunks::<ENTRY_LENGTH>();
        let listed = &whole[..count.min(whole.len())];
        if !rising(listed) {
            return Err(Refusal::RosterUnsorted);
        }
        if whole.len() < count {
            return Err(Refusal::FileCutShort);
        }
        if ENTRY_LENGTH * count < entries.len() {
            return Err(Refusal::TrailingBytes);
        }
        if !self.listed_by(listed) {
            return Err(Refusal::RosterWrong);
        }
        Ok(())
    }
}

// Every entry's account is above the one ahead of it. `least` is the least account that is, wider than an account, so
// that it can pass the highest byte. By hand, since the proof of std's `is_sorted_by` did not close.
fn rising(entries: &[[u8; 5]]) -> bool
    ensures { result ≡ rises 0 (map entry_in entries.now) }
{
    let mut least = 0;
    for entry in entries {
        let account = u32::from(Entry::from(entry).account);
        if account < least {
            return false;
        }
        least = account + 1;
    }
    true
}

// The pixels that the entries say they have, together: at most 255 numbers of 32 bits.
fn pixels_in(entries: &[[u8; 5]]) -> usize
    requires { length entries.now ≤ 255 }
    ensures { result ≡ sum_by (λ e. (entry_in e).pixels) entries.now }
{
    entries
        .iter()
        .map(|entry| Entry::from(entry).pixels as usize)
        .sum()
}
