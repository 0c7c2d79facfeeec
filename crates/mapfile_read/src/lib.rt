// The reader of a map file. A file is any bytes: everything is examined first, read only, and stored then.
#![tactic(auto)]

ghost use Rattle.std.specs.Prelude.{◌≡◌, [], ◌++◌, map, ◌≤◌, IfOk, length, drop};
ghost use Rattle.refusal.specs.Checks.{Gives};
ghost use Rattle.refusal.specs.Refused.{said};
ghost use Rattle.tile.specs.Tile.{highest_order};
ghost use Rattle.mapfile_bytes.specs.Layout.{words_place};
ghost use Rattle.mapfile_bytes.specs.Items.{word_at, words_at};
ghost use Rattle.mapfile_read.specs.Answers.{read_answer};
ghost use Rattle.mapfile_read.specs.Reader.{tiles_check, file_order, file_words, file_check, read_of};

use list_check::Ahead;
use mapfile_bytes::{COUNT_PLACE, WORD_LENGTH, WORDS_PLACE, Word};
use mapfile_entries::Tiles;
use refusal::Refusal;

// The order and the tile count of the list read.
#[derive(Clone, Copy, Debug, PartialEq, Eq)]
pub struct Reading {
    pub order: u32,
    pub tiles: usize,
}

// What C gets of the reader's answer: the refusal's number, or 0 and the reading.
#[repr(C)]
#[derive(Clone, Copy, Debug, PartialEq, Eq)]
pub struct ReadAnswer {
    pub number: u32,
    pub order: u32,
    pub tiles: usize,
}

impl From<Result<Reading, Refusal>> for ReadAnswer {
    ghost from_gives = { λ r e. e ≡ read_answer r };

    fn from(answer: Result<Reading, Refusal>) -> ReadAnswer {
        match answer {
            Ok(Reading { order, tiles }) => ReadAnswer {
                number: 0,
                order,
                tiles,
            },
            Err(refusal) => ReadAnswer {
                number: u32::from(refusal),
                order: 0,
                tiles: 0,
            },
        }
    }
}

// What a file that is accepted has: its order and its words.
#[derive(Clone, Copy)]
struct Examined<'a> {
    order: u32,
    words: &'a [[u8; 4]],
}

// The words in turn, each where the bytes have it: the tiles of the file.
fn tiles(order: u32, count: usize, file: &[u8]) -> Result<Tiles<'_>, Refusal>
    requires low { order ≤ highest_order }
    requires head { words_place ≤ length file.now }
    ensures number { said result ≡ tiles_check order count [] file.now words_place }
    ensures words { IfOk result (λ t. map (λ w. word_at w 0) t.words.now ≡ words_at count file.now words_place) }
{
    let whole = mapfile_bytes::words(&file[WORDS_PLACE..]);
    let words = &whole[..count.min(whole.len())];
    let mut ahead = Ahead::start();
    let mut area = 0;
    for word in words {
        let word = word.number();
        ahead = ahead.step(order, word)?;
        area += tile::area(tile::size(word));
    }
    if whole.len() < count {
        return Err(Refusal::FileCutShort);
    }
    Ok(Tiles { words, area })
}

// Every check of a file for a number of slots. The tile count is tested before anything is computed of it.
fn examine(slots: usize, file: &[u8]) -> Result<Examined<'_>, Refusal>
    ensures number { said result ≡ file_check slots file.now }
    ensures found { IfOk result (λ e. (e.order ≡ file_order file.now) × (map (λ w. word_at w 0) e.words.now ≡ file_words file.now)) }
{
    if file.is_empty() {
        return Err(Refusal::FileCutShort);
    }
    let order = u32::from(file[0]);
    if tile::HIGHEST_ORDER < order {
        return Err(Refusal::OrderTooLarge);
    }
    if file.len() < WORDS_PLACE {
        return Err(Refusal::FileCutShort);
    }
    let count = mapfile_bytes::word_at(file, COUNT_PLACE) as usize;
    if slots < count {
        return Err(Refusal::SlotsExceeded);
    }
    let tiles = tiles(order, count, file)?;
    let at = WORDS_PLACE + WORD_LENGTH * count;
    tiles.check(&file[at..])?;
    Ok(Examined {
        order,
        words: tiles.words,
    })
}

// The words of a file into the slots.
fn store(words: &[[u8; 4]], slots: &mut [u32])
    requires { length words.now ≤ length slots.old }
    ensures { slots.new ≡ map (λ w. word_at w 0) words.now
        ++ drop (length words.now) slots.old }
{
    for (i, word) in words.iter().enumerate() {
        slots[i] = word.number();
    }
}

// The offered call: reads a file and leaves its list in the slots, the rest of them 0, or answers the first refusal and
// changes no slot.
pub fn read(file: &[u8], slots: &mut [u32]) -> Result<Reading, Refusal>
    ensures { Gives (read_answer result) slots.new (read_of file.now slots.old) }
{
    let Examined { order, words } = examine(slots.len(), file)?;
    store(words, slots);
    list_words::clear_from(slots, words.len());
    Ok(Reading {
        order,
        tiles: words.len(),
    })
}
