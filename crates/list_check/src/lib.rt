// List checking word by word, which keeps where the last tile ends and the words of the last three. A list's first
// words are checked so; list_flat, which is faster and does not say what is wrong, then tells how far the words are
// clear, and those behind are checked word by word again.
#![tactic(auto)]

ghost use Rattle.std.specs.Prelude.{◌≡◌, List, [], ℕ, ◌≤◌, length, take, IfOk, MatchResult};
ghost use Rattle.basics.specs.Test.{Test};
ghost use Rattle.refusal.specs.Refusal.{accepted};
ghost use Rattle.refusal.specs.Refused.{number, said};
ghost use Rattle.tile.specs.declared.Tile.{Tile};
ghost use Rattle.tile.specs.Tile.{tile_of, highest_order};
ghost use Rattle.quadtree.specs.Valid.{Sound};
ghost use Rattle.list_check.specs.ListCheck.{last_of_four, ended, sound_check, words_check, list_check};
ghost use Rattle.list_check.specs.Pass.{Knows, Judges, Going, seen_at, FrontPasses, head, Begun};

mod checked;

pub use checked::Quadtree;
use refusal::{Checked, Refusal};

// How many words are in a list's head, which is checked in place. The compiler unrolls a loop of so many, and of no
// more.
pub const HEAD: usize = 8;

// A list of fewer tiles is checked word by word to its end: the flat pass would gain little.
const FEW: usize = 16;

// What the pass keeps of the tiles ahead: where the last one ends, and the words of the last three, which are 0 where
// there is none.
#[derive(Clone, Copy, Debug, PartialEq, Eq)]
pub struct Ahead {
    pub stop: u32,
    pub first: u32,
    pub second: u32,
    pub third: u32,
}

impl Ahead {
    // Nothing is ahead of the first word.
    pub fn start() -> Ahead
        ensures { Knows result [] }
    {
        Ahead {
            stop: 0,
            first: 0,
            second: 0,
            third: 0,
        }
    }

    // What is ahead of the word at i: the three words in front of it.
    fn of(words: &[u32], i: usize) -> Ahead
        requires { (3 ≤ i) × (i ≤ length words.now) }
        ensures { (n : ℕ) → FrontPasses n words.now i → Knows result (seen_at words.now i) }
    {
        let third = words[i - 1];
        Ahead {
            stop: tile::stop(third),
            first: words[i - 3],
            second: words[i - 2],
            third,
        }
    }

    // The word behind the tiles that `self` tells of: one step of the pass, also for a reader that has no list yet. It
    // answers what is ahead of the next word.
    pub fn step(self, order: u32, word: u32) -> Result<Ahead, Refusal>
        requires { order ≤ highest_order }
        ensures { (seen : List Tile) → Knows self seen → Judges order seen word result }
    {
        sound(order, self.stop, word)?;
        if self.last_of_four(word) {
            return Err(Refusal::SiblingsUnmerged);
        }
        Ok(Ahead {
            stop: tile::stop(word),
            first: self.second,
            second: self.third,
            third: word,
        })
    }

    // Whether a sound word is the last of four siblings, of which the three words ahead are the others: they differ in
    // nothing but the corner, and there by less than their block.
    fn last_of_four(self, word: u32) -> bool
        ensures { (n : ℕ) (seen : List Tile) → Knows self seen → Sound n (ended seen) (tile_of word) →
            result ≡ last_of_four seen (tile_of word) }
    {
        let apart = (self.first ^ self.second) | (self.first ^ self.third) | (self.first ^ word);
        if tile::account(apart) != 0 {
            return false;
        }
        if tile::size(apart) != 0 {
            return false;
        }
        tile::corner(apart) / 4 < tile::area(tile::size(word))
    }
}

// Whether the word breaks none of checks 11 to 15, where the tile ahead of it ends at `stop`. A tile that ends on the
// bed is no larger than it and starts there, and a word with a high bit set has no such tile.
fn plain(order: u32, stop: u32, word: u32) -> bool
    requires { order ≤ highest_order }
    ensures { Test (sound_check order stop word ≡ accepted) result }
{
    let corner = tile::corner(word);
    let area = tile::area(tile::size(word));
    if tile::area(order) < corner + area {
        return false;
    }
    let over = corner % area;
    if over != 0 {
        return false;
    }
    let account = tile::account(word);
    if account == 0 {
        return false;
    }
    stop <= corner
}

// The first of checks 11 to 15 that the word breaks, where it breaks one of them, wherever the tile ahead of it ends.
// Sizes are compared by area, which `plain` has computed too, so that the compiler computes it once.
fn broken(order: u32, word: u32) -> Refusal
    requires { order ≤ highest_order }
    ensures { (lo : ℕ) → (sound_check order lo word ≡ accepted → ⊥) → number result ≡ sound_check order lo word }
{
    if tile::WORD_LIMIT <= word {
        return Refusal::HighBitsSet;
    }
    let area = tile::area(tile::size(word));
    let limit = tile::area(order);
    if limit < area {
        return Refusal::SizeAboveOrder;
    }
    let corner = tile::corner(word);
    if limit <= corner {
        return Refusal::CornerInvalid;
    }
    if corner % area != 0 {
        return Refusal::CornerInvalid;
    }
    if tile::account(word) == 0 {
        return Refusal::AccountZero;
    }
    Refusal::TilesOverlap
}

// The first of checks 11 to 15 that the word breaks, where the tile ahead of it ends at `stop`.
fn sound(order: u32, stop: u32, word: u32) -> Checked
    requires { order ≤ highest_order }
    ensures { said result ≡ sound_check order stop word }
{
    if plain(order, stop, word) {
        return Ok(());
    }
    Err(broken(order, word))
}

// Of the words the first, `most` of them at most, in turn, behind the tiles that `begin` tells of. They are counted
// here: over a shorter slice, or over an index, the check of a single tile took longer (docs/DECISIONS.md, A19).
fn exact(order: u32, begin: Ahead, words: &[u32], most: usize) -> Checked
    requires { order ≤ highest_order }
    ensures { (x : ℕ) → Going order (take most words.now) x 0 begin → said result ≡ x }
{
    let mut ahead = begin;
    for word in words.iter().take(most) {
        ahead = ahead.step(order, *word)?;
    }
    Ok(())
}

// How many words of a list pass, as far as the flat pass tells, where the head does.
fn flat_upto(order: u32, words: &[u32]) -> usize
    requires { (order ≤ highest_order) × (head ≤ length words.now) × FrontPasses order words.now head }
    ensures { (head ≤ result) × (result ≤ length words.now) × FrontPasses order words.now result }
{
    let tiles = words.len();
    if tiles < FEW {
        return HEAD;
    }
    let clear = list_flat::flat(
        order,
        HEAD - list_flat::BEHIND,
        tiles - list_flat::BEHIND,
        words,
    );
    clear.max(HEAD)
}

// Checks 1 and 2: the words of a list, where its order is a bed's and its count is not above the slots.
fn words_of(order: u32, tiles: usize, slots: &[u32]) -> Result<&[u32], Refusal>
    ensures { MatchResult result
        (λ words. (order ≤ highest_order) × (tiles ≤ length slots.now) × (words.now ≡ take tiles slots.now))
        (λ refusal. number refusal ≡ list_check order tiles slots.now) }
{
    if tile::HIGHEST_ORDER < order {
        return Err(Refusal::OrderTooLarge);
    }
    if slots.len() < tiles {
        return Err(Refusal::CountAboveSlots);
    }
    Ok(&slots[..tiles])
}

// Checks 1 and 2, and those of the head: part of its callers, so that short lists, and long ones that are refused near
// the front, are spared a call.
#[inline(always)]
pub fn check_head(order: u32, tiles: usize, slots: &[u32]) -> Checked
    ensures { Begun order tiles slots.now (said result) }
{
    let words = words_of(order, tiles, slots)?;
    exact(order, Ahead::start(), words, HEAD)
}

// The checks of the head of a list, unless `known` says that all its words pass.
fn check_unknown(order: u32, known: usize, words: &[u32]) -> Checked
    requires { (order ≤ highest_order) × (known ≤ length words.now) × FrontPasses order words.now known }
    ensures { Begun order (length words.now) words.now (said result) }
{
    if HEAD <= known {
        return Ok(());
    }
    check_head(order, words.len(), words)
}

// The words of a list, of which the first `known` are known to pass. Callers make the slice for it, which is faster
// than to hand one on, and the hint keeps it out of the way of short lists: docs/DECISIONS.md, A19.
#[inline(never)]
pub fn check_words(order: u32, known: usize, words: &[u32]) -> Checked
    requires { (order ≤ highest_order) × (known ≤ length words.now) × FrontPasses order words.now known }
    ensures { said result ≡ words_check order [] words.now }
{
    check_unknown(order, known, words)?;
    if words.len() <= HEAD {
        return Ok(());
    }
    let i = flat_upto(order, words);
    let rest = &words[i..];
    exact(order, Ahead::of(words, i), rest, rest.len())
}

// The offered call: checks a list of an order, its tile count and its slots, and answers the first refusal, or the
// list.
pub fn check(order: u32, tiles: usize, slots: &[u32]) -> Result<Quadtree<'_>, Refusal>
    ensures number { said result ≡ list_check order tiles slots.now }
    ensures tree { IfOk result (λ q. (q.order ≡ order) × (q.words.now ≡ take tiles slots.now)) }
{
    let words = words_of(order, tiles, slots)?;
    check_words(order, 0, words)?;
    Ok(Quadtree { order, words })
}

// The same, with the first words checked in place, where a call would cost more: docs/DECISIONS.md, A19.
#[inline(always)]
pub fn check_in_place(order: u32, tiles: usize, slots: &[u32]) -> Result<Quadtree<'_>, Refusal>
    ensures number { said result ≡ list_check order tiles slots.now }
    ensures tree { IfOk result (λ q. (q.order ≡ order) × (q.words.now ≡ take tiles slots.now)) }
{
    check_head(order, tiles, slots)?;
    let words = &slots[..tiles];
    if tiles <= HEAD {
        return Ok(Quadtree { order, words });
    }
    check_words(order, HEAD, words)?;
    Ok(Quadtree { order, words })
}
