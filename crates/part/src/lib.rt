// Quadrant part: the tiles of a list inside a quadrant, by binary search.
#![tactic(auto)]

ghost use Rattle.std.specs.Prelude.{◌≡◌};
ghost use Rattle.refusal.specs.Refusal.{accepted};
ghost use Rattle.tile.specs.Slots.{tiles};
ghost use Rattle.checks.specs.Asked.{block_check};
ghost use Rattle.list_search.specs.Count.{is_ahead, counted};
ghost use Rattle.part.specs.Part.{is_inside, part_of, slice_of, words_in};
ghost use Rattle.part.specs.Answers.{part_answer};

use list_check::Quadtree;
use refusal::Refusal;
use tile::Block;

// A part of a list: how many tiles are ahead of it, and how many it has.
#[derive(Clone, Copy, Debug, PartialEq, Eq)]
pub struct Part {
    pub position: usize,
    pub length: usize,
}

// The answer of quadrant part's companion, as C gets it: refused, the refusal's number and zeros.
#[repr(C)]
#[derive(Clone, Copy, Debug, PartialEq, Eq)]
pub struct PartAnswer {
    pub number: u32,
    pub position: usize,
    pub length: usize,
}

impl From<Result<Part, Refusal>> for PartAnswer {
    ghost from_gives = { λ r a. a ≡ part_answer r };

    fn from(answer: Result<Part, Refusal>) -> PartAnswer {
        match answer {
            Ok(Part { position, length }) => PartAnswer {
                number: 0,
                position,
                length,
            },
            Err(refusal) => PartAnswer {
                number: u32::from(refusal),
                position: 0,
                length: 0,
            },
        }
    }
}

// The part of a list inside a quadrant: the tiles that start in it, unless the first of them is larger than it.
fn inside(map: Quadtree<'_>, block: Block) -> Part
    requires { block_check map.order block.corner block.size ≡ accepted }
    ensures { result ≡ record {
      position = counted (is_ahead block.corner) (tiles map.entry.words.now);
      length = counted (is_inside block.corner block.size) (tiles map.entry.words.now);
    } }
{
    let Block { corner, size } = block;
    let words = map.words;
    let position = list_search::ahead(words, words.len(), corner);
    let end = list_search::ahead(words, words.len(), corner + tile::area(size));
    if position < end && tile::size(words[position]) <= size {
        return Part {
            position,
            length: end - position,
        };
    }
    Part {
        position,
        length: 0,
    }
}

// The companion, offered: the part's position, behind all tiles with a smaller corner, and its length.
pub fn quadrant_part(order: u32, tiles: usize, slots: &[u32], block: Block) -> Result<Part, Refusal>
    ensures { part_answer result ≡ part_of order tiles slots.now block.corner block.size }
{
    let map = list_check::check(order, tiles, slots)?;
    checks::block(order, block)?;
    Ok(inside(map, block))
}

// The offered call: the tiles inside a quadrant, as a part of the lent slots. It starts as many words into the caller's
// own memory as the companion's position says, also when empty; refused, that is 0: the empty part at the slots' start.
pub fn quadrant_slice(order: u32, tiles: usize, slots: &[u32], block: Block) -> &[u32]
    ensures ref_ptr_value { result.ref_ptr ≡ words_in slots.entry.ref_ptr
        (part_of order tiles slots.now block.corner block.size).position }
    ensures result_value { result.now ≡ slice_of order tiles slots.now block.corner block.size }
{
    match quadrant_part(order, tiles, slots, block) {
        Ok(Part { position, length }) => &slots[position..position + length],
        Err(_) => &slots[..0],
    }
}
