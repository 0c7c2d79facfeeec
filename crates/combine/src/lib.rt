// A third list from two maps of one order, by a rule over their pixels. The third map is walked run by run, once to
// count its tiles and once to write them.
#![tactic(auto)]

ghost use Rattle.std.specs.Prelude.{◌≡◌, map, ◌^◌, ◌≤◌, length};
ghost use Rattle.std.proofs.lemmas.List.Edits.{sets};
ghost use Rattle.refusal.specs.Checks.{Gives};
ghost use Rattle.tile.specs.Tile.{word_of};
ghost use Rattle.combine.specs.Answers.{combine_answer};
ghost use Rattle.combine.specs.Combine.{third_of, combine_by, combine_of};

use combine_rule::{Choice, Rule};
use combine_walk::{Pair, Place};
use list_check::Quadtree;
use refusal::Refusal;

// The answer as C gets it: the tile count of the third list; refused, the refusal's number and 0.
#[repr(C)]
#[derive(Clone, Copy, Debug, PartialEq, Eq)]
pub struct CombineAnswer {
    pub number: u32,
    pub tiles: usize,
}

impl From<Result<usize, Refusal>> for CombineAnswer {
    ghost from_gives = { λ r a. a ≡ combine_answer r };

    fn from(answer: Result<usize, Refusal>) -> CombineAnswer {
        match answer {
            Ok(tiles) => CombineAnswer { number: 0, tiles },
            Err(refusal) => CombineAnswer {
                number: u32::from(refusal),
                tiles: 0,
            },
        }
    }
}

// Two checked maps of one order.
#[derive(Clone, Copy)]
struct Maps<'a> {
    first: Quadtree<'a>,
    second: Quadtree<'a>,
    ghost orders: { first.order ≡ second.order },
}

impl<'a> Maps<'a> {
    // Both for the walk.
    fn pair(self) -> Pair<'a>
        ensures { (result.end ≡ 4 ^ self.entry.first.order)
            × (result.first.now ≡ self.entry.first.words.now)
            × (result.second.now ≡ self.entry.second.words.now) }
    {
        Pair {
            end: tile::area(self.first.order),
            first: self.first.words,
            second: self.second.words,
        }
    }

    // How many tiles the third map has.
    fn count<R: Rule + Copy>(self, rule: R) -> usize
        ensures { result ≡ length (third_of (R.made rule) self.entry.first.order
            self.entry.first.words.now self.entry.second.words.now) }
    {
        let pair = self.pair();
        let mut next = Some(pair.step(rule, START));
        let mut count = 0;
        // Here and in `write` an iterator of runs would take a type with a contract of its own, for two loops.
        while let Some(step) = next {
            let run = pair.run(rule, step);
            count += list_cut::count_cut(step.from..run.stop, step.account);
            next = run.next;
        }
        count
    }

    // Writes the words of the third map's tiles from the first slot on.
    fn write<R: Rule + Copy>(self, rule: R, out: &mut [u32])
        requires { length (third_of (R.made rule) self.first.order self.first.words.now self.second.words.now)
            ≤ length out.old }
        ensures { out.new ≡ sets out.old 0 (map word_of (third_of (R.made rule) self.entry.first.order
            self.entry.first.words.now self.entry.second.words.now)) }
    {
        let pair = self.pair();
        let mut next = Some(pair.step(rule, START));
        let mut at = 0;
        while let Some(step) = next {
            let run = pair.run(rule, step);
            at = list_cut::put_cut(out, at, step.from..run.stop, step.account);
            next = run.next;
        }
    }
}

// The first pixel, ahead of all tiles.
const START: Place = Place {
    z: 0,
    first: 0,
    second: 0,
};

// The offered call by any rule: leaves the list of the third map in the slots `out`, the rest of them 0, and answers
// its tile count; refused, answers the first refusal and changes no slot. The checks are those of the first map's list,
// of the second's, 51, 25. Each list comes as C hands it, unchecked, with its count beside it.
pub fn combine_by<R: Rule + Copy>(
    rule: R,
    order1: u32,
    tiles1: usize,
    slots1: &[u32],
    order2: u32,
    tiles2: usize,
    slots2: &[u32],
    out: &mut [u32],
) -> Result<usize, Refusal>
    ensures { Gives (combine_answer result) out.new (combine_by (R.made rule) order1 tiles1 slots1.now
        order2 tiles2 slots2.now out.old) }
{
    let first = list_check::check(order1, tiles1, slots1)?;
    let second = list_check::check(order2, tiles2, slots2)?;
    if order1 != order2 {
        return Err(Refusal::OrdersDiffer);
    }
    let maps = Maps { first, second };
    let tiles = maps.count(rule);
    if out.len() < tiles {
        return Err(Refusal::SlotsExceeded);
    }
    maps.write(rule, out);
    list_words::clear_from(out, tiles);
    Ok(tiles)
}

// The offered call.
pub fn combine(
    choice: Choice,
    order1: u32,
    tiles1: usize,
    slots1: &[u32],
    order2: u32,
    tiles2: usize,
    slots2: &[u32],
    out: &mut [u32],
) -> Result<usize, Refusal>
    ensures { Gives (combine_answer result) out.new (combine_of choice order1 tiles1 slots1.now
        order2 tiles2 slots2.now out.old) }
{
    combine_by(choice, order1, tiles1, slots1, order2, tiles2, slots2, out)
}
