// Two maps of one order walked together. Both lists are passed once in Morton order, each with a cursor, which gives
// the runs of the third map, one after the other. The rule over the pixels is asked, and never looked into.
#![tactic(auto)]

ghost use Rattle.std.specs.Prelude.{ℕ, ◌<◌, length};
ghost use Rattle.combine_rule.specs.Rule.{third_raster};
ghost use Rattle.combine_walk.specs.Walk.{Stands, PieceOf, BothOf, StepBy, RunBy};

use combine_rule::Rule;

// Two maps of one order: how many pixels each has, and the words of their lists.
#[derive(Clone, Copy, Debug, PartialEq, Eq)]
pub struct Pair<'a> {
    pub end: u32,
    pub first: &'a [u32],
    pub second: &'a [u32],
}

// A pixel, and the cursor of each list there: no tile ahead of the cursor ends behind the pixel.
#[derive(Clone, Copy, Debug, PartialEq, Eq)]
pub struct Place {
    pub z: u32,
    pub first: usize,
    pub second: usize,
}

// A stretch of one map: its account, where it ends, and the first tile that does not end ahead of it.
#[derive(Clone, Copy, Debug, PartialEq, Eq)]
pub struct Piece {
    pub account: u8,
    pub stop: u32,
    pub at: usize,
}

// A stretch of the third map: where it begins, its account, and the place where it ends.
#[derive(Clone, Copy, Debug, PartialEq, Eq)]
pub struct Step {
    pub from: u32,
    pub account: u8,
    pub end: Place,
}

// The end of a run of the third map, and the step that begins the next run there: none at the bed's end.
#[derive(Clone, Copy, Debug, PartialEq, Eq)]
pub struct RunEnd {
    pub stop: u32,
    pub next: Option<Step>,
}

// The stretch of one map from z on.
fn next_piece(end: u32, words: &[u32], i: usize, z: u32) -> Piece
    requires { (z < end) × Stands end (length words.now) words.now z i }
    ensures { PieceOf end (length words.now) words.now z result }
{
    for at in i..words.len() {
        let w = words[at];
        let stop = tile::stop(w);
        if z < stop {
            let corner = tile::corner(w);
            if z < corner {
                return Piece {
                    account: 0,
                    stop: corner,
                    at,
                };
            }
            let account = tile::account(w);
            return Piece { account, stop, at };
        }
    }
    Piece {
        account: 0,
        stop: end,
        at: words.len(),
    }
}

impl<'a> Pair<'a> {
    // The stretch of the third map from a place on, up to where either map's stretch ends.
    pub fn step<R: Rule>(self, rule: R, place: Place) -> Step
        requires { (place.z < self.end) × BothOf self.end self.first.now self.second.now place }
        ensures { StepBy (R.made rule) self.entry.end self.entry.first.now self.entry.second.now place.z result }
    {
        let first = next_piece(self.end, self.first, place.first, place.z);
        let second = next_piece(self.end, self.second, place.second, place.z);
        Step {
            from: place.z,
            account: rule.keep(first.account, second.account),
            end: Place {
                z: first.stop.min(second.stop),
                first: first.at,
                second: second.at,
            },
        }
    }

    // The run of the third map of which `step` is the beginning: steps of one account taken together.
    pub fn run<R: Rule + Copy>(self, rule: R, step: Step) -> RunEnd
        requires { StepBy (R.made rule) self.end self.first.now self.second.now step.from step }
        ensures { RunBy (R.made rule) self.entry.end self.entry.first.now self.entry.second.now step result }
    {
        let mut place = step.end;
        // A `while`: a step is as long as both maps let it be.
        while place.z < self.end {
            let more = self.step(rule, place);
            if more.account != step.account {
                return RunEnd {
                    stop: place.z,
                    next: Some(more),
                };
            }
            place = more.end;
        }
        RunEnd {
            stop: place.z,
            next: None,
        }
    }
}
