// Claims: every pixel of a quadrant block gets an account. How a claim ends is known from its checks and its plan,
// which only read: a preview answers that and stops. A claim then changes the list in place, by one move of its tail
// and a few words.
#![tactic(auto)]

ghost use Rattle.std.specs.Prelude.{◌≡◌, take, IfOk};
ghost use Rattle.refusal.specs.Refused.{said};
ghost use Rattle.refusal.specs.Checks.{Gives};
ghost use Rattle.claim.specs.Answers.{claim_answer};
ghost use Rattle.claim.specs.Claim.{claim_of};
ghost use Rattle.claim.specs.Preview.{preview_of};
ghost use Rattle.claim.specs.Outcome.{plan_check, Ends};

use bed::Scan;
use claim_plan::Planned;
use list_check::Quadtree;
use refusal::Refusal;
use tile::{Block, Tile};

// The answer of a claim, and of its preview, in C: the tile count of the list that the claim leaves.
#[repr(C)]
#[derive(Clone, Copy, Debug, PartialEq, Eq)]
pub struct ClaimAnswer {
    pub number: u32,
    pub tiles: usize,
}

impl From<Result<usize, Refusal>> for ClaimAnswer {
    ghost from_gives = { λ r e. e ≡ claim_answer r };

    fn from(answer: Result<usize, Refusal>) -> ClaimAnswer {
        match answer {
            Ok(tiles) => ClaimAnswer { number: 0, tiles },
            Err(refusal) => ClaimAnswer {
                number: u32::from(refusal),
                tiles: 0,
            },
        }
    }
}

// The checks ahead of the plan, in their order: the opening checks, which answer the list, 32, 52, 24.
fn plan_check(scan: Scan, slots: &[u32], tile: Tile) -> Result<Quadtree<'_>, Refusal>
    ensures number { said result ≡ plan_check scan slots.now tile.corner tile.size tile.account }
    ensures tree { IfOk result (λ q. (q.order ≡ scan.order) × (q.words.now ≡ take scan.tiles slots.now)) }
{
    let Tile {
        corner,
        size,
        account,
    } = tile;
    let block = Block { corner, size };
    let tree = scan_check::open_check(scan, slots)?;
    checks::block(scan.order, block)?;
    scan_check::block_scanned(scan, block)?;
    checks::given(account)?;
    Ok(tree)
}

// How the claim of a tile's block for its account ends: `plan_check`, then the plan, and 25 by its count. Nothing is
// stored, and nothing else counts the tiles.
fn foresee(scan: Scan, slots: &[u32], tile: Tile) -> Result<Planned, Refusal>
    ensures { Ends scan slots.now tile.corner tile.size tile.account result }
{
    let tree = plan_check(scan, slots, tile)?;
    let planned = claim_plan::plan(tree, tile);
    let after = planned.tiles;
    if slots.len() < after {
        return Err(Refusal::SlotsExceeded);
    }
    Ok(planned)
}

// The offered call: what the claim of a tile's block for its account would answer, done on a copy of the list with as
// many slots. The slots are only read.
pub fn preview(scan: Scan, slots: &[u32], tile: Tile) -> Result<usize, Refusal>
    ensures { claim_answer result ≡ preview_of scan slots.now tile.corner tile.size tile.account }
{
    let planned = foresee(scan, slots, tile)?;
    Ok(planned.tiles)
}

// The offered call: claims a tile's block for its account, or releases it for account 0. The list becomes the linear
// quadtree of the result, and the slots behind it hold 0. A refused claim changes nothing.
pub fn claim(scan: Scan, slots: &mut [u32], tile: Tile) -> Result<usize, Refusal>
    ensures { Gives (claim_answer result) slots.new (claim_of scan slots.old tile.corner tile.size tile.account) }
{
    let planned = foresee(scan, slots, tile)?;
    let change = planned.change;
    let after = planned.tiles;
    claim_store::make_room(slots, change.lo, change.hi, scan.tiles, planned.pieces);
    claim_store::write_pieces(slots, change, planned.pieces, tile.account);
    list_words::clear_from(slots, after);
    Ok(after)
}
