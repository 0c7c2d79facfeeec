// How many of the next accounts of a feed can be put at once, since none of them can be refused: a band of rows, or in
// Morton order a stretch.
#![tactic(auto)]

ghost use Rattle.std.specs.Prelude.{◌≡◌, ◌+◌, ◌/◌, ◌^◌, ◌<◌, ◌≤◌, length};
ghost use Rattle.tile.specs.Tile.{highest_order};
ghost use Rattle.scan_suit.specs.Suits.{BandTaken, StretchTaken};

use scan_block::Feed;

// The size of the largest band that starts at the place `pixels` and can come to no refusal with so many free slots; 0
// if there is none. Twice as many rows are tried while that many suit, so that a call weighs each account once.
pub fn band_size(feed: Feed, pixels: u32, free: usize) -> u32
    requires { (feed.order ≤ highest_order) × (feed.start ≤ pixels) × (pixels ≤ 4 ^ feed.order)
        × (pixels ≤ feed.start + length feed.accounts.now) }
    ensures { 0 < result → BandTaken feed.entry.order feed.entry.start feed.entry.accounts.now pixels free
        (pixels / 2 ^ feed.entry.order) result }
{
    let Feed {
        order,
        start,
        accounts,
    } = feed;
    let row = pixels >> order;
    if row << order != pixels {
        return 0;
    }
    let at = (pixels - start) as usize;
    let width = tile::side(order) as usize;
    let line = row as usize;
    let mut rows = 0;
    let mut end = at;
    let mut weight = 1;
    for size in 0..order {
        let step = tile::side(size + 1) as usize;
        let upto = at + (step << order);
        if line % step != 0 || width < line + step || accounts.len() < upto {
            return size;
        }
        let more = weight + scan_weigh::rows(accounts, end, width, width / 2, (step - rows) / 2);
        if free < more {
            return size;
        }
        if bed::Scan::HIGHEST_ACCOUNT < scan_weigh::highest(&accounts[end..upto]) {
            return size;
        }
        rows = step;
        end = upto;
        weight = more;
    }
    order
}

// How many accounts of a stretch are looked at before they are put.
const STRETCH: usize = 1024;

// How many of the accounts from number `taken` on can be put at once in Morton order from the pixel `pixels` on, with
// so many free slots: whole quads, or 0.
pub fn stretch_size(accounts: &[u8], taken: usize, order: u32, pixels: u32, free: usize) -> usize
    requires { (order ≤ highest_order) × (pixels ≤ 4 ^ order) × (taken ≤ length accounts.now) }
    ensures { 0 < result → StretchTaken order accounts.now pixels taken free result }
{
    if pixels % 4 != 0 {
        return 0;
    }
    let left = (tile::area(order) - pixels) as usize;
    let given = left.min(accounts.len() - taken);
    let most = free.min(STRETCH).min(given);
    let size = most - most % 4;
    if bed::Scan::HIGHEST_ACCOUNT < scan_weigh::highest(&accounts[taken..taken + size]) {
        return 0;
    }
    size
}
