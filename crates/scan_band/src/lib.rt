// Bands of a scan by rows: 2 ^ k whole rows from a row on that is a multiple of 2 ^ k. A band is put block by block
// from west to east, each block in Morton order.
#![tactic(auto)]

ghost use Rattle.std.specs.Prelude.{◌≤◌, ◌≡◌};
ghost use Rattle.tile.specs.Tile.{highest_order};
ghost use Rattle.scan_gap.specs.Gap.{Fits};
ghost use Rattle.scan_ways.specs.Bands.{many, BandFits};
ghost use Rattle.scan_band.specs.Banded.{Banded};

use bed::Point;
use scan_block::Feed;
use scan_gap::Gap;

// Puts the accounts of a band, block by block: the column moves by a block's side.
pub fn put_band(slots: &mut [u32], gap: Gap, feed: Feed, row: u32, size: u32) -> Gap
    requires fits { Fits slots.old gap.front gap.back }
    requires band_fits { BandFits feed.order feed.start feed.accounts.now row size }
    ensures { Banded slots.old slots.new gap.front gap.back feed.entry.order feed.entry.start
        feed.entry.accounts.now row size result }
{
    let width = tile::side(feed.order);
    let step = tile::side(size);
    let mut moved = gap;
    let mut column = 0;
    // A `while`: std's `step_by` leaves a measure to show, and is no plainer.
    while column < width {
        moved = scan_block::put_block(slots, moved, feed, Point { column, row }, size);
        column += step;
    }
    moved
}

// How many pixels a band has.
pub fn band_pixels(order: u32, size: u32) -> u32
    requires { (order ≤ highest_order) × (size ≤ order) }
    ensures { result ≡ many order size }
{
    tile::side(size) << order
}
