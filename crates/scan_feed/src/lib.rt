// Pixels fed to a list with a gap: many at once where none of them can be refused, else one account after the other.
#![tactic(auto)]

ghost use Rattle.std.specs.Prelude.{◌≡◌, ◌+◌, ◌^◌, ◌<◌, ◌≤◌, length, IfOk};
ghost use Rattle.morton.specs.Morton.{morton, side_bits};
ghost use Rattle.tile.specs.Tile.{highest_order, highest_account};
ghost use Rattle.bed.specs.declared.Kind.TheVariants.{Rows, Morton};
ghost use Rattle.bed.specs.Places.{pixel_at};
ghost use Rattle.bed.specs.Bed.{feed_pixels};
ghost use Rattle.bed.specs.Shown.{shown_bed};
ghost use Rattle.quadtree.specs.Tiling.{Levels};
ghost use Rattle.scan_gap.specs.Gap.{outcome, Fits, Placed};
ghost use Rattle.scan_check.specs.Opened.{Opened};
ghost use Rattle.scan_feed.specs.Feeding.{left, reached, AtPlace, Trails, Stepped, FedOn, FedTo};

use bed::{Kind, Scan};
use refusal::Refusal;
use scan_block::Feed;
use scan_gap::{Full, Gap};

// A pixel's Morton number, and its levels: the size of the largest block that ends with it, which is as often as it can
// merge.
#[derive(Clone, Copy, Debug, PartialEq, Eq)]
pub struct Place {
    pub z: u32,
    pub levels: u32,
}

// An account is refused: why, and where the list has its gap.
#[derive(Clone, Copy, Debug, PartialEq, Eq)]
pub struct Stopped {
    pub refusal: Refusal,
    pub gap: Gap,
}

impl Stopped {
    fn at(gap: Gap, refusal: Refusal) -> Stopped
        ensures { result ≡ record { refusal = refusal; gap = gap } }
    {
        Stopped { refusal, gap }
    }
}

// How far a feed has come: the count taken, the pixels scanned, and where the list has its gap.
#[derive(Clone, Copy, Debug, PartialEq, Eq)]
pub struct Progress {
    pub taken: usize,
    pub pixels: u32,
    pub gap: Gap,
}

// A feed that ends with an account that is refused: why, and how far it has come.
#[derive(Clone, Copy, Debug, PartialEq, Eq)]
pub struct Halted {
    pub refusal: Refusal,
    pub at: Progress,
}

// The levels of the pixel at a column and a row: the smaller of i and j, where 2^i and 2^j are the largest powers of
// two that divide column + 1 and row + 1.
fn row_levels(column: u32, row: u32) -> u32
    requires { (column < 2 ^ highest_order) × (row < 2 ^ highest_order) }
    ensures { Levels (morton side_bits column row + 1) result }
{
    let across = u32::trailing_zeros(column + 1);
    let down = u32::trailing_zeros(row + 1);
    across.min(down)
}

// The pixel with `pixels` places before its own, and its levels.
fn next_place(kind: Kind, order: u32, pixels: u32) -> Place
    requires { (order ≤ highest_order) × (pixels < 4 ^ order) }
    ensures { AtPlace kind order pixels result }
{
    match kind {
        Kind::Rows => {
            let row = pixels >> order;
            let column = pixels - (row << order);
            Place {
                z: morton::number(column, row),
                levels: row_levels(column, row),
            }
        }
        Kind::Morton => Place {
            z: pixels,
            levels: scan_block::levels_of(pixels + 1),
        },
    }
}

// Puts somebody's account on the next place of a scan. By rows the place lies among the tiles; in Morton order it lies
// behind them all.
fn put_next(
    slots: &mut [u32],
    gap: Gap,
    kind: Kind,
    order: u32,
    pixels: u32,
    account: u8,
) -> Result<Gap, Full>
    requires fits { Fits slots.old gap.front gap.back × Trails kind slots.old gap.front gap.back pixels }
    requires order_le_highest_order { (order ≤ highest_order) × (pixels < 4 ^ order) }
    requires account_nonzero { (0 < account) × (account ≤ highest_account) }
    ensures placed { Placed slots.old slots.new gap.front gap.back (pixel_at kind order pixels) account
        (outcome result) }
    ensures trails { Trails kind slots.new (outcome result).front (outcome result).back (pixels + 1) }
{
    let place = next_place(kind, order, pixels);
    match kind {
        Kind::Rows => gap.put(slots, place.z, place.levels, account),
        Kind::Morton => gap.append(slots, place.z, place.levels, account),
    }
}

// Puts an account on the next place: 23, 24, 25. Nobody's changes nothing, so that its place is not computed.
fn feed_pixel(
    slots: &mut [u32],
    gap: Gap,
    kind: Kind,
    order: u32,
    pixels: u32,
    account: u8,
) -> Result<Gap, Stopped>
    requires fits { Fits slots.old gap.front gap.back × Trails kind slots.old gap.front gap.back pixels }
    requires order_le_highest_order { (order ≤ highest_order) × (pixels ≤ 4 ^ order) }
    ensures { Stepped kind order pixels account slots.old slots.new gap.front gap.back (left result) }
{
    if pixels == tile::area(order) {
        return Err(Stopped::at(gap, Refusal::ScanFull));
    }
    if Scan::HIGHEST_ACCOUNT < account {
        return Err(Stopped::at(gap, Refusal::AccountTooLarge));
    }
    if account == 0 {
        return Ok(gap);
    }
    match put_next(slots, gap, kind, order, pixels, account) {
        Ok(gap) => Ok(gap),
        Err(full) => Err(Stopped::at(full.gap, Refusal::SlotsExceeded)),
    }
}

// Feeds the accounts up to number `upto` one by one, to the first that is refused.
fn feed_pixels(
    slots: &mut [u32],
    kind: Kind,
    feed: Feed,
    at: Progress,
    upto: usize,
) -> Result<Progress, Halted>
    requires fits { Fits slots.old at.gap.front at.gap.back
        × Trails kind slots.old at.gap.front at.gap.back at.pixels }
    requires order_le_highest_order { (feed.order ≤ highest_order) × (at.pixels ≤ 4 ^ feed.order) }
    requires taken_lt_upto { (at.taken < upto) × (upto ≤ length feed.accounts.now) }
    ensures fed_on { FedOn kind feed.entry.order feed.entry.accounts.now at.taken at.pixels slots.old slots.new
        at.gap.front at.gap.back (reached result) }
    ensures taken_lt_taken { IfOk result (λ r. at.taken < r.taken) }
{
    let Progress {
        mut pixels,
        mut gap,
        ..
    } = at;
    for taken in at.taken..upto {
        gap = match feed_pixel(slots, gap, kind, feed.order, pixels, feed.accounts[taken]) {
            Ok(gap) => gap,
            Err(Stopped { refusal, gap }) => {
                let at = Progress { taken, pixels, gap };
                return Err(Halted { refusal, at });
            }
        };
        pixels += 1;
    }
    Ok(Progress {
        taken: upto,
        pixels,
        gap,
    })
}

// The end of the accounts of a row, or of a quad, of so many pixels, or of all accounts.
fn piece_end(width: u32, pixels: u32, taken: usize, count: usize) -> usize
    requires { (0 < width) × (taken < count) }
    ensures { (taken < result) × (result ≤ count) }
{
    let left = (width - pixels % width) as usize;
    taken + left.min(count - taken)
}

// Feeds a scan by rows: the largest band that can come to no refusal, or pixels to the end of the row.
fn feed_rows(slots: &mut [u32], feed: Feed, at: Progress) -> Result<Progress, Halted>
    requires fits { Fits slots.old at.gap.front at.gap.back }
    requires order_le_highest_order { (feed.order ≤ highest_order) × (at.pixels ≤ 4 ^ feed.order) }
    requires taken_in_bounds { (at.taken < length feed.accounts.now) × (at.pixels ≡ feed.start + at.taken) }
    ensures fed_on { FedOn Rows feed.entry.order feed.entry.accounts.now at.taken at.pixels slots.old slots.new
        at.gap.front at.gap.back (reached result) }
    ensures taken_lt_taken { IfOk result (λ r. at.taken < r.taken) }
{
    let Progress { taken, pixels, gap } = at;
    let size = scan_suit::band_size(feed, pixels, gap.back - gap.front);
    if 0 < size {
        let moved = scan_band::put_band(slots, gap, feed, pixels >> feed.order, size);
        let count = scan_band::band_pixels(feed.order, size);
        return Ok(Progress {
            taken: taken + count as usize,
            pixels: pixels + count,
            gap: moved,
        });
    }
    let upto = piece_end(tile::side(feed.order), pixels, taken, feed.accounts.len());
    feed_pixels(slots, Kind::Rows, feed, at, upto)
}

// Feeds a scan in Morton order: a stretch of quads that can come to no refusal, or pixels to the end of the quad.
fn feed_morton(slots: &mut [u32], feed: Feed, at: Progress) -> Result<Progress, Halted>
    requires fits { Fits slots.old at.gap.front at.gap.back
        × Trails Morton slots.old at.gap.front at.gap.back at.pixels }
    requires order_le_highest_order { (feed.order ≤ highest_order) × (at.pixels ≤ 4 ^ feed.order) }
    requires taken_in_bounds { at.taken < length feed.accounts.now }
    ensures fed_on { FedOn Morton feed.entry.order feed.entry.accounts.now at.taken at.pixels slots.old slots.new
        at.gap.front at.gap.back (reached result) }
    ensures taken_lt_taken { IfOk result (λ r. at.taken < r.taken) }
{
    let Progress { taken, pixels, gap } = at;
    let count = scan_suit::stretch_size(
        feed.accounts,
        taken,
        feed.order,
        pixels,
        gap.back - gap.front,
    );
    if 0 < count {
        let moved = scan_block::put_stretch(slots, gap, feed.accounts, taken, count, pixels);
        return Ok(Progress {
            taken: taken + count,
            pixels: pixels + count as u32,
            gap: moved,
        });
    }
    let upto = piece_end(4, pixels, taken, feed.accounts.len());
    feed_pixels(slots, Kind::Morton, feed, at, upto)
}

// Feeds some of the accounts from number `taken` on.
fn feed_some(slots: &mut [u32], kind: Kind, feed: Feed, at: Progress) -> Result<Progress, Halted>
    requires fits { Fits slots.old at.gap.front at.gap.back
        × Trails kind slots.old at.gap.front at.gap.back at.pixels }
    requires order_le_highest_order { (feed.order ≤ highest_order) × (at.pixels ≤ 4 ^ feed.order) }
    requires taken_in_bounds { (at.taken < length feed.accounts.now) × (at.pixels ≡ feed.start + at.taken) }
    ensures fed_on { FedOn kind feed.entry.order feed.entry.accounts.now at.taken at.pixels slots.old slots.new
        at.gap.front at.gap.back (reached result) }
    ensures taken_lt_taken { IfOk result (λ r. at.taken < r.taken) }
{
    match kind {
        Kind::Rows => feed_rows(slots, feed, at),
        Kind::Morton => feed_morton(slots, feed, at),
    }
}

// Feeds the accounts in turn to a list that passed the opening checks, up to the first that is refused.
pub fn feed_all(scan: Scan, slots: &mut [u32], accounts: &[u8]) -> Result<Progress, Halted>
    requires { Opened scan slots.old }
    ensures { FedTo scan (feed_pixels (length slots.old) 0 (shown_bed scan slots.old)
        accounts.now) slots.new (reached result) }
{
    let kind = scan.kind;
    let feed = Feed {
        order: scan.order,
        start: scan.pixels,
        accounts,
    };
    let gap = Gap {
        front: scan.tiles,
        back: slots.len(),
    };
    let mut at = Progress {
        taken: 0,
        pixels: scan.pixels,
        gap,
    };
    // A `while`: each turn takes as many accounts as suit.
    while at.taken < accounts.len() {
        at = feed_some(slots, kind, feed, at)?;
    }
    Ok(at)
}
