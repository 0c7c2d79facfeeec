// Blocks of pixels put into a list with a gap, in Morton order and by quads of two by two pixels, where no slot can be
// missing.
#![tactic(auto)]

ghost use Rattle.std.specs.Prelude.{◌≡◌, ◌+◌, ◌-◌, ◌^◌, ◌<◌, ◌≤◌, get_or};
ghost use Rattle.morton.specs.Morton.{morton, side_bits};
ghost use Rattle.tile.specs.Tile.{highest_order, highest_account};
ghost use Rattle.quadtree.specs.Raster.{Aligned, Uniform};
ghost use Rattle.quadtree.specs.Tiling.{Levels};
ghost use Rattle.bed.specs.Places.{place_of};
ghost use Rattle.bed.specs.declared.Kind.TheVariants.{Rows};
ghost use Rattle.scan_gap.specs.Gap.{Fits};
ghost use Rattle.scan_block.specs.Blocks.{Advances, Alone, Quad, Given, Line, BlockFits, Blocked};

use bed::{Kind, Point};
use scan_gap::Gap;
use tile::Tile;

// The size of the largest block that ends at `end`: half its trailing zeros.
pub fn levels_of(end: u32) -> u32
    requires { (0 < end) × (end ≤ 4 ^ highest_order) }
    ensures { Levels end result }
{
    u32::trailing_zeros(end) / 2
}

// Puts an account on a pixel as a tile by itself, where the gap lies: the tile has no siblings ahead of it that it
// would merge with. Nothing is put for nobody's, or where no slot is free.
fn put_alone(slots: &mut [u32], gap: Gap, z: u32, account: u8) -> Gap
    requires fits { Fits slots.old gap.front gap.back }
    requires z_bound { (z < 4 ^ highest_order) × (account ≤ highest_account) }
    ensures put { Alone slots.old slots.new gap.front gap.back z account result.front }
    ensures back { result.back ≡ gap.back }
{
    let Gap { front, back } = gap;
    if account == 0 || front == back {
        return gap;
    }
    let pixel = Tile {
        corner: z,
        size: 0,
        account,
    };
    slots[front] = pixel.word();
    Gap {
        front: front + 1,
        back,
    }
}

// Puts one somebody's account on the four pixels from z on, where the gap lies: a tile that may merge. Where no slot is
// free nothing is put.
fn put_same(slots: &mut [u32], gap: Gap, z: u32, account: u8) -> Gap
    requires fits { Fits slots.old gap.front gap.back }
    requires z_bound { (z + 4 ≤ 4 ^ highest_order) × Aligned 1 z }
    requires account_nonzero { (0 < account) × (account ≤ highest_account) }
    ensures put { Advances slots.old slots.new gap.front gap.back z (z + 4)
        (λ g. Uniform g account z (z + 4)) result.front }
    ensures back { result.back ≡ gap.back }
{
    let quad = Tile {
        corner: z,
        size: 1,
        account,
    };
    match gap.push(slots, quad, levels_of(z + 4)) {
        Ok(gap) => gap,
        Err(full) => full.gap,
    }
}

// Puts four accounts on the four pixels from z on, where the gap lies: one tile where they are the same, else each by
// itself.
pub fn put_quad(slots: &mut [u32], gap: Gap, z: u32, quad: [u8; 4]) -> Gap
    requires fits { Fits slots.old gap.front gap.back }
    requires z_bound { (z + 4 ≤ 4 ^ highest_order) × Aligned 1 z }
    requires accounts { (get_or quad 0 0 ≤ highest_account) × (get_or quad 1 0 ≤ highest_account)
        × (get_or quad 2 0 ≤ highest_account) × (get_or quad 3 0 ≤ highest_account) }
    ensures put { Advances slots.old slots.new gap.front gap.back z (z + 4)
        (Quad z (get_or quad 0 0) (get_or quad 1 0) (get_or quad 2 0) (get_or quad 3 0)) result.front }
    ensures back { result.back ≡ gap.back }
{
    let [a, b, c, d] = quad;
    if a == b && b == c && c == d {
        if a == 0 {
            return gap;
        }
        return put_same(slots, gap, z, a);
    }
    let first = put_alone(slots, gap, z, a);
    let second = put_alone(slots, first, z + 1, b);
    let third = put_alone(slots, second, z + 2, c);
    put_alone(slots, third, z + 3, d)
}

// Puts so many accounts, from number `at` on, on the pixels from z on, where the gap lies: whole quads. Each is taken
// apart by name: handed on as `*quad`, a feed took a tenth longer. A call of its own, so that its loop has the registers
// to itself: as a part of `kb_feed` it fetched the slots' place from the stack for each tile.
#[inline(never)]
pub fn put_stretch(
    slots: &mut [u32],
    gap: Gap,
    accounts: &[u8],
    at: usize,
    count: usize,
    z: u32,
) -> Gap
    requires fits { Fits slots.old gap.front gap.back }
    requires count_bound { (z + count ≤ 4 ^ highest_order) × Aligned 1 z × Aligned 1 count }
    requires given { Given accounts.now at count }
    ensures put { Advances slots.old slots.new gap.front gap.back z (z + count)
        (Line accounts.now at count z) result.front }
    ensures back { result.back ≡ gap.back }
{
    let (quads, _) = accounts[at..at + count].as_chunks::<4>();
    let mut moved = gap;
    let mut next = z;
    for quad in quads {
        let [a, b, c, d] = *quad;
        moved = put_quad(slots, moved, next, [a, b, c, d]);
        next += 4;
    }
    moved
}

// The accounts of a feed: those of the places from `start` on, on a bed of an order.
#[derive(Clone, Copy)]
pub struct Feed<'a> {
    pub order: u32,
    pub start: u32,
    pub accounts: &'a [u8],
}

impl Feed<'_> {
    // In a scan by rows the number of the account of the pixel z, where z is in the block that ends at `end`.
    fn index_at(self, z: u32, end: u32) -> usize
        requires { (self.order ≤ highest_order) × (end ≤ 4 ^ self.order)
            × (z < end → self.start ≤ place_of Rows self.order z) }
        ensures { z < end → result ≡ place_of Rows self.entry.order z - self.entry.start }
    {
        if z < end {
            return (Kind::Rows.place(self.order, z) - self.start) as usize;
        }
        0
    }
}

// Puts the accounts of the block of a size at a point, in Morton order: the gap moves to the block once. The account's
// number moves with z by a varying step, and is worked out only where another quad follows.
pub fn put_block(slots: &mut [u32], gap: Gap, feed: Feed, point: Point, size: u32) -> Gap
    requires fits { Fits slots.old gap.front gap.back }
    requires block_fits { BlockFits feed.order feed.start feed.accounts.now point.column point.row size }
    ensures { Blocked slots.old slots.new gap.front gap.back feed.entry.order feed.entry.start
        feed.entry.accounts.now (morton side_bits point.column point.row)
        (morton side_bits point.column point.row + 4 ^ size) result }
{
    let Feed {
        order,
        start,
        accounts,
    } = feed;
    let Point { column, row } = point;
    let corner = morton::number(column, row);
    let width = tile::side(order) as usize;
    let end = corner + tile::area(size);
    let mut moved = gap.seek(slots, corner);
    let mut z = corner;
    let mut at = ((row << order) + column - start) as usize;
    while z < end {
        moved = put_quad(
            slots,
            moved,
            z,
            [
                accounts[at],
                accounts[at + 1],
                accounts[at + width],
                accounts[at + width + 1],
            ],
        );
        z += 4;
        at = feed.index_at(z, end);
    }
    moved
}
