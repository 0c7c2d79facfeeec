// The checks of what a call is handed besides its map, a function each: the calls put them in their order.
#![tactic(auto)]

ghost use Rattle.std.specs.Prelude.{◌≡◌, ◌≤◌};
ghost use Rattle.refusal.specs.Refused.{said};
ghost use Rattle.tile.specs.Tile.{highest_order};
ghost use Rattle.checks.specs.Asked.{order_check, point_check, coordinate_check, block_check, asker_check, given_check};

use bed::{Point, Scan};
use refusal::{Checked, Refusal};
use tile::Block;

// 1: the order is one of a bed. A call that is handed a map has it among the checks of the list.
pub fn order(order: u32) -> Checked
    ensures { said result ≡ order_check order }
{
    if Scan::HIGHEST_ORDER < order {
        return Err(Refusal::OrderTooLarge);
    }
    Ok(())
}

// 31: the point asked lies on the bed.
pub fn point(order: u32, point: Point) -> Checked
    requires { order ≤ highest_order }
    ensures { said result ≡ point_check order point.column point.row }
{
    let Point { column, row } = point;
    let side = tile::side(order);
    if side <= column {
        return Err(Refusal::PointOutside);
    }
    if side <= row {
        return Err(Refusal::PointOutside);
    }
    Ok(())
}

// 32: the block asked is a quadrant of the bed.
pub fn block(order: u32, block: Block) -> Checked
    requires { order ≤ highest_order }
    ensures { said result ≡ block_check order block.corner block.size }
{
    let Block { corner, size } = block;
    if order < size {
        return Err(Refusal::BlockInvalid);
    }
    if tile::area(order) <= corner {
        return Err(Refusal::BlockInvalid);
    }
    if corner % tile::area(size) != 0 {
        return Err(Refusal::BlockInvalid);
    }
    Ok(())
}

// 34: the asking account is somebody's.
pub fn asker(asking: u8) -> Checked
    ensures { said result ≡ asker_check asking }
{
    if asking == 0 {
        return Err(Refusal::AskerInvalid);
    }
    if Scan::HIGHEST_ACCOUNT < asking {
        return Err(Refusal::AskerInvalid);
    }
    Ok(())
}

// 24: the account given is nobody's or somebody's.
pub fn given(account: u8) -> Checked
    ensures { said result ≡ given_check account }
{
    if Scan::HIGHEST_ACCOUNT < account {
        return Err(Refusal::AccountTooLarge);
    }
    Ok(())
}

// 31: a column or a row, asked alone, is one of the bed's.
pub fn coordinate(order: u32, pixel: u32) -> Checked
    requires { order ≤ highest_order }
    ensures { said result ≡ coordinate_check order pixel }
{
    let side = tile::side(order);
    if side <= pixel {
        return Err(Refusal::PointOutside);
    }
    Ok(())
}
