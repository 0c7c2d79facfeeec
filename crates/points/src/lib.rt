// Calls that are handed no map: how large a bed is, the Morton number of a point and the point of a Morton number, and
// the block of a size around a point. What a host needs of this arithmetic is here, so that it has none of its own.
#![tactic(auto)]

ghost use Rattle.std.specs.Prelude.{◌≡◌};
ghost use Rattle.refusal.specs.Refused.{said};
ghost use Rattle.points.specs.Points.{extent_of, point_asked, number_of, around_asked, around_of, number_asked, point_of};
ghost use Rattle.points.specs.Answers.{extent_answer, number_answer, block_answer, point_answer};

use bed::Point;
use refusal::{Checked, Refusal};
use tile::Block;

// What a bed of an order measures: its columns (and rows), and its pixels.
#[derive(Clone, Copy, Debug, PartialEq, Eq)]
pub struct Extent {
    pub side: u32,
    pub pixels: u32,
}

// The offered call: the columns (and rows) and the pixels of a bed of an order.
pub fn measure(order: u32) -> Result<Extent, Refusal>
    ensures { extent_answer result ≡ extent_of order }
{
    checks::order(order)?;
    Ok(Extent {
        side: tile::side(order),
        pixels: tile::area(order),
    })
}

// The checks of a point that comes with no map: 1, then 31.
fn point_asked(order: u32, point: Point) -> Checked
    ensures { said result ≡ point_asked order point.column point.row }
{
    checks::order(order)?;
    checks::point(order, point)
}

// The offered call: the Morton number of a point.
pub fn number_at(order: u32, point: Point) -> Result<u32, Refusal>
    ensures { number_answer result ≡ number_of order point.column point.row }
{
    point_asked(order, point)?;
    let Point { column, row } = point;
    Ok(morton::number(column, row))
}

// The checks of the block around a point: 1, 31, then 32, which only the size can break.
fn around_asked(order: u32, point: Point, size: u32) -> Checked
    ensures { said result ≡ around_asked order point.column point.row size }
{
    point_asked(order, point)?;
    if order < size {
        return Err(Refusal::BlockInvalid);
    }
    Ok(())
}

// The offered call: the block of a size that has a point in it.
pub fn block_around(order: u32, point: Point, size: u32) -> Result<Block, Refusal>
    ensures { block_answer result ≡ around_of order point.column point.row size }
{
    around_asked(order, point, size)?;
    let Point { column, row } = point;
    Ok(Block {
        corner: tile::corner_at(size, morton::number(column, row)),
        size,
    })
}

// The checks of a Morton number that comes with no map: 1, then 32 of the block of size 0 there.
fn number_asked(order: u32, z: u32) -> Checked
    ensures { said result ≡ number_asked order z }
{
    checks::order(order)?;
    checks::block(order, Block { corner: z, size: 0 })
}

// The offered call: the point of a Morton number.
pub fn point_of(order: u32, z: u32) -> Result<Point, Refusal>
    ensures { point_answer result ≡ point_of order z }
{
    number_asked(order, z)?;
    Ok(Point {
        column: morton::column_of(z),
        row: morton::row_of(z),
    })
}

// What C gets of an extent: its fields, 0 where it is refused, behind the refusal's number.
#[repr(C)]
#[derive(Clone, Copy, Debug, PartialEq, Eq)]
pub struct ExtentAnswer {
    pub number: u32,
    pub side: u32,
    pub pixels: u32,
}

impl From<Result<Extent, Refusal>> for ExtentAnswer {
    ghost from_gives = { λ r e. e ≡ extent_answer r };

    fn from(answer: Result<Extent, Refusal>) -> ExtentAnswer {
        match answer {
            Ok(Extent { side, pixels }) => ExtentAnswer {
                number: 0,
                side,
                pixels,
            },
            Err(refusal) => ExtentAnswer {
                number: u32::from(refusal),
                side: 0,
                pixels: 0,
            },
        }
    }
}

// What C gets of a point's Morton number, likewise.
#[repr(C)]
#[derive(Clone, Copy, Debug, PartialEq, Eq)]
pub struct MortonAnswer {
    pub number: u32,
    pub morton: u32,
}

impl From<Result<u32, Refusal>> for MortonAnswer {
    ghost from_gives = { λ r e. e ≡ number_answer r };

    fn from(answer: Result<u32, Refusal>) -> MortonAnswer {
        match answer {
            Ok(morton) => MortonAnswer { number: 0, morton },
            Err(refusal) => MortonAnswer {
                number: u32::from(refusal),
                morton: 0,
            },
        }
    }
}

// What C gets of the block around a point, likewise.
#[repr(C)]
#[derive(Clone, Copy, Debug, PartialEq, Eq)]
pub struct BlockAnswer {
    pub number: u32,
    pub corner: u32,
    pub size: u32,
}

impl From<Result<Block, Refusal>> for BlockAnswer {
    ghost from_gives = { λ r e. e ≡ block_answer r };

    fn from(answer: Result<Block, Refusal>) -> BlockAnswer {
        match answer {
            Ok(Block { corner, size }) => BlockAnswer {
                number: 0,
                corner,
                size,
            },
            Err(refusal) => BlockAnswer {
                number: u32::from(refusal),
                corner: 0,
                size: 0,
            },
        }
    }
}

// What C gets of the point of a Morton number, likewise.
#[repr(C)]
#[derive(Clone, Copy, Debug, PartialEq, Eq)]
pub struct PointAnswer {
    pub number: u32,
    pub column: u32,
    pub row: u32,
}

impl From<Result<Point, Refusal>> for PointAnswer {
    ghost from_gives = { λ r e. e ≡ point_answer r };

    fn from(answer: Result<Point, Refusal>) -> PointAnswer {
        match answer {
            Ok(Point { column, row }) => PointAnswer {
                number: 0,
                column,
                row,
            },
            Err(refusal) => PointAnswer {
                number: u32::from(refusal),
                column: 0,
                row: 0,
            },
        }
    }
}
