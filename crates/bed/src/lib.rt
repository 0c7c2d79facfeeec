// The scan record (document 01, "Scanning") with its limits, points, and the place of a pixel in a scan.
#![tactic(auto)]

ghost use Rattle.std.specs.Prelude.{◌≡◌, ◌^◌, ◌<◌, ◌≤◌};
ghost use Rattle.tile.specs.Tile.{highest_order};
ghost use Rattle.bed.specs.Kinds.{kind_of, kind_number};
ghost use Rattle.bed.specs.Places.{scan_of, place_of};

// A pixel of a bed, or a place for one, by its column and its row.
#[derive(Clone, Copy, Debug, PartialEq, Eq)]
pub struct Point {
    pub column: u32,
    pub row: u32,
}

// By rows, or in Morton order.
#[derive(Clone, Copy, Debug, PartialEq, Eq)]
pub enum Kind {
    Rows,
    Morton,
}

// The kind of a number in C: 0 is by rows, and any other in Morton order, which itself is 1.
impl From<u32> for Kind {
    ghost from_gives = { λ number kind. kind ≡ kind_of number };

    fn from(number: u32) -> Kind {
        if number == 0 {
            Kind::Rows
        } else {
            Kind::Morton
        }
    }
}

impl From<Kind> for u32 {
    ghost from_gives = { λ kind number. number ≡ kind_number kind };

    fn from(kind: Kind) -> u32 {
        kind as u32
    }
}

impl Kind {
    // How many places come before that of the pixel z, on a bed of an order.
    pub fn place(self, order: u32, z: u32) -> u32
        requires { (order ≤ highest_order) × (z < 4 ^ order) }
        ensures { result ≡ place_of self order z }
    {
        match self {
            Kind::Rows => (morton::row_of(z) << order) + morton::column_of(z),
            Kind::Morton => z,
        }
    }
}

// A scan's kind and order, the pixels scanned and the tile count of its list.
#[derive(Clone, Copy, Debug, PartialEq, Eq)]
pub struct Scan {
    pub kind: Kind,
    pub order: u32,
    pub pixels: u32,
    pub tiles: usize,
}

impl Scan {
    pub const HIGHEST_ORDER: u32 = tile::HIGHEST_ORDER;

    pub const HIGHEST_ACCOUNT: u8 = tile::HIGHEST_ACCOUNT;

    // A scan of a kind and an order of which no pixel is scanned.
    pub fn fresh(kind: Kind, order: u32) -> Scan
        ensures { result ≡ scan_of kind order 0 0 }
    {
        Scan {
            kind,
            order,
            pixels: 0,
            tiles: 0,
        }
    }
}
