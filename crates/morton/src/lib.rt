// Morton numbers by interleaving bits, for columns and rows of ten bits. Higher bits are dropped, so that each function
// takes every u32.
#![tactic(auto)]

ghost use Rattle.std.specs.Prelude.{◌≡◌, ◌*◌};
ghost use Rattle.morton.specs.Morton.{morton, column, row, side_bits};

// What each mask keeps of ten bits on their way between the places 0 to 9 and the even places.
const TOGETHER: u32 = 0x3ff; // bits 9 to 0

const BYTES: u32 = 0x300ff; // the upper two of the ten from bit 16 on, the lower eight from bit 0 on

const NIBBLES: u32 = 0x30f0f; // four bits of each eight

const PAIRS: u32 = 0x33333; // two bits of each four

const SPACED: u32 = 0x55555; // the even places 18 to 0

const BESIDE: u32 = SPACED << 1; // the odd places 19 to 1

// The low ten bits of x, moved to the even places.
pub fn spread(x: u32) -> u32
    ensures { result ≡ morton side_bits x 0 }
{
    let low = x & TOGETHER;
    let bytes = (low | (low << 8)) & BYTES;
    let nibbles = (bytes | (bytes << 4)) & NIBBLES;
    let pairs = (nibbles | (nibbles << 2)) & PAIRS;
    (pairs | (pairs << 1)) & SPACED
}

// The Morton number of a column and a row.
pub fn number(column: u32, row: u32) -> u32
    ensures { result ≡ morton side_bits column row }
{
    spread(column) | (spread(row) << 1)
}

// The column of a Morton number: its bits at even places, moved together.
pub fn column_of(z: u32) -> u32
    ensures { result ≡ column side_bits z }
{
    let spaced = z & SPACED;
    let pairs = (spaced | (spaced >> 1)) & PAIRS;
    let nibbles = (pairs | (pairs >> 2)) & NIBBLES;
    let bytes = (nibbles | (nibbles >> 4)) & BYTES;
    (bytes | (bytes >> 8)) & TOGETHER
}

// The row of a Morton number: its bits at odd places, moved together.
pub fn row_of(z: u32) -> u32
    ensures { result ≡ row side_bits z }
{
    column_of(z >> 1)
}

// The column of a Morton number, spread as it is there: to compare columns, it need not be moved together.
pub fn column_bits(z: u32) -> u32
    ensures { result ≡ morton side_bits (column side_bits z) 0 }
{
    z & SPACED
}

// The row of a Morton number, spread as it is there, one place higher than a column.
pub fn row_bits(z: u32) -> u32
    ensures { result ≡ 2 * morton side_bits (row side_bits z) 0 }
{
    z & BESIDE
}
