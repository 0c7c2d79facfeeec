// The listing of a scanned bed as text. As in crate `text`, what does not fit is counted, so that one pass counts the
// bytes and a second puts them.
#![tactic(auto)]

ghost use Rattle.std.specs.Prelude.{◌≡◌, ◌+◌, ◌*◌, ◌<◌, ◌≤◌, length};
ghost use Rattle.refusal.specs.Checks.{Gives};
ghost use Rattle.tile.specs.Slots.{tiles_in};
ghost use Rattle.text.specs.PutAt.{count_limit};
ghost use Rattle.text.specs.Puts.{Puts};
ghost use Rattle.decimal.specs.Lines.{triple_most};
ghost use Rattle.listing.specs.Listing.{tile_line, tile_lines, stop_line, listed_slots, listed_in, list_of};
ghost use Rattle.listing.specs.Answers.{lines_of, tiles_listed, refused_listing, listed};

use bed::Kind;
use refusal::Refusal;
use scan::Fed;
use text::Writer;
use tile::Tile;

// The highest order that is listed.
const LISTED_ORDER: u32 = 6;

// A bed of that order has so many pixels, and at most so many tiles.
pub const LISTED_SLOTS: usize = 4096;

// Puts the line of a tile.
fn put_tile(writer: &mut Writer<'_>, tile: Tile)
    requires { writer.old.at + triple_most < count_limit }
    ensures { Puts (tile_line tile) writer.old writer.new }
{
    let Tile {
        corner,
        size,
        account,
    } = tile;
    decimal::put_triple(writer, corner as usize, size as usize, account as usize);
}

// Puts the lines of a list's tiles.
fn put_tiles(writer: &mut Writer<'_>, words: &[u32])
    requires { writer.old.at + triple_most * length words.now < count_limit }
    ensures { Puts (tile_lines (tiles_in (length words.now) words.now)) writer.old writer.new }
{
    for word in words {
        put_tile(writer, Tile::from(*word));
    }
}

// Puts the line of a feed's end.
fn put_stop(writer: &mut Writer<'_>, number: u32, taken: usize)
    requires { writer.old.at + 2 * triple_most < count_limit }
    ensures { Puts (stop_line number taken) writer.old writer.new }
{
    decimal::put_pair(writer, b"stop ", number as usize, b" taken ", taken);
}

// The bed that a feed left: its order and the words of its list.
#[derive(Clone, Copy, Debug)]
struct Bed<'a> {
    order: u32,
    words: &'a [u32],
}

// What is listed: the bed, where there is one, and the feed's end.
#[derive(Clone, Copy, Debug)]
struct Listing<'a> {
    bed: Option<Bed<'a>>,
    // As the line has it, 0 for none.
    number: u32,
    taken: usize,
}

impl Listing<'_> {
    // A listing that has no bed: a refusal ahead of the scan.
    fn without_bed(refusal: Refusal) -> Listing<'static>
        ensures { result ≡ refused_listing refusal }
    {
        Listing {
            bed: None,
            number: u32::from(refusal),
            taken: 0,
        }
    }

    // Puts all the lines.
    fn put(self, writer: &mut Writer<'_>)
        requires { (writer.old.at ≡ 0) × (tiles_listed self ≤ listed_slots) }
        ensures { Puts (lines_of self.entry) writer.old writer.new }
    {
        match self.bed {
            Some(Bed { order, words }) => {
                decimal::put_pair(writer, b"bed ", order as usize, b" tiles ", words.len());
                put_tiles(writer, words);
                put_stop(writer, self.number, self.taken);
            }
            None => put_stop(writer, self.number, self.taken),
        }
    }

    // Writes the lines to the front of the lent bytes, where they fit. Those behind stay.
    fn write(self, out: &mut [u8]) -> Result<usize, Refusal>
        requires { tiles_listed self ≤ listed_slots }
        ensures { Gives (listed result) out.new (listed_in (lines_of self.entry) out.old) }
    {
        let mut none = [0u8; 1];
        let mut counter = Writer::new(&mut none);
        self.put(&mut counter);
        let length = counter.count();
        if out.len() < length {
            return Err(Refusal::BytesTooFew);
        }
        let mut writer = Writer::new(out);
        self.put(&mut writer);
        Ok(length)
    }
}

// The offered call: lists what a row scan of the input, an order and then account bytes, leaves and answers. It refuses
// 26, and then writes nothing, where the listing takes more bytes than are lent.
pub fn list(input: &[u8], out: &mut [u8]) -> Result<usize, Refusal>
    ensures { Gives (listed result) out.new (list_of input.now out.old) }
{
    let Some((order, accounts)) = input.split_first() else {
        return Listing::without_bed(Refusal::FileCutShort).write(out);
    };
    let order = u32::from(*order);
    if LISTED_ORDER < order {
        return Listing::without_bed(Refusal::OrderTooLarge).write(out);
    }
    let mut slots = [0u32; LISTED_SLOTS];
    let fresh = scan::fresh_scan(Kind::Rows, order, &mut slots)?;
    let Fed { end, taken, scan } = scan::feed(fresh, &mut slots, accounts);
    let bed = Bed {
        order: scan.order,
        words: &slots[..scan.tiles],
    };
    let listing = Listing {
        bed: Some(bed),
        number: refusal::said(&end),
        taken,
    };
    listing.write(out)
}
