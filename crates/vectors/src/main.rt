// The worked lines of document 01 that are not starred, and the one of quadrant parts, run;
// crates/vectors/stdout has what they must print.
#![tactic(auto)]

use bed::{Kind, Point, Scan};
use scan::Fed;
use tile::{Block, Tile};

// A line of words and two numbers, by `io`, as bedlist writes.
fn line(words: &[u8], first: usize, second: usize) {
    io::write_all(1, words);
    io::write_all(1, b" ");
    io::print_decimal(1, first as u64);
    io::write_all(1, b" ");
    io::print_decimal(1, second as u64);
    io::write_all(1, b"\n");
}

// "M's file has 32 bytes; roster totals 4 for account 5 and 6 for account 9." All four bytes of a total, high byte
// first.
fn file_of(scan: Scan, slots: &[u32]) {
    let mut file = [0u8; 64];
    let written = mapfile_write::write(scan, slots, &mut file);
    line(
        b"M's file: number, bytes",
        refusal::said(&written) as usize,
        written.unwrap_or(0),
    );
    line(
        b"its roster: account, pixels",
        usize::from(file[22]),
        mapfile_bytes::word_at(&file, 23) as usize,
    );
    line(
        b"its roster: account, pixels",
        usize::from(file[27]),
        mapfile_bytes::word_at(&file, 28) as usize,
    );
}

// The answer of a lookup, and the account that it names, 0 where it is refused.
fn looked_up(words: &[u8], scan: Scan, slots: &[u32], point: Point) {
    let found = lookup::lookup(scan, slots, point);
    let account = match found {
        Ok(Tile { account, .. }) => account,
        Err(_) => 0,
    };
    line(words, refusal::said(&found) as usize, usize::from(account));
}

// "On M column 3 passes, 4 gives 31."
fn lookups(scan: Scan, slots: &[u32]) {
    looked_up(
        b"M, column 3, row 1: number, account",
        scan,
        slots,
        Point { column: 3, row: 1 },
    );
    looked_up(
        b"M, column 4, row 1: number, account",
        scan,
        slots,
        Point { column: 4, row: 1 },
    );
}

// "On M, quadrant (4, size 1) is the one tile at position 1; (12, size 0) is empty at position 3."
// (1, size 1) is no quadrant: 32, and the empty part.
fn parts(scan: Scan, slots: &[u32]) {
    let Scan { order, tiles, .. } = scan;
    let one = part::quadrant_slice(order, tiles, slots, Block { corner: 4, size: 1 });
    line(
        b"M, quadrant 4, size 1: tiles, first word",
        one.len(),
        one.first().copied().unwrap_or(0) as usize,
    );
    let place = Block {
        corner: 12,
        size: 0,
    };
    let empty = part::quadrant_slice(order, tiles, slots, place);
    let position = match part::quadrant_part(order, tiles, slots, place) {
        Ok(part) => part.position,
        Err(_) => 0,
    };
    line(
        b"M, quadrant 12, size 0: tiles, position",
        empty.len(),
        position,
    );
    let none = Block { corner: 1, size: 1 };
    let refused = part::quadrant_slice(order, tiles, slots, none);
    line(
        b"M, quadrant 1, size 1: tiles, number",
        refused.len(),
        refusal::said(&part::quadrant_part(order, tiles, slots, none)) as usize,
    );
}

// "Account 63 passes, 64 gives 24."
fn account(words: &[u8], accounts: &[u8]) {
    let mut slots = [0u32; 1];
    if let Ok(fresh) = scan::fresh_scan(Kind::Rows, 0, &mut slots) {
        let Fed {
            end,
            taken,
            scan: _,
        } = scan::feed(fresh, &mut slots, accounts);
        line(words, refusal::said(&end) as usize, taken);
    }
}

fn main() {
    let mut slots = [0u32; 6];
    if let Ok(fresh) = scan::fresh_scan(Kind::Rows, 2, &mut slots) {
        let Fed { end, taken, scan } = scan::feed(
            fresh,
            &mut slots,
            b"\x05\x05\x00\x00\x05\x05\x00\x09\x09\x00\x09\x09\x00\x00\x09\x09",
        );
        line(b"M: number, taken", refusal::said(&end) as usize, taken);
        file_of(scan, &slots);
        lookups(scan, &slots);
        parts(scan, &slots);
    }
    account(b"account 63: number, taken", b"\x3f");
    account(b"account 64: number, taken", b"\x40");
}
