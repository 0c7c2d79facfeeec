// bedlist: reads an order and account bytes by rows from standard input, and writes the listing of what a row scan
// makes of them.
#![tactic(auto)]

// std reads an input to its end onto the heap alone, and its writers rest on one more trusted function, which tells the
// number of the system's error. `io` fills the buffer, and trusts the C library's read and write alone.
fn main() {
    let mut input = [0u8; listing_whole::INPUT_BYTES];
    let count = io::read_full(0, &mut input);
    let mut out = [0u8; listing_whole::LISTING_BYTES];
    let length = listing_whole::list_whole(&input, count, &mut out);
    if !io::write_all(1, &out[..length]) {
        io::write_all(2, b"bedlist: the listing could not be written\n");
    }
}
