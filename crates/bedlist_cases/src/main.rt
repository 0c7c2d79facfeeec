// The listings of inputs at the limits, one behind the other.
#![tactic(auto)]

// Writes the listing of an input to standard output: by `io`, as bedlist does.
fn show(input: &[u8]) {
    let mut out = [0u8; listing_whole::LISTING_BYTES];
    if let Ok(length) = listing::list(input, &mut out) {
        if let Some(text) = out.get(..length) {
            io::write_all(1, text);
        }
    }
}

// An account unlike those of the neighbours.
fn account(i: usize) -> u8 {
    (i % 63) as u8 + 1
}

fn fill(input: &mut [u8]) {
    for i in 1..input.len() {
        input[i] = account(i);
    }
}

fn main() {
    // nothing
    let input = [0u8; 1];
    show(&input[..0]);
    // an order that is not listed
    show(b"\x07\x01");
    // order 0: one pixel, none, one too many
    show(b"\x00\x3f");
    show(b"\x00");
    show(b"\x00\x05\x05");
    // an account too large
    show(b"\x01\x07\x40\x07\x07");
    // too few and too many bytes
    show(b"\x01\x07\x07\x07");
    show(b"\x01\x07\x07\x07\x07\x07");
    // order 6, no two neighbours alike
    let mut large = [6u8; 1 + 4096];
    fill(&mut large);
    show(&large);
    // order 6, one pixel too many
    let full = [6u8; listing_whole::INPUT_BYTES];
    show(&full);
}
