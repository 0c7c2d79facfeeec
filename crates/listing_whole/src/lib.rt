// The listing of a whole input, of which a program reads only so much and for which it lends only so much.
#![tactic(auto)]

ghost use Rattle.std.specs.Prelude.{◌≤◌, take};
ghost use Rattle.listing_whole.specs.Whole.{input_bytes, Whole};

// An order, the pixels and one too many: more of an input changes no listing.
pub const INPUT_BYTES: usize = 1 + listing::LISTED_SLOTS + 1;

// Every listing fits so many bytes.
pub const LISTING_BYTES: usize = 65536;

// What bedlist does between reading and writing: `count` bytes were read, the whole input or its first INPUT_BYTES.
// Writes the listing of the whole input, which fits, and answers its length.
pub fn list_whole(read: &[u8; INPUT_BYTES], count: usize, out: &mut [u8; LISTING_BYTES]) -> usize
    requires { count ≤ input_bytes }
    ensures { Whole (take count read.now) out.old result out.new }
{
    let bytes: &[u8] = read;
    listing::list(&bytes[..count], out).unwrap_or(0)
}
