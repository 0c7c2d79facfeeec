// One map, one file, as reader and writer have it: stated in specs/ and proved in proofs/. The one function here is
// there for its promise.
#![tactic(auto)]

ghost use Rattle.mapfile_same.specs.Same.{Bytes};

// Any bytes that code is handed are `Bytes`, as the statement asks of a file: looking at one of them tells it of all.
pub fn see_bytes(file: &[u8])
    ensures { Bytes file.now }
{
    if file.len() == 0 {
        return;
    }
    let _first = file[0];
}
