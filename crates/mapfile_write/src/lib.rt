// The writer of a map file.
#![tactic(auto)]

ghost use Rattle.std.specs.Prelude.{◌≡◌, ◌≤◌, IfOk, length, take};
ghost use Rattle.std.proofs.lemmas.List.Edits.{sets};
ghost use Rattle.refusal.specs.Checks.{Gives};
ghost use Rattle.refusal.specs.Refused.{said};
ghost use Rattle.tile.specs.Slots.{tiles};
ghost use Rattle.mapfile_bytes.specs.Layout.{file_length};
ghost use Rattle.mapfile_roster.specs.Roster.{roster_of};
ghost use Rattle.mapfile_write.specs.Answers.{write_answer};
ghost use Rattle.mapfile_write.specs.Writer.{file_of, ready_check, write_of};

use bed::Scan;
use list_check::Quadtree;
use mapfile_bytes::{BARE_LENGTH, COUNT_PLACE, ENTRY_LENGTH, WORD_LENGTH, WORDS_PLACE};
use mapfile_sections::Roster;
use refusal::Refusal;

// What C gets of the writer's answer: the refusal's number, or 0 and the bytes written.
#[repr(C)]
#[derive(Clone, Copy, Debug, PartialEq, Eq)]
pub struct WriteAnswer {
    pub number: u32,
    pub length: usize,
}

impl From<Result<usize, Refusal>> for WriteAnswer {
    ghost from_gives = { λ r e. e ≡ write_answer r };

    fn from(answer: Result<usize, Refusal>) -> WriteAnswer {
        match answer {
            Ok(length) => WriteAnswer { number: 0, length },
            Err(refusal) => WriteAnswer {
                number: u32::from(refusal),
                length: 0,
            },
        }
    }
}

// The whole file of a checked list, whose roster is given, and which the bytes have room for.
fn put_file(tree: Quadtree, roster: &Roster, file: &mut [u8])
    requires same { roster.now.words.now ≡ tree.words.now }
    requires room { file_length (length tree.words.now) (length (roster_of (tiles tree.words.now))) ≤ length file.old }
    ensures { file.new ≡ sets file.old 0
        (file_of tree.entry.order (tiles tree.entry.words.now)) }
{
    let words = tree.words;
    file[0] = tree.order as u8;
    mapfile_sections::put(file, COUNT_PLACE, words.len() as u32);
    mapfile_sections::put_words(words, file);
    let at = WORDS_PLACE + WORD_LENGTH * words.len();
    roster.put(&mut file[at..]);
}

// The checks ahead of the file's length: the opening checks, 52. They answer the list.
fn ready(scan: Scan, slots: &[u32]) -> Result<Quadtree<'_>, Refusal>
    ensures number { said result ≡ ready_check scan slots.now }
    ensures tree { IfOk result (λ q. (q.order ≡ scan.order) × (q.words.now ≡ take scan.tiles slots.now)) }
{
    let tree = scan_check::open_finished(scan, slots)?;
    scan_check::finished(scan)?;
    Ok(tree)
}

// The offered call: writes the file of a finished scan's list and answers its length, or answers the first refusal and
// changes no byte.
pub fn write(scan: Scan, slots: &[u32], file: &mut [u8]) -> Result<usize, Refusal>
    ensures { Gives (write_answer result) file.new (write_of scan slots.now file.old) }
{
    let tree = ready(scan, slots)?;
    let roster = Roster::of(tree.words);
    let length = BARE_LENGTH + WORD_LENGTH * tree.words.len() + ENTRY_LENGTH * roster.len();
    if file.len() < length {
        return Err(Refusal::BytesTooFew);
    }
    put_file(tree, &roster, file);
    Ok(length)
}
