// Placement rights: which account may place at which pixel, by lookup's answer and the table of rights.
#![tactic(auto)]

ghost use Rattle.std.specs.Prelude.{◌≡◌};
ghost use Rattle.rights.specs.Answers.{right_answer};
ghost use Rattle.rights.specs.Rights.{rights_of};

use bed::{Point, Scan};
use refusal::Refusal;

// The rights call's answer, as C gets it: refused, the refusal's number and no.
#[repr(C)]
#[derive(Clone, Copy, Debug, PartialEq, Eq)]
pub struct RightAnswer {
    pub number: u32,
    pub yes: bool,
}

impl From<Result<bool, Refusal>> for RightAnswer {
    ghost from_gives = { λ r a. a ≡ right_answer r };

    fn from(answer: Result<bool, Refusal>) -> RightAnswer {
        match answer {
            Ok(yes) => RightAnswer { number: 0, yes },
            Err(refusal) => RightAnswer {
                number: u32::from(refusal),
                yes: false,
            },
        }
    }
}

// The offered call: may the asking account place at a point, by the table that counts where `table` is handed in? It
// rests on lookup's answer: first lookup's refusals, then 34.
pub fn rights(
    table: &[u8],
    scan: Scan,
    slots: &[u32],
    point: Point,
    asking: u8,
) -> Result<bool, Refusal>
    ensures { right_answer result ≡ rights_of table.now scan slots.now point.column point.row asking }
{
    let found = lookup::lookup(scan, slots, point)?;
    checks::asker(asking)?;
    Ok(table::may_place(table, asking, found.account))
}
