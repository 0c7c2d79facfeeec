// Fresh scans and feeds.
#![tactic(auto)]

ghost use Rattle.refusal.specs.Checks.{Gives};
ghost use Rattle.scan.specs.FreshScan.{fresh_answer, fresh_of};
ghost use Rattle.scan.specs.Feed.{fed_answer, feed_of};

use bed::{Kind, Scan};
use refusal::{Checked, Refusal};
use scan_feed::{Halted, Progress};

// A feed's answer: whether an account or an opening check was refused, the count taken, which counts even where one
// was, and the new record.
#[derive(Clone, Copy, Debug, PartialEq, Eq)]
pub struct Fed {
    pub end: Checked,
    pub taken: usize,
    pub scan: Scan,
}

// The offered call: a fresh scan of a kind and an order. Refused, 1, it changes no slot; accepted it sets all of them
// to 0.
pub fn fresh_scan(kind: Kind, order: u32, slots: &mut [u32]) -> Result<Scan, Refusal>
    ensures { Gives (fresh_answer kind result) slots.new (fresh_of kind order slots.old) }
{
    if Scan::HIGHEST_ORDER < order {
        return Err(Refusal::OrderTooLarge);
    }
    list_words::clear(slots);
    Ok(Scan::fresh(kind, order))
}

// The offered call: feeds accounts to a scan. Refused by an opening check it changes nothing; past them it takes the
// accounts up to the first that is refused, 23, 24 or 25, and leaves the list of what it took, with the other slots 0.
pub fn feed(scan: Scan, slots: &mut [u32], accounts: &[u8]) -> Fed
    ensures { Gives (fed_answer result) slots.new (feed_of scan slots.old accounts.now) }
{
    if let Err(refusal) = scan_check::open_check(scan, slots) {
        return Fed {
            end: Err(refusal),
            taken: 0,
            scan,
        };
    }
    let (end, at) = match scan_feed::feed_all(scan, slots, accounts) {
        Ok(at) => (Ok(()), at),
        Err(Halted { refusal, at }) => (Err(refusal), at),
    };
    let Progress { taken, pixels, gap } = at;
    gap.close(slots);
    let tiles = gap.front + (slots.len() - gap.back);
    let kind = scan.kind;
    Fed {
        end,
        taken,
        scan: Scan {
            kind,
            order: scan.order,
            pixels,
            tiles,
        },
    }
}
