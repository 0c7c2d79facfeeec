// What the accounts of whole rows weigh by quads, and how high they go: what has to be known of a band before it is
// put.
#![tactic(auto)]

ghost use Rattle.std.specs.Prelude.{◌≡◌, ◌+◌, ◌-◌, ◌*◌, ◌<◌, ◌≤◌, length, get_or};
ghost use Rattle.scan_stretch.specs.Weight.{one, weight, total};
ghost use Rattle.scan_weigh.specs.Weighed.{quad_from, pair_from, rows_from, NoneAbove};

// 1 for somebody's account, 0 for nobody's.
#[tactic(auto, unfolding(scan_stretch::specs::Weight::one))]
fn somebody(account: u8) -> u8
    ensures value { result ≡ one account }
    ensures most { result ≤ 1 }
{
    if account == 0 { 0 } else { 1 }
}

// What the four accounts of a quad weigh.
fn weigh(quad: [u8; 4]) -> u8
    ensures { result ≡ weight (get_or quad 0 0) (get_or quad 1 0) (get_or quad 2 0)
        (get_or quad 3 0) }
{
    let [a, b, c, d] = quad;
    if a == b && b == c && c == d {
        return somebody(a) + somebody(a);
    }
    (somebody(a) + somebody(b)) + (somebody(c) + somebody(d))
}

// What the quad weighs whose north-western account is number i, in rows of a width.
fn quad(accounts: &[u8], i: usize, width: usize) -> u8
    requires { i + width + 1 < length accounts.now }
    ensures { result ≡ quad_from accounts.now width i }
{
    weigh([
        accounts[i],
        accounts[i + 1],
        accounts[i + width],
        accounts[i + width + 1],
    ])
}

// What some quads of two rows weigh, which are few, so that a byte is enough: the compiler then adds many at a time.
fn few(accounts: &[u8], at: usize, width: usize, from: usize, to: usize) -> u8
    requires { (from ≤ to) × (to ≤ from + 32) × (at + 2 * to + width ≤ length accounts.now) }
    ensures { result ≡ total (λ j. quad_from accounts.now width (at + 2 * j)) from (to - from) }
{
    let mut sum: u8 = 0;
    for j in from..to {
        sum += quad(accounts, at + 2 * j, width);
    }
    sum
}

// What the quads of the two rows from the account number `at` on weigh. The last few may be fewer, so that the step
// varies.
fn pair(accounts: &[u8], at: usize, width: usize, quads: usize) -> usize
    requires { at + 2 * quads + width ≤ length accounts.now }
    ensures { result ≡ pair_from accounts.now width quads at }
{
    let mut sum = 0;
    let mut j = 0;
    while j < quads {
        let end = quads.min(j + 32);
        sum += few(accounts, at, width, j, end) as usize;
        j = end;
    }
    sum
}

// The same of so many pairs of rows.
pub fn rows(accounts: &[u8], at: usize, width: usize, quads: usize, pairs: usize) -> usize
    requires { (width ≡ 2 * quads) × (at + pairs * (2 * width) ≤ length accounts.now) }
    ensures { result ≡ rows_from accounts.now width quads at pairs }
{
    let mut sum = 0;
    for j in 0..pairs {
        sum += pair(accounts, at + j * (2 * width), width, quads);
    }
    sum
}

// An account that none of the accounts is above.
pub fn highest(accounts: &[u8]) -> u8
    ensures { NoneAbove accounts.now 0 (length accounts.now) result }
{
    let mut top = 0;
    for &account in accounts {
        top = top.max(account);
    }
    top
}
