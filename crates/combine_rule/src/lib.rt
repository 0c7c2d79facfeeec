// The rules by which the pixels of two maps make the pixel of a third. Code elsewhere is generic over the rule and asks
// `keep`, and no proof of code elsewhere looks into a rule.
#![tactic(auto)]

ghost use Rattle.std.specs.Prelude.{ℕ, ◌≡◌, ◌≤◌};
ghost use Rattle.tile.specs.Tile.{highest_account};
ghost use Rattle.combine_rule.specs.Choices.{choice_of};
ghost use Rattle.combine_rule.specs.Rule.{rule_of, MakesAccounts};
ghost use Rattle.combine_rule.specs.Accounts.{rule_accounts};

// A rule over the pixels of two maps.
pub trait Rule {
    // The account of a pixel, by its accounts on the first map and on the second.
    ghost made: { Self → ℕ → ℕ → ℕ };

    // The account of a pixel that has the account `a` on the first map and `b` on the second.
    fn keep(self, a: u8, b: u8) -> u8
        requires { (a ≤ highest_account) × (b ≤ highest_account) }
        ensures { result ≡ made self a b };

    // Of two accounts each rule makes an account.
    ghost accounts: { (rule : Self) → MakesAccounts (made rule) };
}

// Which pixels of the first map are kept: those that are somebody's on the second, or those that are nobody's there.
#[derive(Clone, Copy, Debug, PartialEq, Eq)]
pub enum Choice {
    Inside,
    Outside,
}

// The choice of a number in C: 0 is inside, any other outside.
impl From<u32> for Choice {
    ghost from_gives = { λ number choice. choice ≡ choice_of number };

    fn from(number: u32) -> Choice {
        if number == 0 {
            Choice::Inside
        } else {
            Choice::Outside
        }
    }
}

impl Rule for Choice {
    ghost made = { rule_of };

    ghost accounts = { rule_accounts };

    fn keep(self, a: u8, b: u8) -> u8 {
        match self {
            Choice::Inside => if b == 0 { 0 } else { a },
            Choice::Outside => if b == 0 { a } else { 0 },
        }
    }
}
