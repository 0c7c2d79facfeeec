// Words of lent slots cleared and moved.
#![tactic(auto)]

ghost use Rattle.std.specs.Prelude.{◌≡◌, ◌++◌, ◌+◌, ◌-◌, ◌≤◌, length, take, drop, replicate};
ghost use Rattle.std.proofs.Math.Seq.{slice};

// Sets every word to 0.
pub fn clear(s: &mut [u32])
    ensures { s.new ≡ replicate (length s.old) 0 }
{
    s.fill(0);
}

// Sets the words from `from` on to 0.
pub fn clear_from(s: &mut [u32], from: usize)
    requires { from ≤ length s.old }
    ensures { s.new ≡ take from s.old ++ replicate (length s.old - from) 0 }
{
    s[from..].fill(0);
}

// Moves the words from `at` to `n` up by `k` places.
pub fn move_up(s: &mut [u32], at: usize, n: usize, k: usize)
    requires { (at ≤ n) × (n + k ≤ length s.old) }
    ensures { s.new ≡ take (at + k) s.old ++ slice at n s.old
        ++ drop (n + k) s.old }
{
    s.copy_within(at..n, at + k);
}

// Moves the words from `at + k` to `n` down by `k` places.
pub fn move_down(s: &mut [u32], at: usize, n: usize, k: usize)
    requires { (at + k ≤ n) × (n ≤ length s.old) }
    ensures { s.new ≡ take at s.old ++ slice (at + k) n s.old
        ++ drop (n - k) s.old }
{
    s.copy_within(at + k..n, at);
}
