// An arena: an automaton whose marks are the duty's, and which also answers for its rights.
ghost use Rattle.std.specs.Prelude.{◌≡◌, ℕ, ◌<◌, ◌≤◌, Bool, false};

use crate::automaton::Automaton;

// The rights are numbered from 1 to `k`.
pub trait Arena: Automaton {
    ghost k: { Self → ℕ };

    ghost right: { Self → ℕ → ℕ → Bool };

    fn rights(&self) -> u8
        ensures { result ≡ k self.now };

    fn right(&self, i: u8, q: u16) -> bool
        ensures { result ≡ right self.now i q };

    ghost few: { (s : Self) → k s ≤ 4 };

    // Out of range no right is marked.
    ghost no_zeroth: { (s : Self) (q : ℕ) → right s 0 q ≡ false };

    ghost right_outside: { (s : Self) (i q : ℕ) → k s < i → right s i q ≡ false };

    ghost right_state_outside: { (s : Self) (i q : ℕ) → Self.Automaton.n s ≤ q → right s i q ≡ false };

    // With more than 256 states there is no right.
    ghost full_rights: { (s : Self) → Self.Automaton.n s ≡ 257 → k s ≡ 0 };
}
