// An automaton, by the answers that are its meaning.
ghost use Rattle.std.specs.Prelude.{◌≡◌, ℕ, ◌^◌, ◌<◌, ◌≤◌, Bool, false, None, Option as Step};
ghost use Rattle.automata.specs.Steps.{Inside};

// An automaton reads rounds. A round is a reading, which is a number of `a` bits, and then a
// command, which is a number of `b` bits. The automaton has `n` states, and `n` is 257 where
// they would be more than 256. A step is a state, or none.
pub trait Automaton {
    ghost a: { Self → ℕ };

    ghost b: { Self → ℕ };

    ghost n: { Self → ℕ };

    ghost start: { Self → ℕ };

    ghost marked: { Self → ℕ → Bool };

    ghost step: { Self → ℕ → ℕ → ℕ → Step ℕ };

    fn reading_bits(&self) -> u8
        ensures { result ≡ a self.now };

    fn command_bits(&self) -> u8
        ensures { result ≡ b self.now };

    fn count(&self) -> u16
        ensures { result ≡ n self.now };

    fn start(&self) -> u16
        ensures { result ≡ start self.now };

    fn marked(&self, q: u16) -> bool
        ensures { result ≡ marked self.now q };

    fn step(&self, q: u16, x: u8, y: u8) -> Option<u16>
        ensures { result ≡ step self.now q x y };

    // Each impl proves the laws, most of them by search, and writes them out: a default would be one
    // proof for all impls.
    ghost narrow: { (s : Self) → (a s ≤ 3) × (b s ≤ 3) };

    ghost sized: { (s : Self) → (1 ≤ n s) × (n s ≤ 257) };

    ghost begins: { (s : Self) → start s < n s };

    ghost enters: { (s : Self) (q x y : ℕ) → Inside (n s) (step s q x y) };

    // Out of range there is no step and no mark.
    ghost state_outside: { (s : Self) (q x y : ℕ) → n s ≤ q → step s q x y ≡ None };

    ghost reading_outside: { (s : Self) (q x y : ℕ) → 2 ^ a s ≤ x → step s q x y ≡ None };

    ghost command_outside: { (s : Self) (q x y : ℕ) → 2 ^ b s ≤ y → step s q x y ≡ None };

    ghost mark_outside: { (s : Self) (q : ℕ) → n s ≤ q → marked s q ≡ false };

    // With more than 256 states nothing is answered but that.
    ghost full_start: { (s : Self) → n s ≡ 257 → start s ≡ 0 };

    ghost full_step: { (s : Self) (q x y : ℕ) → n s ≡ 257 → step s q x y ≡ None };

    ghost full_mark: { (s : Self) (q : ℕ) → n s ≡ 257 → marked s q ≡ false };
}
