// A joining rule, by the set that it begins with and the states that it adds.
ghost use Rattle.std.specs.Prelude.{◌≡◌, ℕ, Bool};
ghost use Rattle.automata.specs.Arena.{Arena as Answers, arena_of};
ghost use Rattle.games.specs.Search.{Monotone, StepsInside};

use crate::states::States;
use automata::arena::Arena;
use automata::automaton::Automaton;

pub(crate) trait JoiningRule {
    ghost first: { Self → Answers → ℕ → Bool };

    ghost joins: { Self → Answers → (ℕ → Bool) → ℕ → Bool };

    fn first<P: Arena>(&self, arena: &P, q: u16) -> bool
        ensures { result ≡ first self.now (arena_of P.Automaton P.Arena.own arena.now) q };

    // Whether a state joins, given a set.
    fn joins<P: Arena, S: States>(&self, arena: &P, set: &S, q: u16) -> bool
        ensures { result ≡ joins self.now (arena_of P.Automaton P.Arena.own arena.now) (S.States.has set.now) q };

    // A rule never loses a state when its set grows.
    ghost grows: { (s : Self) (g : Answers) → StepsInside g → Monotone g.n (joins s g) };
}
