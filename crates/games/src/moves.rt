// What commands and readings can do at a state, with respect to a set of states.
ghost use Rattle.std.specs.Prelude.{◌≡◌, ℕ, ◌^◌, Bool, true, false};
ghost use Rattle.ranges.specs.Ranges.{all, any};
ghost use Rattle.automata.specs.Steps.{onward};
ghost use Rattle.automata.specs.Arena.{arena_of};
ghost use Rattle.games.specs.Regions.{breaks, lawful_by, forces_by};

use crate::states::States;
use automata::arena::Arena;
use automata::automaton::Automaton;
use automata::widths::{commands, readings};

// Whether the command steps into the set; `none` is the answer where it steps to none.
fn lands<P: Arena, S: States>(arena: &P, set: &S, none: bool, q: u16, x: u8, y: u8) -> bool
    ensures { result ≡ onward (P.Automaton.step arena.now q x y) none (S.States.has set.now) }
{
    arena.step(q, x, y).map_or(none, |t| set.has(t))
}

// Whether every command on the reading steps into the set.
pub(crate) fn all_enter<P: Arena, S: States>(arena: &P, set: &S, q: u16, x: u8) -> bool
    ensures { result ≡ all (2 ^ P.Automaton.b arena.now) (λ y. onward (P.Automaton.step arena.now q x y) false (S.States.has set.now)) }
{
    (0..commands(arena)).all(|y| lands(arena, set, false, q, x, y))
}

// Whether some command on the reading steps into the set; `none` is the answer of one that steps to none.
fn any_lands<P: Arena, S: States>(arena: &P, set: &S, none: bool, q: u16, x: u8) -> bool
    ensures { result ≡ any (2 ^ P.Automaton.b arena.now) (λ y. onward (P.Automaton.step arena.now q x y) none (S.States.has set.now)) }
{
    (0..commands(arena)).any(|y| lands(arena, set, none, q, x, y))
}

// Whether every reading has a command that steps to none or into the set.
pub(crate) fn breaks<P: Arena, S: States>(arena: &P, set: &S, q: u16) -> bool
    ensures { result ≡ breaks (arena_of P.Automaton P.Arena.own arena.now) (S.States.has set.now) q }
{
    (0..readings(arena)).all(|x| any_lands(arena, set, true, q, x))
}

// Whether the reading is lawful at the state, `unbroken` being the unbroken states.
pub(crate) fn is_lawful<P: Arena, U: States>(arena: &P, unbroken: &U, q: u16, x: u8) -> bool
    ensures { result ≡ lawful_by (arena_of P.Automaton P.Arena.own arena.now) (U.States.has unbroken.now) q x }
{
    unbroken.has(q) && all_enter(arena, unbroken, q, x)
}

// Whether every lawful reading has a command into the set.
pub(crate) fn forces<P: Arena, U: States, S: States>(
    arena: &P,
    unbroken: &U,
    set: &S,
    q: u16,
) -> bool
    ensures { result ≡ forces_by (arena_of P.Automaton P.Arena.own arena.now) (lawful_by (arena_of P.Automaton P.Arena.own arena.now) (U.States.has unbroken.now)) (S.States.has set.now) q }
{
    (0..readings(arena)).all(|x| {
        !is_lawful(arena, unbroken, q, x) || any_lands(arena, set, false, q, x)
    })
}
