// The three joining rules: broken states, a right's column, and the duty's column in the fence.
ghost use Rattle.std.specs.Prelude.{◌&&◌};
ghost use Rattle.games.specs.Regions.{nowhere, breaks, lawful_by, forces_by};
ghost use Rattle.games.specs.RuleLaws.{breaks_mono, column_mono};

use crate::moves::{breaks, forces};
use crate::rule::JoiningRule;
use crate::states::States;
use automata::arena::Arena;
use automata::automaton::Automaton;

pub(crate) struct Broken;

impl JoiningRule for Broken {
    ghost first = { λ s g. nowhere };

    ghost joins = { λ s g. breaks g };

    ghost grows = { λ s g inside. breaks_mono g inside };

    fn first<P: Arena>(&self, _arena: &P, _q: u16) -> bool {
        false
    }

    fn joins<P: Arena, S: States>(&self, arena: &P, set: &S, q: u16) -> bool {
        breaks(arena, set, q)
    }
}

// The column of a right, in the unbroken states.
#[derive(Drop)]
pub(crate) struct RightColumn<U> {
    pub(crate) unbroken: U,
    pub(crate) right: u8,
}

impl<U: States> JoiningRule for RightColumn<U> {
    ghost first = { λ s g q. U.States.has s.unbroken q && (g.marked q && g.right s.right q) };

    ghost joins = { λ s g S q. U.States.has s.unbroken q && forces_by g (lawful_by g (U.States.has s.unbroken)) S q };

    ghost grows = { λ s g inside. column_mono g inside _ _ };

    fn first<P: Arena>(&self, arena: &P, q: u16) -> bool {
        self.unbroken.has(q) && arena.marked(q) && arena.right(self.right, q)
    }

    fn joins<P: Arena, S: States>(&self, arena: &P, set: &S, q: u16) -> bool {
        self.unbroken.has(q) && forces(arena, &self.unbroken, set, q)
    }
}

// The duty's column, in the fence.
#[derive(Drop)]
pub(crate) struct DutyColumn<U, F> {
    pub(crate) unbroken: U,
    pub(crate) fence: F,
}

impl<U: States, F: States> JoiningRule for DutyColumn<U, F> {
    ghost first = { λ s g q. F.States.has s.fence q && g.marked q };

    ghost joins = { λ s g S q. F.States.has s.fence q && forces_by g (lawful_by g (U.States.has s.unbroken)) S q };

    ghost grows = { λ s g inside. column_mono g inside _ _ };

    fn first<P: Arena>(&self, arena: &P, q: u16) -> bool {
        self.fence.has(q) && arena.marked(q)
    }

    fn joins<P: Arena, S: States>(&self, arena: &P, set: &S, q: u16) -> bool {
        self.fence.has(q) && forces(arena, &self.unbroken, set, q)
    }
}
