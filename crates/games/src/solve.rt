// Solving an arena.
ghost use Rattle.std.specs.Prelude.{◌≡◌, ℕ, ◌<◌, ◌≤◌, IfOk, if◌then◌else◌, nat_le};
ghost use Rattle.automata.specs.Arena.{arena_of};
ghost use Rattle.games.specs.Meant.{Meant};
ghost use Rattle.games.specs.Settled.{SettledRegions};
ghost use Rattle.games.specs.Tables.{lone};
ghost use Rattle.games.specs.Solved.{solver_arena};
ghost use Rattle.games.specs.Verdicts.{answer};

use crate::regions::Regions;
use crate::solver::Solver;
use crate::table::Table;
use crate::verdict::{GameFault, Verdict};
use automata::arena::Arena;
use automata::automaton::Automaton;
use std::alloc::{AllocError, Global};

impl Solver {
    // A solver, with all the memory that it will use. It holds an arena of one state with no step.
    pub fn new(heap: Global) -> Result<Solver, AllocError>
        ensures { IfOk result (λ s. solver_arena s ≡ lone) }
    {
        let table = Table::new(heap)?;
        let regions = Regions::of(&table);
        Ok(Solver { table, regions })
    }

    // Takes over an arena of at most 256 states and finds its regions.
    fn take_over<P: Arena>(&mut self, arena: &P)
        requires { P.Automaton.n arena.now ≤ 256 }
        ensures { solver_arena self.new ≡ arena_of P.Automaton P.Arena.own arena.now }
    {
        self.table.copy(arena);
        self.regions = Regions::of(&self.table);
    }

    // Takes over an arena, finds its regions, and answers the verdict on it. What the verdict means
    // for grounds and plans is part of the promise.
    pub fn solve<P: Arena>(&mut self, arena: &P) -> Result<Verdict, GameFault>
        ensures answer { result ≡ answer (arena_of P.Automaton P.Arena.own arena.now) }
        ensures holds { solver_arena self.new ≡ (if nat_le (P.Automaton.n arena.now) 256 then arena_of P.Automaton P.Arena.own arena.now else solver_arena self.old) }
        ensures refused { 256 < P.Automaton.n arena.now → self.new ≡ self.old }
        ensures meant { P.Automaton.n arena.now ≤ 256 → Meant (arena_of P.Automaton P.Arena.own arena.now) }
        ensures settled { SettledRegions (arena_of P.Automaton P.Arena.own arena.now) }
    {
        if arena.count() > 256 {
            return Err(GameFault::TooManyStates);
        }
        self.take_over(arena);
        Ok(self.verdict())
    }
}
