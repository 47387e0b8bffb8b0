// The command sets that a solver answers.
ghost use Rattle.std.specs.Prelude.{◌≡◌, ℕ, ◌^◌, Bool, true, false, nat_lt};
ghost use Rattle.automata.specs.Steps.{onward};
ghost use Rattle.games.specs.Columns.{rank_in, permits_in, set_in};
ghost use Rattle.games.specs.Solved.{solver_arena};

use crate::solver::Solver;
use automata::arena::Arena;
use automata::automaton::Automaton;
use automata::widths::commands;
use ranges::bits::bits_where;

impl Solver {
    // Whether the command steps to a state of lower rank.
    fn lowers(&self, column: u8, q: u16, x: u8, y: u8) -> bool
        ensures { result ≡ onward ((solver_arena self.now).step q x y) false (λ t. nat_lt (rank_in (solver_arena self.now) column t) (rank_in (solver_arena self.now) column q)) }
    {
        self.table
            .step(q, x, y)
            .is_some_and(|t| self.rank(column, t) < self.rank(column, q))
    }

    // Whether a column's command set at a state, on a reading, holds the command.
    pub fn permits(&self, column: u8, q: u16, x: u8, y: u8) -> bool
        ensures { result ≡ permits_in (solver_arena self.now) column q x y }
    {
        !self.lacks(column, q) && self.is_lawful(q, x) && self.lowers(column, q, x, y)
    }

    // That command set as a byte: bit y is set where it holds the command y.
    pub fn command_set(&self, column: u8, q: u16, x: u8) -> u8
        ensures { result ≡ set_in (solver_arena self.now) column q x }
    {
        bits_where(commands(&self.table), |y| self.permits(column, q, x, y))
    }
}
