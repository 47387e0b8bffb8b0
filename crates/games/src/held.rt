// The arena that a solver holds.
ghost use Rattle.std.specs.Prelude.{◌≡◌};
ghost use Rattle.games.specs.Tables.{table_arena};
ghost use Rattle.games.specs.Solved.{solver_arena};

use crate::solver::Solver;
use crate::table::Table;

impl Solver {
    // The arena that was taken over last.
    pub fn arena(&self) -> &Table
        ensures { table_arena result.now ≡ solver_arena self.now }
    {
        &self.table
    }
}
