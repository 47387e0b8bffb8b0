// The sheets of the arena that a solver holds.
ghost use Rattle.games.specs.Solved.{solver_arena};
ghost use Rattle.games.specs.Verdicts.{verdict};
ghost use Rattle.planner.specs.ArenaTables.{arena_tables, arena_grounds, lost_right};
ghost use Rattle.games.specs.Solved;
ghost use Rattle.games.proofs.SolverLaws.{solver_lawful};
ghost use Rattle.planner.specs.ArenaLaws.{tables_in_range, grounds_in_range};

use crate::drive_tables::DriveTables;
use crate::ground_columns::GroundColumns;
use crate::numbers::Numbers;
use automata::automaton::Automaton;
use automata::widths::readings;
use games::solver::Solver;
use games::verdict::Verdict;
use ranges::bits::bits_where;

impl DriveTables for Solver {
    ghost tables = { λ s. arena_tables (solver_arena s) };

    ghost in_range = { λ s. tables_in_range (Solved.solver_arena s) (solver_lawful s) };

    fn numbers(&self) -> Numbers {
        Numbers::of(self.arena())
    }

    fn lawful_byte(&self, state: u16) -> u8 {
        bits_where(readings(self.arena()), |reading| {
            self.is_lawful(state, reading)
        })
    }

    fn step(&self, state: u16, reading: u8, command: u8) -> Option<u16> {
        self.arena().step(state, reading, command)
    }

    fn rank(&self, column: u8, state: u16) -> u16 {
        self.rank(column, state)
    }

    fn set_byte(&self, column: u8, state: u16, reading: u8) -> u8 {
        self.command_set(column, state, reading)
    }
}

impl GroundColumns for Solver {
    ghost columns = { λ s. arena_grounds (solver_arena s) (lost_right (verdict (solver_arena s))) };

    ghost in_range = { λ s. grounds_in_range (Solved.solver_arena s) (solver_lawful s) };

    fn numbers(&self) -> Numbers {
        Numbers::of(self.arena())
    }

    fn number(&self) -> u8 {
        match self.verdict() {
            Verdict::Groundless | Verdict::Planned(_) => 0,
            Verdict::Unplayable(right) => right,
        }
    }

    fn ground_byte(&self, column: u8, state: u16) -> u8 {
        self.ground_byte(column, state)
    }
}
