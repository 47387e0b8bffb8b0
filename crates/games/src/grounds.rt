// The ground columns that a solver answers.
ghost use Rattle.std.specs.Prelude.{◌≡◌, ℕ, ◌^◌, ◌≤◌, Bool, true, false, ◌&&◌, ◌==◌};
ghost use Rattle.ranges.specs.Ranges.{least};
ghost use Rattle.games.specs.Columns.{rank_in, ground_byte_in};
ghost use Rattle.games.specs.GroundColumns.{region, kept, holds_off};
ghost use Rattle.games.specs.Solved.{solver_arena};

use crate::moves::all_enter;
use crate::solver::Solver;
use crate::states::States;
use automata::arena::Arena;
use automata::automaton::Automaton;
use automata::widths::readings;

// The states that a column of a solver lacks.
#[derive(Drop)]
struct Lacking<'a> {
    solver: &'a Solver,
    column: u8,
}

impl States for Lacking<'_> {
    ghost has = { λ s q. (rank_in (solver_arena s.solver.now) s.column q == 65535) };

    fn has(&self, q: u16) -> bool {
        self.solver.lacks(self.column, q)
    }
}

impl Solver {
    // Whether the state is one of those of a column.
    fn is_in(&self, column: u8, q: u16) -> bool
        ensures { result ≡ region (solver_arena self.now) column q }
    {
        if column == 0 {
            self.is_fenced(q)
        } else {
            self.is_unbroken(q)
        }
    }

    // Whether a column of the ground has a reading at the state.
    fn is_kept(&self, column: u8, q: u16) -> bool
        requires { column ≤ (solver_arena self.now).k }
        ensures { result ≡ kept (solver_arena self.now) column q }
    {
        self.is_in(column, q) && self.lacks(column, q)
    }

    // Whether a reading is lawful and has every command step to a state that the column lacks.
    fn holds_off(&self, column: u8, q: u16, x: u8) -> bool
        requires { column ≤ (solver_arena self.now).k }
        ensures { result ≡ holds_off (solver_arena self.now) column q x }
    {
        let lacking = Lacking {
            solver: self,
            column,
        };
        self.is_lawful(q, x) && all_enter(&self.table, &lacking, q, x)
    }

    // The lowest such reading, or the number of readings where there is none.
    fn least_held_off(&self, column: u8, q: u16) -> u8
        requires { column ≤ (solver_arena self.now).k }
        ensures { result ≡ least (2 ^ (solver_arena self.now).a) (holds_off (solver_arena self.now) column q) }
    {
        let count = readings(&self.table);
        (0..count)
            .find(|x| self.holds_off(column, q, *x))
            .unwrap_or(count)
    }

    // The byte of a ground column at a state: the reading by which the ground keeps the state
    // unranked, or 255.
    pub fn ground_byte(&self, column: u8, q: u16) -> u8
        ensures { result ≡ ground_byte_in (solver_arena self.now) column q }
    {
        if column <= self.table.rights && self.is_kept(column, q) {
            self.least_held_off(column, q)
        } else {
            255
        }
    }
}
