// What a solver answers of the arena that it holds.
ghost use Rattle.std.specs.Prelude.{◌≡◌, ◌-◌, ◌<◌, ◌≤◌, ◌&&◌, ◌==◌, if◌then◌else◌, Some, None, nat_eq, nat_lt, [], slice_index, slice_index_or};
ghost use Rattle.games.specs.Regions.{lawful, unbroken, fence, ranked, rank};
ghost use Rattle.games.specs.Columns.{rank_in};
ghost use Rattle.games.specs.Verdicts.{verdict, lacking};
ghost use Rattle.games.specs.Solved.{solver_arena};

use crate::moves::is_lawful;
use crate::solver::Solver;
use crate::states::{Fence, States, Unranked};
use crate::verdict::Verdict;
use automata::arena::Arena;
use automata::automaton::Automaton;

impl Solver {
    // What is stored of a state in a column that there is.
    fn stored_rank(&self, column: u8, q: u16) -> u16
        requires there { column ≤ (solver_arena self.now).k }
        requires inside { q < (solver_arena self.now).n }
        ensures { result ≡ (if nat_eq column 0 then slice_index self.now.regions.duty q else slice_index (slice_index_or self.now.regions.rights (column - 1) []) q) }
    {
        if column == 0 {
            self.regions.duty[q as usize]
        } else {
            self.regions.rights[column as usize - 1][q as usize]
        }
    }

    // The rank of a state in a column: by its definition a number, 65535 where the state has none.
    pub fn rank(&self, column: u8, q: u16) -> u16
        ensures { result ≡ rank_in (solver_arena self.now) column q }
    {
        if column <= self.table.rights && q < self.table.count {
            self.stored_rank(column, q)
        } else {
            65535
        }
    }

    // Whether a column has no rank for a state.
    pub(crate) fn lacks(&self, column: u8, q: u16) -> bool
        ensures { result ≡ (rank_in (solver_arena self.now) column q == 65535) }
    {
        self.rank(column, q) == 65535
    }

    // The unbroken states.
    fn unbroken(&self) -> Unranked<'_>
        ensures { (λ q. nat_lt q result.count && slice_index result.ranks.now q == 65535) ≡ unbroken (solver_arena self.now) }
    {
        Unranked {
            ranks: self.regions.broken.as_slice(),
            count: self.table.count,
        }
    }

    pub(crate) fn is_unbroken(&self, q: u16) -> bool
        ensures { result ≡ unbroken (solver_arena self.now) q }
    {
        self.unbroken().has(q)
    }

    pub(crate) fn is_fenced(&self, q: u16) -> bool
        ensures { result ≡ fence (solver_arena self.now) q }
    {
        let fence = Fence {
            broken: self.regions.broken.as_slice(),
            rights: &self.regions.rights,
            columns: self.table.rights,
            count: self.table.count,
        };
        fence.has(q)
    }

    // Whether a reading is lawful at a state.
    pub fn is_lawful(&self, q: u16, x: u8) -> bool
        ensures { result ≡ lawful (solver_arena self.now) q x }
    {
        is_lawful(&self.table, &self.unbroken(), q, x)
    }

    // The lowest right whose column lacks the state, or 0.
    fn lacking(&self, q: u16) -> u8
        ensures { result ≡ lacking (solver_arena self.now) q }
    {
        (1..self.table.rights + 1)
            .find(|right| self.lacks(*right, q))
            .unwrap_or(0)
    }

    // In how many rounds the duty is carried from a state, if it is.
    fn rounds(&self, q: u16) -> Option<u16>
        ensures { result ≡ (if ranked (solver_arena self.now) 0 q then Some (rank (solver_arena self.now) 0 q) else None) }
    {
        let rank = self.rank(0, q);
        (rank != 65535).then_some(rank)
    }

    // The verdict on the arena that the solver holds.
    pub fn verdict(&self) -> Verdict
        ensures { result ≡ verdict (solver_arena self.now) }
    {
        let start = self.table.start;
        if !self.is_unbroken(start) {
            return Verdict::Groundless;
        }
        match self.rounds(start) {
            Some(rounds) => Verdict::Planned(rounds),
            None => Verdict::Unplayable(self.lacking(start)),
        }
    }
}
