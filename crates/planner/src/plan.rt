// Planning an arena.
ghost use Rattle.std.specs.Prelude.{◌≡◌, ℕ, ◌≤◌, length, IfOk, Ok};
ghost use Rattle.automata.specs.Arena.{arena_of};
ghost use Rattle.games.specs.declared.verdict.Verdict.TheVariants.{Planned, Unplayable};
ghost use Rattle.games.specs.Meant.{Meant};
ghost use Rattle.games.specs.Tables.{lone};
ghost use Rattle.games.specs.Verdicts.{verdict as verdict_on};
ghost use Rattle.sheets.specs.Encoding.{sheet_length};
ghost use Rattle.sheets.specs.Laws.{OpensTo};
ghost use Rattle.planner.specs.ArenaTables.{arena_tables, arena_grounds};
ghost use Rattle.planner.specs.GroundReading.{ReadsBack};
ghost use Rattle.planner.specs.Writing.{written_answer, written_buffer};
ghost use Rattle.planner.specs.Planned.{planned_answer, sheet_for, planned_buffer, planner_arena};

use crate::Planner;
use crate::drive_sheet::write_drive_sheet;
use crate::drive_tables::DriveTables;
use crate::fault::{PlanFault, WriteFault};
use crate::ground_columns::GroundColumns;
use crate::ground_sheet::write_ground_sheet;
use crate::numbers::Numbers;
use crate::places::lay_out;
use automata::arena::Arena;
use automata::automaton::Automaton;
use games::solver::Solver;
use games::verdict::Verdict;
use std::alloc::{AllocError, Global};

// How long an arena's drive sheet is.
fn drive_sheet_length<P: Arena>(arena: &P) -> usize
    requires { P.Automaton.n arena.now ≤ 256 }
    ensures { result ≡ sheet_length (arena_tables (arena_of P.Automaton P.Arena.own arena.now)) }
{
    lay_out(Numbers::of(arena)).total
}

impl Planner {
    // A planner, with all the memory that it will use. It holds an arena of one state with no step.
    pub fn new(heap: Global) -> Result<Planner, AllocError>
        ensures { IfOk result (λ p. planner_arena p ≡ lone) }
    {
        let solver = Solver::new(heap)?;
        Ok(Planner { solver })
    }

    // Writes the sheet of the verdict on the arena that the planner holds.
    fn write(&self, verdict: Verdict, buffer: &mut [u8]) -> Result<(), WriteFault>
        requires { verdict ≡ verdict_on (planner_arena self.now) }
        ensures answer { result ≡ written_answer (sheet_for (planner_arena self.now) verdict) buffer.old }
        ensures buffer { buffer.new ≡ written_buffer (sheet_for (planner_arena self.now) verdict) buffer.old }
    {
        match verdict {
            Verdict::Groundless => Ok(()),
            Verdict::Planned(_) => write_drive_sheet(&self.solver, buffer),
            Verdict::Unplayable(_) => write_ground_sheet(&self.solver, buffer),
        }
    }

    // Plans an arena: answers the verdict on it and writes the verdict's sheet into the front of the
    // buffer. What a drive sheet and a ground sheet then tell, and what the verdict means for grounds
    // and plans, is part of the promise.
    pub fn plan<P: Arena>(&mut self, arena: &P, buffer: &mut [u8]) -> Result<Verdict, PlanFault>
        ensures answer { result ≡ planned_answer (arena_of P.Automaton P.Arena.own arena.now) (length buffer.old) }
        ensures buffer { buffer.new ≡ planned_buffer (arena_of P.Automaton P.Arena.own arena.now) buffer.old }
        ensures opens { (rounds : ℕ) → result ≡ Ok (Planned rounds) → OpensTo (arena_tables (arena_of P.Automaton P.Arena.own arena.now)) buffer.new }
        ensures reads { (right : ℕ) → result ≡ Ok (Unplayable right) → ReadsBack (arena_grounds (arena_of P.Automaton P.Arena.own arena.now) right) buffer.new }
        ensures meant { P.Automaton.n arena.now ≤ 256 → Meant (arena_of P.Automaton P.Arena.own arena.now) }
    {
        if arena.count() > 256 {
            return Err(PlanFault::TooManyStates);
        }
        if buffer.len() < drive_sheet_length(arena) {
            return Err(PlanFault::BufferTooShort);
        }
        let verdict = self.solver.solve(arena)?;
        self.write(verdict, buffer)?;
        Ok(verdict)
    }
}
