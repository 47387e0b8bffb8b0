// The whole promise, in the contract of one call.
ghost use Rattle.std.specs.Prelude.{◌≡◌, ℕ, ◌≤◌, length};
ghost use Rattle.automata.specs.Arena.{arena_of};
ghost use Rattle.games.specs.declared.verdict.Verdict.TheVariants.{Planned};
ghost use Rattle.games.specs.Meant.{Meant};
ghost use Rattle.games.specs.Verdicts.{verdict as verdict_on};
ghost use Rattle.planner.specs.Planned.{planned_answer, planned_buffer};
ghost use Rattle.assurance.specs.Statement.{Holds};
ghost use Rattle.assurance.specs.Assured.{verdict_of, Assured, DrivesOn};

use crate::calls::Entry;
use crate::conduct::conduct;
use crate::drive::Drive;
use crate::outcome::Outcome;
use automata::arena::Arena;
use automata::automaton::Automaton;
use games::verdict::Verdict;
use planner::Planner;
use planner::fault::PlanFault;
use sheets::Sheet;

// Opens a drive sheet, begins a drive on it and makes the calls of the entries.
fn drive_on(bytes: &[u8], entries: &mut [Entry]) -> Option<Drive>
    ensures { DrivesOn bytes.now entries.old entries.new result }
{
    let mut sheet = Sheet::built_in();
    sheet.open(bytes).ok()?;
    conduct(&sheet, entries).ok()
}

// Plans an arena; where the verdict is planned, opens what was written, begins a drive on it and makes
// the calls of the entries in turn, each answer written into its place. What is promised of it, for
// every arena, ground, plan and list of calls:
// - `answer`: the verdict, or the refusal; `buffer`: what the buffer then holds.
// - `meant`: what the verdict means for grounds and plans.
// - `runs`: what holds of every run of a drive whose answers are by the causes.
// - `assured`: what was written opens, the drive began, and its run keeps the promise; or the ground
//   that follows the written sheet is lawful and no plan fulfils the job against it; or no call is made.
pub fn assure<P: Arena>(
    planner: &mut Planner,
    arena: &P,
    buffer: &mut [u8],
    entries: &mut [Entry],
) -> Result<Outcome, PlanFault>
    ensures answer { verdict_of result ≡ planned_answer (arena_of P.Automaton P.Arena.own arena.now) (length buffer.old) }
    ensures buffer { buffer.new ≡ planned_buffer (arena_of P.Automaton P.Arena.own arena.now) buffer.old }
    ensures meant { P.Automaton.n arena.now ≤ 256 → Meant (arena_of P.Automaton P.Arena.own arena.now) }
    ensures runs { P.Automaton.n arena.now ≤ 256 → (rounds : ℕ) → verdict_on (arena_of P.Automaton P.Arena.own arena.now) ≡ Planned rounds → Holds (arena_of P.Automaton P.Arena.own arena.now) rounds }
    ensures assured { Assured (arena_of P.Automaton P.Arena.own arena.now) buffer.new entries.old entries.new result }
{
    let verdict = planner.plan(arena, buffer)?;
    let drive = match verdict {
        Verdict::Planned(_) => drive_on(buffer, entries),
        Verdict::Groundless | Verdict::Unplayable(_) => None,
    };
    Ok(Outcome { verdict, drive })
}
