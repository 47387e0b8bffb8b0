// What is printed of a job: the verdict's line, and then the lines of its sheet; or the refusal.
ghost use Rattle.std.specs.Prelude.{◌≡◌, ℕ, true, ◌++◌, length, string_bytes, IfOk, OnOk};
ghost use Rattle.automata.specs.Arena.{arena_of};
ghost use Rattle.sheets.specs.Format.{tables_of};
ghost use Rattle.sheets.specs.Whole.{whole};
ghost use Rattle.planner.specs.Planned.{planned_answer, planned_buffer};
ghost use Rattle.lines.specs.Ranks.{rank_lines};
ghost use Rattle.lines.specs.Jobs.{verdict_in, arena_text, job_verdict, job_buffer, job_text};

use crate::columns::show_columns;
use crate::ranks::show_ranks;
use crate::refusals::{show_job_fault, show_refusal};
use crate::verdict::show_verdict;
use assurance::assure::assure;
use automata::arena::Arena;
use automata::automaton::Automaton;
use games::verdict::Verdict;
use jobs::load::LoadFault;
use jobs::read::load;
use planner::Planner;
use sheets::Sheet;
use std::alloc::{AllocError, Global};

// The lines of a drive sheet that is well formed.
fn show_sheet(out: &mut String, bytes: &[u8]) -> Result<(), AllocError>
    requires { whole bytes.now ≡ true }
    ensures { OnOk result (string_bytes out.new ≡ string_bytes out.old ++ rank_lines (tables_of bytes.now)) }
{
    let mut sheet = Sheet::built_in();
    sheet.open(bytes).unwrap();
    show_ranks(out, &sheet)
}

// Appends what is printed of an arena: it is planned, with no calls to make, and its sheet written into
// the buffer. Answers the verdict, if there is one.
pub fn show_arena<P: Arena>(
    out: &mut String,
    planner: &mut Planner,
    arena: &P,
    buffer: &mut [u8],
) -> Result<Option<Verdict>, AllocError>
    ensures verdict { IfOk result (λ v. v ≡ verdict_in (planned_answer (arena_of P.Automaton P.Arena.own arena.now) (length buffer.old))) }
    ensures buffer { buffer.new ≡ planned_buffer (arena_of P.Automaton P.Arena.own arena.now) buffer.old }
    ensures text { OnOk result (string_bytes out.new ≡ string_bytes out.old ++ arena_text (arena_of P.Automaton P.Arena.own arena.now) (length buffer.old)) }
{
    match assure(planner, arena, buffer, &mut []) {
        Err(fault) => {
            show_refusal(out, fault.number())?;
            Ok(None)
        }
        Ok(outcome) => {
            let verdict = outcome.verdict;
            show_verdict(out, verdict, arena.count(), arena.rights())?;
            match verdict {
                Verdict::Groundless => {}
                Verdict::Planned(_) => show_sheet(out, buffer)?,
                Verdict::Unplayable(_) => show_columns(out, arena, buffer)?,
            }
            Ok(Some(verdict))
        }
    }
}

// Appends what is printed of a job's bytes, its arena planned in the same way.
pub fn show_job(
    out: &mut String,
    heap: Global,
    planner: &mut Planner,
    bytes: &[u8],
    buffer: &mut [u8],
) -> Result<Option<Verdict>, AllocError>
    ensures verdict { IfOk result (λ v. v ≡ job_verdict bytes.now (length buffer.old)) }
    ensures buffer { IfOk result (λ v. buffer.new ≡ job_buffer bytes.now buffer.old) }
    ensures text { OnOk result (string_bytes out.new ≡ string_bytes out.old ++ job_text bytes.now (length buffer.old)) }
{
    match load(heap, bytes) {
        Ok(job) => show_arena(out, planner, &job, buffer),
        Err(LoadFault::Refused(fault)) => {
            show_job_fault(out, fault)?;
            Ok(None)
        }
        Err(LoadFault::Memory) => Err(AllocError),
    }
}
