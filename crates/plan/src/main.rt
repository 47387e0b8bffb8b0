// Plans a job. Its bytes come as decimal numbers from standard input, or as they are from the file that
// the first argument names. Prints the verdict on it: of a planned job the rank and the command sets of
// every ranked state, of an unplayable one the columns of the ground sheet. With a second argument it
// also writes the sheet to the file of that name.
#![tactic(auto)]

use anyhow::anyhow;
use automata::arena::Arena;
use games::verdict::Verdict;
use jobs::load::LoadFault;
use jobs::read::load;
use lines::job::show_arena;
use lines::refusals::show_job_fault;
use planner::Planner;
use sheets::words::word_at;
use std::alloc::Global;
use std::{env, fs};

mod input;

// What is printed of a job, and its sheet, if it has one.
#[derive(Drop)]
struct Answer {
    lines: String,
    sheet: Option<Vec<u8>>,
}

// The sheet at the front of the buffer; the total stands at 18 in a drive sheet, at 14 in a ground sheet.
fn sheet_of(
    heap: Global,
    verdict: Option<Verdict>,
    buffer: &[u8],
) -> anyhow::Result<Option<Vec<u8>>> {
    let total_at = match verdict {
        None | Some(Verdict::Groundless) => return Ok(None),
        Some(Verdict::Planned(_)) => 18,
        Some(Verdict::Unplayable(_)) => 14,
    };
    let total = word_at(buffer, total_at) as usize;
    let sheet = buffer.iter().take(total).copied().collect(heap)?;
    Ok(Some(sheet))
}

// Plans an arena, with room for the longest sheet.
fn plan_arena<P: Arena>(heap: Global, arena: &P) -> anyhow::Result<Answer> {
    let mut planner = Planner::new(heap)?;
    let mut buffer = vec![in heap; 0u8; 65536]?;
    let mut lines = String::new(heap);
    let verdict = show_arena(&mut lines, &mut planner, arena, buffer.as_mut_slice())?;
    let sheet = sheet_of(heap, verdict, buffer.as_slice())?;
    Ok(Answer { lines, sheet })
}

fn plan_job(heap: Global, bytes: &[u8]) -> anyhow::Result<Answer> {
    match load(heap, bytes) {
        Ok(job) => plan_arena(heap, &job),
        Err(LoadFault::Refused(fault)) => {
            let mut lines = String::new(heap);
            show_job_fault(&mut lines, fault)?;
            Ok(Answer { lines, sheet: None })
        }
        Err(LoadFault::Memory) => Err(anyhow!("out of memory")),
    }
}

fn run(rt: &HostRuntime) -> anyhow::Result<()> {
    let mut args = env::args(rt)?;
    let _program = args.next();
    let job = match args.next() {
        Some(path) => fs::read(rt, path.as_str())?,
        None => input::read_numbers(rt)?,
    };
    let answer = plan_job(rt.alloc(), job.as_slice())?;
    if let (Some(path), Some(sheet)) = (args.next(), &answer.sheet) {
        fs::write(rt, path.as_str(), sheet.as_slice())?;
    }
    rt.print(answer.lines.as_str())?;
    Ok(())
}

fn main(rt: HostRuntime) -> anyhow::Result<()> {
    run(&rt)
}

#[cfg(test)]
mod tests;
