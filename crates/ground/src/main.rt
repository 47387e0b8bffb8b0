// Tries to beat an unplayable job: the first line of standard input is a job's bytes as decimal numbers,
// and each line after it is a command. Prints the verdict's line, and where it is unplayable the ground's
// reading before any command and after each, as the written ground sheet tells it.
#![tactic(auto)]

use anyhow::anyhow;
use assurance::assure::assure;
use assurance::outcome::Outcome;
use automata::arena::Arena;
use automata::automaton::Automaton;
use automata::widths::commands;
use games::verdict::Verdict;
use jobs::load::LoadFault;
use jobs::read::load;
use lines::refusals::{show_job_fault, show_refusal};
use lines::verdict::show_verdict;
use lines::words::{ReadFault, read_bytes, read_capped};
use planner::Planner;
use planner::ground_reading::ground_reading;
use std::alloc::{AllocError, Global};
use std::fmt::Write;

// Where the ground has come to: a state, and the column that it follows there.
#[derive(Clone, Copy)]
struct Place {
    state: u16,
    column: u8,
}

// The lowest of the rights' columns that has a reading at a state, or 0.
fn column_at(sheet: &[u8], rights: u8, state: u16) -> u8 {
    (1..=rights)
        .find(|column| ground_reading(sheet, *column, state).unwrap_or(255) != 255)
        .unwrap_or(0)
}

// A right's column is followed for good.
fn turn(sheet: &[u8], rights: u8, column: u8, state: u16) -> Place {
    if column == 0 {
        Place {
            state,
            column: column_at(sheet, rights, state),
        }
    } else {
        Place { state, column }
    }
}

fn reading_at(sheet: &[u8], place: Place) -> u8 {
    ground_reading(sheet, place.column, place.state).unwrap_or(255)
}

fn show_reading(out: &mut String, sheet: &[u8], place: Place) -> anyhow::Result<()> {
    let reading = reading_at(sheet, place);
    writeln!(out, "reading {reading}")?;
    Ok(())
}

// One command: where the ground then is.
fn command<P: Arena>(
    out: &mut String,
    arena: &P,
    sheet: &[u8],
    place: Place,
    number: u8,
) -> anyhow::Result<Place> {
    if number >= commands(arena) {
        show_refusal(out, 21)?;
        return Ok(place);
    }
    let Some(state) = arena.step(place.state, reading_at(sheet, place), number) else {
        return Err(anyhow!("the ground was led to none"));
    };
    let next = turn(sheet, arena.rights(), place.column, state);
    show_reading(out, sheet, next)?;
    Ok(next)
}

fn follow<P: Arena>(
    out: &mut String,
    arena: &P,
    sheet: &[u8],
    numbers: &[u8],
) -> anyhow::Result<()> {
    let mut place = turn(sheet, arena.rights(), 0, arena.start());
    show_reading(out, sheet, place)?;
    for number in numbers {
        place = command(out, arena, sheet, place, *number)?;
    }
    Ok(())
}

// Everything that is printed of an arena.
fn play_arena<P: Arena>(heap: Global, arena: &P, numbers: &[u8]) -> anyhow::Result<String> {
    let mut out = String::new(heap);
    let mut planner = Planner::new(heap)?;
    let mut buffer = vec![in heap; 0u8; 65536]?;
    match assure(&mut planner, arena, buffer.as_mut_slice(), &mut []) {
        Err(fault) => show_refusal(&mut out, fault.number())?,
        Ok(Outcome { verdict, drive: _ }) => {
            show_verdict(&mut out, verdict, arena.count(), arena.rights())?;
            if let Verdict::Unplayable(_) = verdict {
                follow(&mut out, arena, buffer.as_slice(), numbers)?;
            }
        }
    }
    Ok(out)
}

// Everything that is printed of a job and a list of commands.
fn play(heap: Global, job: &[u8], numbers: &[u8]) -> anyhow::Result<String> {
    match load(heap, job) {
        Ok(job) => play_arena(heap, &job, numbers),
        Err(LoadFault::Refused(fault)) => {
            let mut out = String::new(heap);
            show_job_fault(&mut out, fault)?;
            Ok(out)
        }
        Err(LoadFault::Memory) => Err(anyhow!("out of memory")),
    }
}

// The bytes of the job, on the first line.
fn job_line(heap: Global, line: &str) -> anyhow::Result<Vec<u8>> {
    let mut job = Vec::new(heap);
    match read_bytes(&mut job, line) {
        Ok(()) => Ok(job),
        Err(ReadFault::NotBytes) => {
            Err(anyhow!("the first line is not a list of numbers from 0 to 255"))
        }
        Err(ReadFault::Memory) => Err(AllocError.into()),
    }
}

// A command. A number above 255 stands as 255, which is too large for every job.
fn command_line(line: &str) -> anyhow::Result<u8> {
    let Some(number) = read_capped(line.trim()) else {
        return Err(anyhow!("a line is not a command's number"));
    };
    Ok(number)
}

fn run(rt: &HostRuntime) -> anyhow::Result<()> {
    let mut job = Vec::new(rt.alloc());
    let mut numbers = Vec::new(rt.alloc());
    let mut lines = rt.lines(rt.alloc());
    // Where there is no first line the input is at its end, and is not read again.
    if let Some(line) = lines.next() {
        job = job_line(rt.alloc(), line?.as_str())?;
        for line in lines {
            numbers.push(command_line(line?.as_str())?)?;
        }
    }
    let out = play(rt.alloc(), job.as_slice(), numbers.as_slice())?;
    rt.print(out.as_str())?;
    Ok(())
}

fn main(rt: HostRuntime) -> anyhow::Result<()> {
    run(&rt)
}
