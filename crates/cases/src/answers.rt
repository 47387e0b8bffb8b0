// What the programs print of an input, made by the library.
use anyhow::anyhow;
use automata::automaton::Automaton;
use automata::word::Round;
use jobs::load::LoadFault;
use jobs::read::load;
use lines::drive::show_drive;
use lines::job::show_arena;
use lines::line::read_line;
use lines::refusals::{show_job_fault, show_refusal};
use lines::rule::{show_round, show_state};
use lines::words::{ReadFault, read_bytes, read_pair};
use ltlf::rule::Rule;
use ltlf::widths::Widths;
use planner::Planner;
use std::alloc::{AllocError, Global};
use std::str::Lines;

fn job_message(fault: ReadFault) -> anyhow::Error {
    match fault {
        ReadFault::NotBytes => anyhow!("a job is not a list of numbers from 0 to 255"),
        ReadFault::Memory => AllocError.into(),
    }
}

// The planner and the buffer that serve every job.
#[derive(Drop)]
pub struct Planning {
    planner: Planner,
    buffer: Vec<u8>,
}

impl Planning {
    pub fn new(heap: Global) -> anyhow::Result<Planning> {
        let planner = Planner::new(heap)?;
        let buffer = vec![in heap; 0u8; 65536]?;
        Ok(Planning { planner, buffer })
    }

    // The program `plan`: a job's bytes, shown as decimal numbers.
    pub fn job_answer(&mut self, heap: Global, input: &str) -> anyhow::Result<String> {
        let mut job = Vec::new(heap);
        read_bytes(&mut job, input).map_err(job_message)?;
        let mut out = String::new(heap);
        match load(heap, job.as_slice()) {
            Ok(job) => {
                show_arena(
                    &mut out,
                    &mut self.planner,
                    &job,
                    self.buffer.as_mut_slice(),
                )?;
            }
            Err(LoadFault::Refused(fault)) => show_job_fault(&mut out, fault)?,
            Err(LoadFault::Memory) => return Err(anyhow!("out of memory")),
        }
        Ok(out)
    }
}

// The program `drive`: sheets and calls, a line each.
pub fn drive_answers(heap: Global, input: &str) -> anyhow::Result<String> {
    let mut lines = Vec::new(heap);
    for text in input.lines() {
        lines.push(read_line(heap, text)?)?;
    }
    Ok(show_drive(heap, lines.as_slice())?)
}

fn pair(line: &str) -> anyhow::Result<(u8, u8)> {
    if let Some(pair) = read_pair(line) {
        return Ok(pair);
    }
    let mut words = line.split_whitespace();
    if let (Some(first), Some(second), None) = (words.next(), words.next(), words.next()) {
        first.parse::<u64>()?;
        second.parse::<u64>()?;
    }
    Err(anyhow!("a line wants two numbers"))
}

fn follow(out: &mut String, rule: &Rule, rounds: Lines) -> anyhow::Result<()> {
    let mut q = rule.start();
    show_state(out, rule, q)?;
    for line in rounds {
        let (reading, command) = pair(line)?;
        let Some(next) = show_round(out, rule, q, Round { reading, command })? else {
            break;
        };
        q = next;
    }
    Ok(())
}

// The program `rule`: a formula's text, the widths and the rounds of a word, a line each.
pub fn rule_answers(heap: Global, input: &str) -> anyhow::Result<String> {
    let mut lines = input.lines();
    let (Some(text), Some(second)) = (lines.next(), lines.next()) else {
        return Err(anyhow!("a rule wants a text and its widths"));
    };
    let (a, b) = pair(second)?;
    let widths = Widths::new(a, b).ok_or(anyhow!("a width is above three"))?;
    let mut out = String::new(heap);
    match Rule::from_text(heap, widths, text.as_bytes()) {
        Ok(rule) => follow(&mut out, &rule, lines)?,
        Err(fault) => show_refusal(&mut out, fault.number().ok_or(anyhow!("no memory"))?)?,
    }
    Ok(out)
}
