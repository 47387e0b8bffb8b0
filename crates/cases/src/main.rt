// Runs stored vectors through the library. Each is an input of one of the programs plan, rule and
// drive, with the lines that the program prints for it. An independent program made them, but for
// those whose name says that they are written by hand. A line is printed for each vector that comes
// out otherwise, and for each kind a line with the counts.
#![tactic(auto)]

use std::alloc::Global;
use std::{fmt, fs};

mod answers;
mod compare;
mod vectors;

use answers::{Planning, drive_answers, rule_answers};
use compare::difference;
use vectors::{Case, read_cases};

// The program whose input a vector is.
#[derive(Clone, Copy, Drop)]
enum Kind {
    Plan,
    Rule,
    Drive,
}

impl fmt::Display for Kind {
    fn fmt<W: fmt::Write>(&self, f: &mut fmt::Formatter<W>) -> fmt::Result {
        f.write_str(match self {
            Kind::Plan => "plan",
            Kind::Rule => "rule",
            Kind::Drive => "drive",
        })
    }
}

// What the library makes of an input.
fn answer(
    heap: Global,
    planning: &mut Planning,
    kind: Kind,
    input: &str,
) -> anyhow::Result<String> {
    match kind {
        Kind::Plan => planning.job_answer(heap, input),
        Kind::Rule => rule_answers(heap, input),
        Kind::Drive => drive_answers(heap, input),
    }
}

// Whether the vector comes out otherwise; if so, prints the first line where.
fn differs(
    rt: &HostRuntime,
    planning: &mut Planning,
    kind: Kind,
    case: &Case,
) -> anyhow::Result<bool> {
    let made = answer(rt.alloc(), planning, kind, case.input.as_str())?;
    let Some(lines) = difference(rt.alloc(), case.expected.as_str(), made.as_str())? else {
        return Ok(false);
    };
    let name = case.name.as_str();
    println!(rt; "{kind} {name} differs: {lines}")?;
    Ok(true)
}

// Runs the vectors of a file, and prints how many there are and how many come out otherwise.
fn run_kind(
    rt: &HostRuntime,
    planning: &mut Planning,
    kind: Kind,
    path: &str,
) -> anyhow::Result<()> {
    let text = fs::read_to_string(rt, path)?;
    let cases = read_cases(rt.alloc(), text.as_str())?;
    let mut differences = 0u32;
    for case in cases.as_slice() {
        if differs(rt, planning, kind, case)? {
            differences = differences.saturating_add(1);
        }
    }
    let count = cases.len();
    println!(rt; "{kind}: {count} cases, {differences} differences")?;
    Ok(())
}

fn run(rt: &HostRuntime) -> anyhow::Result<()> {
    let mut planning = Planning::new(rt.alloc())?;
    run_kind(rt, &mut planning, Kind::Plan, "plan.txt")?;
    run_kind(rt, &mut planning, Kind::Rule, "rule.txt")?;
    run_kind(rt, &mut planning, Kind::Drive, "drive.txt")
}

fn main(rt: HostRuntime) -> anyhow::Result<()> {
    run(&rt)
}
