// A drive on standard input: a line of numbers is a sheet, any other line is a call. Each line is
// answered by one line, and a sheet that begins a drive by two.
#![tactic(auto)]

use lines::drive::{Line, show_drive};
use lines::line::read_line;
use std::{env, fs};

// The file that the first argument names is the first sheet.
fn read_lines(rt: &HostRuntime) -> anyhow::Result<Vec<Line>> {
    let mut lines = Vec::new(rt.alloc());
    let mut args = env::args(rt)?;
    let _program = args.next();
    if let Some(path) = args.next() {
        lines.push(Line::Sheet(fs::read(rt, path.as_str())?))?;
    }
    for text in rt.lines(rt.alloc()) {
        lines.push(read_line(rt.alloc(), text?.as_str())?)?;
    }
    Ok(lines)
}

fn run(rt: &HostRuntime) -> anyhow::Result<()> {
    let lines = read_lines(rt)?;
    let out = show_drive(rt.alloc(), lines.as_slice())?;
    rt.print(out.as_str())?;
    Ok(())
}

fn main(rt: HostRuntime) -> anyhow::Result<()> {
    run(&rt)
}

#[cfg(test)]
mod tests;
