// Reads a formula's text, the widths and a word, and follows the rule's automaton over the word.
#![tactic(auto)]

use anyhow::anyhow;
use automata::automaton::Automaton;
use lines::refusals::RefusalLine;
use lines::rule::StateLine;
use lines::words::read_pair;
use ltlf::fault::RuleFault;
use ltlf::rule::Rule;
use ltlf::widths::Widths;
use std::alloc::Global;
use std::io::{BufRead, BufReader, Stdin};

#[cfg(test)]
mod tests;

// Why a line is not two numbers.
fn pair_fault(line: &str) -> anyhow::Error {
    let mut words = line.split_whitespace();
    let (Some(first), Some(second), None) = (words.next(), words.next(), words.next()) else {
        return anyhow!("a line wants two numbers");
    };
    match (first.parse::<u64>(), second.parse::<u64>()) {
        (Err(fault), _) => anyhow::Error::from(fault),
        (Ok(_), Err(fault)) => anyhow::Error::from(fault),
        (Ok(_), Ok(_)) => anyhow!("a line wants two numbers"),
    }
}

fn pair(line: &str) -> anyhow::Result<(u8, u8)> {
    match read_pair(line) {
        Some(pair) => Ok(pair),
        None => Err(pair_fault(line)),
    }
}

// The bytes before the first line's end.
fn text_line(heap: Global, input: &mut impl BufRead) -> anyhow::Result<Vec<u8>> {
    let mut text = Vec::new(heap);
    input.read_until(b'\n', &mut text)?;
    if text.as_slice().last().copied() == Some(b'\n') {
        text.pop();
    }
    Ok(text)
}

// Shows the start and the state after each round, up to one that is out of range.
fn follow(rt: &HostRuntime, rule: &Rule, input: BufReader<Stdin>) -> anyhow::Result<()> {
    let mut q = rule.start();
    rt.print(StateLine::of(rule, Some(q)))?;
    for line in input.lines(rt.alloc()) {
        let (reading, command) = pair(line?.as_str())?;
        let next = rule.step(q, reading, command);
        rt.print(StateLine::of(rule, next))?;
        match next {
            Some(state) => q = state,
            None => break,
        }
    }
    Ok(())
}

fn refuse(rt: &impl Print, fault: RuleFault) -> anyhow::Result<()> {
    let Some(number) = fault.number() else {
        return Err(anyhow!("no memory"));
    };
    rt.print(RefusalLine { number })?;
    Ok(())
}

fn run(rt: &HostRuntime) -> anyhow::Result<()> {
    let mut input = BufReader::new(rt.alloc(), rt.stdin())?;
    let text = text_line(rt.alloc(), &mut input)?;
    let mut line = String::new(rt.alloc());
    input.read_line(&mut line)?;
    let (a, b) = pair(line.as_str())?;
    let Some(widths) = Widths::new(a, b) else {
        return Err(anyhow!("a width is above three"));
    };
    match Rule::from_text(rt.alloc(), widths, text.as_slice()) {
        Ok(rule) => follow(rt, &rule, input),
        Err(fault) => refuse(rt, fault),
    }
}

fn main(rt: HostRuntime) -> anyhow::Result<()> {
    run(&rt)
}
