// The lines of an automaton over a word: the states that it comes to, each with its mark.
ghost use Rattle.std.specs.Prelude.{◌≡◌, ◌++◌, string_bytes, IfOk, OnOk, Some};
ghost use Rattle.lines.specs.Rules.{state_line, round_line};

use automata::automaton::Automaton;
use automata::word::Round;
use std::alloc::AllocError;
use std::fmt;
use std::fmt::Write;

// A line: a state's number, and 1 where it is marked, else 0; or `none` where there is no state. It is
// printed without memory.
#[derive(Clone, Copy)]
pub struct StateLine {
    pub state: Option<u16>,
    pub marked: bool,
}

impl fmt::Display for StateLine {
    ghost output = { λ s. Some (round_line (λ q. s.marked) s.state) };

    fn fmt<W: fmt::Write>(&self, f: &mut fmt::Formatter<W>) -> fmt::Result {
        match self.state {
            None => f.write_str("none\n"),
            Some(state) => {
                let mark = u8::from(self.marked);
                writeln!(f, "{state} {mark}")
            }
        }
    }
}

impl StateLine {
    // The line of a state of an automaton, or of none.
    pub fn of<A: Automaton>(automaton: &A, state: Option<u16>) -> StateLine
        ensures { round_line (λ q. result.marked) result.state ≡ round_line (A.Automaton.marked automaton.now) state }
    {
        let marked = match state {
            None => false,
            Some(q) => automaton.marked(q),
        };
        StateLine { state, marked }
    }
}

// A state's line: its number, and 1 where it is marked, else 0.
pub fn show_state<A: Automaton>(out: &mut String, automaton: &A, q: u16) -> Result<(), AllocError>
    ensures { OnOk result (string_bytes out.new ≡ string_bytes out.old ++ state_line q (A.Automaton.marked automaton.now q)) }
{
    let line = StateLine::of(automaton, Some(q));
    write!(out, "{line}")
}

// The line after a round: that of the state stepped to, or `none`. Answers that state.
pub fn show_round<A: Automaton>(
    out: &mut String,
    automaton: &A,
    q: u16,
    round: Round,
) -> Result<Option<u16>, AllocError>
    ensures stepped { IfOk result (λ t. t ≡ A.Automaton.step automaton.now q round.reading round.command) }
    ensures shown { OnOk result (string_bytes out.new ≡ string_bytes out.old ++ round_line (A.Automaton.marked automaton.now) (A.Automaton.step automaton.now q round.reading round.command)) }
{
    let next = automaton.step(q, round.reading, round.command);
    let line = StateLine::of(automaton, next);
    write!(out, "{line}")?;
    Ok(next)
}
