// The rule of a text.
ghost use Rattle.std.specs.Prelude.{◌≡◌, Ok};
ghost use Rattle.ltlf.specs.Reading.{checked};
ghost use Rattle.ltlf.specs.Making.{bits_of, Makes, JudgesWords, NumbersStates};
ghost use Rattle.ltlf.specs.contracts.automaton.RuleAutomaton.TheImpl.{ghosts as automatic};

use crate::build::Builder;
use crate::check::check;
use crate::fault::RuleFault;
use crate::rule::Rule;
use crate::widths::Widths;
use std::alloc::Global;

// Builds the rule of a text that the check has passed.
fn build(heap: Global, widths: Widths, text: &[u8]) -> Result<Rule, RuleFault>
    requires { checked (bits_of widths) text.now ≡ Ok tt }
    ensures makes { Makes widths text.now result }
    ensures judges { JudgesWords automatic widths text.now result }
    ensures numbers { NumbersStates automatic widths text.now result }
{
    let mut builder = Builder { rest: text };
    let formula = builder.formula(heap)?;
    Ok(Rule { widths, formula })
}

impl Rule {
    // Makes the rule of a text. A text that is read as p makes an automaton that judges words by p.
    pub fn from_text(heap: Global, widths: Widths, text: &[u8]) -> Result<Rule, RuleFault>
        ensures makes { Makes widths text.now result }
        ensures judges { JudgesWords automatic widths text.now result }
        ensures numbers { NumbersStates automatic widths text.now result }
    {
        check(widths.reading_bits, widths.command_bits, text)?;
        build(heap, widths, text)
    }
}
