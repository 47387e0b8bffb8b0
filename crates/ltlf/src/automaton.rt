// The automaton of a rule.
ghost use Rattle.ltlf.specs.Formulas.{shape};
ghost use Rattle.ltlf.specs.Codes.{count as states, rule_step, rule_marked};
ghost use Rattle.ltlf.specs.CodeLaws.{codes_few, step_inside};
ghost use Rattle.std.proofs.Common.{rules, arith};

use crate::rule::Rule;
use automata::automaton::Automaton;
use automata::word::Round;

impl Automaton for Rule {
    ghost a = { λ s. s.widths.reading_bits };

    ghost b = { λ s. s.widths.command_bits };

    ghost n = { λ s. states (shape s.formula) };

    ghost start = { λ s. 0 };

    ghost marked = { λ s. rule_marked (shape s.formula) };

    ghost step = { λ s. rule_step s.widths.reading_bits s.widths.command_bits (shape s.formula) };

    ghost narrow = { Prim.search rules };

    ghost sized = { λ s. (Prim.omega arith, Prim.omega (arith, codes_few (shape s.formula) s.few)) };

    ghost begins = { Prim.search rules };

    ghost enters = { λ s q x y. step_inside s.widths.reading_bits s.widths.command_bits (shape s.formula) q x y };

    ghost state_outside = { Prim.search rules };

    ghost reading_outside = { Prim.search rules };

    ghost command_outside = { Prim.search rules };

    ghost mark_outside = { Prim.search rules };

    ghost full_start = { Prim.search rules };

    ghost full_step = { λ s q x y h. absurd (Prim.omega (arith, h, codes_few (shape s.formula) s.few)) };

    ghost full_mark = { λ s q h. absurd (Prim.omega (arith, h, codes_few (shape s.formula) s.few)) };

    fn reading_bits(&self) -> u8 {
        self.widths.reading_bits
    }

    fn command_bits(&self) -> u8 {
        self.widths.command_bits
    }

    fn count(&self) -> u16 {
        1 + self.formula.codes()
    }

    fn start(&self) -> u16 {
        0
    }

    fn marked(&self, q: u16) -> bool {
        q != 0 && q <= self.formula.codes() && self.formula.marked(q - 1)
    }

    fn step(&self, q: u16, x: u8, y: u8) -> Option<u16> {
        let a = self.widths.reading_bits;
        // Not `automata::widths`: the check refuses a step that passes its own automaton to it.
        let readings: u8 = 1 << a;
        let commands: u8 = 1 << self.widths.command_bits;
        if q > self.formula.codes() || x >= readings || y >= commands {
            return None;
        }
        let round = Round {
            reading: x,
            command: y,
        };
        let codes = q.saturating_sub(1);
        Some(1 + self.formula.step(a, q == 0, round, codes))
    }
}
