// The automaton of a section.
ghost use Rattle.std.specs.Prelude.{◌≡◌};
ghost use Rattle.jobs.specs.Meanings.{part_machine};
ghost use Rattle.jobs.specs.PartLaws.{part_sane};

use automata::automaton::Automaton;
use automata::held::Held;
use automata::table::Table;
use ltlf::rule::Rule;

#[derive(Drop)]
pub enum Part {
    Table(Table<Vec<u8>>),
    Rule(Rule),
    HeldTable(Held<Table<Vec<u8>>>),
    HeldRule(Held<Rule>),
}

// What the automaton within a part answers.
macro_rules! within {
    ($part:expr, $automaton:ident, $answer:expr) => {
        match $part {
            Part::Table($automaton) => $answer,
            Part::Rule($automaton) => $answer,
            Part::HeldTable($automaton) => $answer,
            Part::HeldRule($automaton) => $answer,
        }
    };
}

impl Automaton for Part {
    ghost a = { λ s. (part_machine s).a };

    ghost b = { λ s. (part_machine s).b };

    ghost n = { λ s. (part_machine s).n };

    ghost start = { λ s. (part_machine s).start };

    ghost marked = { λ s. (part_machine s).marked };

    ghost step = { λ s. (part_machine s).step };

    ghost narrow = { λ s. ((part_sane s).narrow_readings, (part_sane s).narrow_commands) };

    ghost sized = { λ s. ((part_sane s).some_state, (part_sane s).sized) };

    ghost begins = { λ s. (part_sane s).begins };

    ghost enters = { λ s. (part_sane s).enters };

    ghost state_outside = { λ s. (part_sane s).state_outside };

    ghost reading_outside = { λ s. (part_sane s).reading_outside };

    ghost command_outside = { λ s. (part_sane s).command_outside };

    ghost mark_outside = { λ s. (part_sane s).mark_outside };

    ghost full_start = { λ s. (part_sane s).full_start };

    ghost full_step = { λ s. (part_sane s).full_step };

    ghost full_mark = { λ s. (part_sane s).full_mark };

    fn reading_bits(&self) -> u8 {
        within!(self, automaton, automaton.reading_bits())
    }

    fn command_bits(&self) -> u8 {
        within!(self, automaton, automaton.command_bits())
    }

    fn count(&self) -> u16 {
        within!(self, automaton, automaton.count())
    }

    fn start(&self) -> u16 {
        within!(self, automaton, automaton.start())
    }

    fn marked(&self, q: u16) -> bool {
        within!(self, automaton, automaton.marked(q))
    }

    fn step(&self, q: u16, x: u8, y: u8) -> Option<u16> {
        within!(self, automaton, automaton.step(q, x, y))
    }
}
