// The numbers of a sheet.
ghost use Rattle.std.specs.Prelude.{◌≡◌};

use automata::arena::Arena;
use automata::automaton::Automaton;

#[derive(Clone, Copy)]
pub struct Numbers {
    pub reading_bits: u8,
    pub command_bits: u8,
    pub rights: u8,
    // How many states there are.
    pub count: u16,
    pub start: u16,
}

impl Numbers {
    // Those of an arena's sheets.
    pub(crate) fn of<P: Arena>(arena: &P) -> Numbers
        ensures reading_bits { result.reading_bits ≡ P.Automaton.a arena.now }
        ensures command_bits { result.command_bits ≡ P.Automaton.b arena.now }
        ensures rights { result.rights ≡ P.Arena.k arena.now }
        ensures count { result.count ≡ P.Automaton.n arena.now }
        ensures start { result.start ≡ P.Automaton.start arena.now }
    {
        Numbers {
            reading_bits: arena.reading_bits(),
            command_bits: arena.command_bits(),
            rights: arena.rights(),
            count: arena.count(),
            start: arena.start(),
        }
    }
}
