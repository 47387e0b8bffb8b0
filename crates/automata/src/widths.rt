// How many readings and commands an automaton has.
ghost use Rattle.std.specs.Prelude.{◌≡◌, ◌^◌};

use crate::automaton::Automaton;

pub fn readings<P: Automaton>(automaton: &P) -> u8
    ensures { result ≡ 2 ^ P.Automaton.a automaton.now }
{
    1 << automaton.reading_bits()
}

pub fn commands<P: Automaton>(automaton: &P) -> u8
    ensures { result ≡ 2 ^ P.Automaton.b automaton.now }
{
    1 << automaton.command_bits()
}
