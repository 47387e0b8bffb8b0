// The bits of a round.
ghost use Rattle.std.specs.Prelude.{◌≡◌};
ghost use Rattle.ltlf.specs.Words.{digit_bit};

use automata::word::Round;
use ranges::bits::has_bit;

// The bit that a digit stands for: below `a` one of the reading, else one of the command.
pub(crate) fn digit_bit(round: Round, a: u8, digit: u8) -> bool
    ensures { result ≡ digit_bit a round digit }
{
    if digit < a {
        has_bit(round.reading, digit)
    } else {
        has_bit(round.command, digit - a)
    }
}
