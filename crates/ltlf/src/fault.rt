// Why a text is refused, and why no rule is made from it.
ghost use Rattle.std.specs.Prelude.{◌≡◌};
ghost use Rattle.ltlf.specs.Numbers.{number as numbered, rule_number};
ghost use Rattle.ltlf.specs.declared.fault.RuleFault.TheVariants.{Text as ByText, Memory as NoMemory};

use std::alloc::AllocFailed;

#[derive(Clone, Copy, PartialEq, Eq, Debug)]
pub enum TextFault {
    Empty,
    TooLong,
    UnknownByte,
    DigitTooLarge,
    TextEnds,
    ByteAfterEnd,
    NotRule,
}

#[derive(Clone, Copy, PartialEq, Eq, Debug)]
pub enum RuleFault {
    Text(TextFault),
    Memory,
}

impl TextFault {
    pub fn number(&self) -> u8
        ensures { result ≡ numbered self.now }
    {
        match self {
            TextFault::Empty => 1,
            TextFault::TooLong => 2,
            TextFault::UnknownByte => 3,
            TextFault::DigitTooLarge => 4,
            TextFault::TextEnds => 5,
            TextFault::ByteAfterEnd => 6,
            TextFault::NotRule => 7,
        }
    }
}

impl RuleFault {
    pub fn number(&self) -> Option<u8>
        ensures { result ≡ rule_number self.now }
    {
        match self {
            RuleFault::Text(fault) => Some(fault.number()),
            RuleFault::Memory => None,
        }
    }
}

impl From<TextFault> for RuleFault {
    ghost from_gives = { λ e r. r ≡ ByText e };

    fn from(fault: TextFault) -> RuleFault {
        RuleFault::Text(fault)
    }
}

impl<T: Drop> From<AllocFailed<T>> for RuleFault {
    ghost from_gives = { λ _ r. r ≡ NoMemory };

    fn from(_e: AllocFailed<T>) -> RuleFault {
        RuleFault::Memory
    }
}
