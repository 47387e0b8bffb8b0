// The verdict on an arena, and the refusal to give one.
ghost use Rattle.std.specs.Prelude.{◌≡◌, Some};
ghost use Rattle.games.specs.Verdicts.{verdict_word, verdict_number, fault_number};

use std::fmt;

#[derive(Clone, Copy, PartialEq, Eq, Debug)]
pub enum Verdict {
    // No lawful ground exists.
    Groundless,
    // A plan exists; it takes at most so many rounds.
    Planned(u16),
    // No plan exists: the lowest right that is lost at the start, or 0.
    Unplayable(u8),
}

impl Verdict {
    pub fn number(&self) -> u16
        ensures { result ≡ verdict_number self.now }
    {
        match *self {
            Verdict::Groundless => 0,
            Verdict::Planned(rounds) => rounds,
            Verdict::Unplayable(right) => u16::from(right),
        }
    }
}

// A verdict prints as its word.
impl fmt::Display for Verdict {
    ghost output = { λ v. Some (verdict_word v) };

    fn fmt<W: fmt::Write>(&self, f: &mut fmt::Formatter<W>) -> fmt::Result {
        f.write_str(match self {
            Verdict::Groundless => "groundless",
            Verdict::Planned(_) => "planned",
            Verdict::Unplayable(_) => "unplayable",
        })
    }
}

#[derive(Clone, Copy, PartialEq, Eq, Debug)]
pub enum GameFault {
    // The arena has more than 256 states.
    TooManyStates,
}

impl GameFault {
    pub fn number(&self) -> u8
        ensures { result ≡ fault_number self.now }
    {
        match *self {
            GameFault::TooManyStates => 16,
        }
    }
}
