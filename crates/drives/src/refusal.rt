// Why a drive does not perform a call.
ghost use Rattle.std.specs.Prelude.{◌≡◌};
ghost use Rattle.drives.specs.Refusals.{refusal_number};

#[derive(Clone, Copy, PartialEq, Eq, Debug)]
pub enum Refusal {
    // A reading that has more bits than the sheet's.
    ReadingTooLarge,
    // A right that is not 1 to k.
    RightOutOfRange,
    // A command that has more bits than the sheet's.
    CommandTooLarge,
    // A state, column or waiting reading that the sheet does not have.
    DoesNotFit,
    // A read where no round is left.
    ReadAtZero,
    ReadingUnlawful,
    // A command outside the command set.
    CommandNotPermitted,
    ClaimedAlready,
    // The right's column does not rank the state.
    RightUnranked,
    // A stop where rounds are left, or none is shown.
    StopAboveZero,
    // Column 0 does not rank the start.
    StartUnranked,
}

impl Refusal {
    // The number under which the refusal is known.
    pub fn number(&self) -> u8
        ensures { result ≡ refusal_number self.now }
    {
        match *self {
            Refusal::ReadingTooLarge => 19,
            Refusal::RightOutOfRange => 20,
            Refusal::CommandTooLarge => 21,
            Refusal::DoesNotFit => 22,
            Refusal::ReadAtZero => 23,
            Refusal::ReadingUnlawful => 24,
            Refusal::CommandNotPermitted => 25,
            Refusal::ClaimedAlready => 26,
            Refusal::RightUnranked => 27,
            Refusal::StopAboveZero => 28,
            Refusal::StartUnranked => 29,
        }
    }
}

// A refusal, with the drive as it was.
#[derive(Drop)]
pub struct Refused<S> {
    pub state: S,
    pub why: Refusal,
}
