// Why a sheet is not written, and why an arena is not planned.
ghost use Rattle.std.specs.Prelude.{◌≡◌};
ghost use Rattle.planner.specs.declared.fault.PlanFault.TheVariants.{TooManyStates as ManyStates, BufferTooShort as ShortBuffer};
ghost use Rattle.planner.specs.Faults.{write_fault_number, plan_fault_number};

use games::verdict::GameFault;

#[derive(Clone, Copy, PartialEq, Eq, Debug)]
pub enum WriteFault {
    // The buffer is shorter than the sheet.
    TooShort,
}

impl WriteFault {
    // The number under which the refusal is known.
    pub fn number(self) -> u8
        ensures { result ≡ write_fault_number self }
    {
        match self {
            WriteFault::TooShort => 17,
        }
    }
}

#[derive(Clone, Copy, PartialEq, Eq, Debug)]
pub enum PlanFault {
    // The arena has more than 256 states.
    TooManyStates,
    // The buffer is shorter than the arena's drive sheet.
    BufferTooShort,
}

impl PlanFault {
    // The number under which the refusal is known.
    pub fn number(self) -> u8
        ensures { result ≡ plan_fault_number self }
    {
        match self {
            PlanFault::TooManyStates => 16,
            PlanFault::BufferTooShort => 17,
        }
    }
}

impl From<GameFault> for PlanFault {
    ghost from_gives = { λ _ r. r ≡ ManyStates };

    fn from(_fault: GameFault) -> PlanFault {
        PlanFault::TooManyStates
    }
}

impl From<WriteFault> for PlanFault {
    ghost from_gives = { λ _ r. r ≡ ShortBuffer };

    fn from(_fault: WriteFault) -> PlanFault {
        PlanFault::BufferTooShort
    }
}
