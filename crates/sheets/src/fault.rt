// Why a sheet is not opened.
ghost use Rattle.std.specs.Prelude.{◌≡◌};
ghost use Rattle.sheets.specs.Faults.{fault_number};

#[derive(Clone, Copy, PartialEq, Eq, Debug)]
pub enum SheetFault {
    Malformed,
}

impl SheetFault {
    // The number under which the refusal is known.
    pub fn number(self) -> u8
        ensures { result ≡ fault_number self }
    {
        match self {
            SheetFault::Malformed => 18,
        }
    }
}
