// Why a list of bytes is no job, layer by layer: a text's fault becomes a section's, and the job
// adds which section it is.
ghost use Rattle.std.specs.Prelude.{◌≡◌};
ghost use Rattle.jobs.specs.Faults.{fault_number, fault_section, section_number};
ghost use Rattle.jobs.specs.declared.fault.SectionFault.TheVariants.{Text as ByText};

use ltlf::fault::TextFault;

// Why a section that is well formed is refused.
#[derive(Clone, Copy, PartialEq, Eq, Debug)]
pub enum SectionFault {
    // The ground is a rule, held or marked.
    NotAGround,
    // A duty or a right has a step to none.
    StepsToNone,
    // A rule's text is refused.
    Text(TextFault),
}

// Why a job is refused.
#[derive(Clone, Copy, PartialEq, Eq, Debug)]
pub enum JobFault {
    // Fewer than eight bytes, or the first three are not those of a job.
    NotAJob,
    // More than three reading bits, or more than three command bits.
    TooManyBits,
    // More than four rights.
    TooManyRights,
    // A section is malformed, cut short or, if it is the last, followed by spare bytes. The ground is
    // section 0, the duty 1, right i is i + 1. What follows the head of a flat job counts as section 0.
    Malformed(u8),
    // The total is not the number of bytes.
    WrongTotal,
    // A section that is well formed is refused, the sections being numbered in the same way.
    Section(u8, SectionFault),
    // The arena has more than 256 states.
    TooManyStates,
}

impl From<TextFault> for SectionFault {
    ghost from_gives = { λ e r. r ≡ ByText e };

    fn from(fault: TextFault) -> SectionFault {
        SectionFault::Text(fault)
    }
}

impl SectionFault {
    fn number(&self) -> u8
        ensures { result ≡ section_number self.now }
    {
        match *self {
            SectionFault::NotAGround => 13,
            SectionFault::StepsToNone => 14,
            SectionFault::Text(_) => 15,
        }
    }
}

impl JobFault {
    // The number under which the refusal is known.
    pub fn number(&self) -> u8
        ensures { result ≡ fault_number self.now }
    {
        match *self {
            JobFault::NotAJob => 8,
            JobFault::TooManyBits => 9,
            JobFault::TooManyRights => 10,
            JobFault::Malformed(_) => 12,
            JobFault::WrongTotal => 11,
            JobFault::Section(_, fault) => fault.number(),
            JobFault::TooManyStates => 16,
        }
    }

    // The section that the refusal names, if it names one.
    pub fn section(&self) -> Option<u8>
        ensures { result ≡ fault_section self.now }
    {
        match *self {
            JobFault::Malformed(section) => Some(section),
            JobFault::Section(section, _) => Some(section),
            _ => None,
        }
    }
}
