// The lines of refusals.
ghost use Rattle.std.specs.Prelude.{◌≡◌, ◌++◌, string_bytes, OnOk, Some};
ghost use Rattle.jobs.specs.Faults.{fault_number, fault_section};
ghost use Rattle.lines.specs.Refusals.{refused_line, section_line};

use jobs::fault::JobFault;
use std::alloc::AllocError;
use std::fmt;
use std::fmt::Write;

// The line of a refusal that has nothing but its number, to be printed without memory.
#[derive(Clone, Copy)]
pub struct RefusalLine {
    pub number: u8,
}

impl fmt::Display for RefusalLine {
    ghost output = { λ r. Some (refused_line r.number) };

    fn fmt<W: fmt::Write>(&self, f: &mut fmt::Formatter<W>) -> fmt::Result {
        let number = self.number;
        writeln!(f, "refused {number}")
    }
}

// The line of a refusal that has nothing but its number.
pub fn show_refusal(out: &mut String, number: u8) -> Result<(), AllocError>
    ensures { OnOk result (string_bytes out.new ≡ string_bytes out.old ++ refused_line number) }
{
    writeln!(out, "refused {number}")
}

// The line of a job's refusal.
pub fn show_job_fault(out: &mut String, fault: JobFault) -> Result<(), AllocError>
    ensures { OnOk result (string_bytes out.new ≡ string_bytes out.old ++ section_line (fault_number fault) (fault_section fault)) }
{
    let number = fault.number();
    match fault.section() {
        None => show_refusal(out, number),
        Some(section) => writeln!(out, "refused {number} {section}"),
    }
}
