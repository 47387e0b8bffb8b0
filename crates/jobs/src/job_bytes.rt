// The bytes of a job, once its head has been read.
ghost use Rattle.std.specs.Prelude.{◌≡◌, ◌≤◌, IfOk};
ghost use Rattle.std.specs.Result.{result_map_both};
ghost use Rattle.jobs.specs.FlatJob.{byte, form_byte, head_checked};

use crate::fault::JobFault;
use crate::form::Form;
use automata::bytes::Bytes;
use ltlf::widths::Widths;

// What the head says, and all bytes.
#[derive(Clone, Copy)]
pub(crate) struct JobBytes<'a> {
    pub(crate) widths: Widths,
    pub(crate) rights: u8,
    pub(crate) bytes: &'a [u8],
    ghost readings: { widths.reading_bits ≡ byte bytes.now 3 },
    ghost commands: { widths.command_bits ≡ byte bytes.now 4 },
    ghost numbered: { rights ≡ byte bytes.now 5 },
    ghost few: { rights ≤ 4 },
}

impl<'a> JobBytes<'a> {
    // Reads the head of a job of the form, or refuses it.
    pub(crate) fn read(form: Form, bytes: &'a [u8]) -> Result<JobBytes<'a>, JobFault>
        ensures told { result_map_both (λ j. tt) (λ e. e) result ≡ head_checked (form_byte form) bytes.now }
        ensures same { IfOk result (λ j. j.bytes.now ≡ bytes.now) }
    {
        if !form.leads(bytes) {
            return Err(JobFault::NotAJob);
        }
        let widths = Widths::new(bytes.at(3), bytes.at(4)).ok_or(JobFault::TooManyBits)?;
        let rights = bytes.at(5);
        if rights > 4 {
            return Err(JobFault::TooManyRights);
        }
        Ok(JobBytes {
            widths,
            rights,
            bytes,
        })
    }
}
