// Reading a flat job: one table with all marks.
ghost use Rattle.std.specs.Prelude.{◌≡◌, ◌*◌, ◌^◌, ◌≤◌};
ghost use Rattle.jobs.specs.FlatJob.{byte, cells, states_fit, marks_fit, steps_fit, rest_fits, told, flat_job};

use crate::fault::JobFault;
use crate::form::Form;
use crate::job_bytes::JobBytes;
use automata::bytes::Bytes;
use automata::header::FlatHeader;
use automata::shape::Shape;
use ltlf::widths::Widths;

// How many step bytes a table has, of so many states.
pub(crate) fn cells_of(count: u8, widths: Widths) -> usize
    ensures value { result ≡ count * 2 ^ widths.reading_bits * 2 ^ widths.command_bits }
    ensures bound { result ≤ 16320 }
{
    let readings: usize = 1 << widths.reading_bits;
    let commands: usize = 1 << widths.command_bits;
    count as usize * readings * commands
}

// How many step bytes there are.
fn cells(job: &JobBytes) -> usize
    ensures value { result ≡ cells job.now.bytes.now }
    ensures bound { result ≤ 16320 }
{
    cells_of(job.bytes.at(6), job.widths)
}

// Whether there are 1 to 128 states, the start among them.
fn states_fit(job: &JobBytes) -> bool
    ensures { result ≡ states_fit job.now.bytes.now }
{
    let count = job.bytes.at(6);
    1 <= count && count <= 128 && job.bytes.at(7) < count
}

// Whether each mark byte has no bit above the last right's.
fn marks_fit(job: &JobBytes) -> bool
    ensures { result ≡ marks_fit job.now.bytes.now }
{
    let bound = 1u8 << (job.rights + 1);
    (0..job.bytes.at(6) as usize).all(|q| job.bytes.at(8 + q) < bound)
}

// Whether each step byte is a state or none.
fn steps_fit(job: &JobBytes) -> bool
    ensures { result ≡ steps_fit job.now.bytes.now }
{
    let count = job.bytes.at(6);
    let from = 8 + count as usize;
    (0..cells(job)).all(|i| job.bytes.at(from + i) < count || job.bytes.at(from + i) == 255)
}

// Whether what follows the head is well formed, and ends where it should.
fn rest_fits(job: &JobBytes) -> bool
    ensures { result ≡ rest_fits job.now.bytes.now }
{
    states_fit(job)
        && job.bytes.len() == 8 + job.bytes.at(6) as usize + cells(job)
        && marks_fit(job)
        && steps_fit(job)
}

// The head of a flat job, or the refusal. With the bytes it makes the job's arena.
pub fn read_flat(bytes: &[u8]) -> Result<FlatHeader, JobFault>
    ensures { told result ≡ flat_job bytes.now }
{
    let job = JobBytes::read(Form::Flat, bytes)?;
    if !rest_fits(&job) {
        return Err(JobFault::Malformed(0));
    }
    let shape = Shape {
        reading_bits: job.widths.reading_bits,
        command_bits: job.widths.command_bits,
        count: bytes.at(6),
        start: bytes.at(7),
    };
    Ok(FlatHeader {
        shape,
        rights: job.rights,
    })
}
