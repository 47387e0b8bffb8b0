// The check of a job, which makes nothing.
ghost use Rattle.std.specs.Prelude.{◌≡◌, IfOk};
ghost use Rattle.std.specs.Result.{result_map_both};
ghost use Rattle.jobs.specs.JobFile.{turn, form_at, ground_at, none_at, text_at, ended, few_states, sections_checked, sectioned_checked, job_checked};

use crate::fault::{JobFault, SectionFault};
use crate::flat::read_flat;
use crate::form::Form;
use crate::job_bytes::JobBytes;
use automata::bytes::Bytes;

impl<'a> JobBytes<'a> {
    // Each section is well formed.
    fn check_forms(&self) -> Result<(), JobFault>
        ensures { result ≡ turn form_at self.now.bytes.now }
    {
        (0..self.rights + 2).try_for_each(|i| {
            if self.section(i).fits() {
                Ok(())
            } else {
                Err(JobFault::Malformed(i))
            }
        })
    }

    // No byte stands behind the last section.
    fn check_end(&self) -> Result<(), JobFault>
        ensures { result ≡ ended self.now.bytes.now }
    {
        let last = self.rights + 1;
        if self.section(last).end() == self.bytes.len() {
            Ok(())
        } else {
            Err(JobFault::Malformed(last))
        }
    }

    // The first section is a ground.
    fn check_ground(&self) -> Result<(), JobFault>
        ensures { result ≡ turn ground_at self.now.bytes.now }
    {
        if self.section(0).is_ground() {
            Ok(())
        } else {
            Err(JobFault::Section(0, SectionFault::NotAGround))
        }
    }

    // No duty or right steps to none.
    fn check_steps(&self) -> Result<(), JobFault>
        ensures { result ≡ turn none_at self.now.bytes.now }
    {
        (0..self.rights + 2).try_for_each(|i| {
            if i == 0 || self.section(i).goes_on() {
                Ok(())
            } else {
                Err(JobFault::Section(i, SectionFault::StepsToNone))
            }
        })
    }

    // Each rule's text is one.
    fn check_texts(&self) -> Result<(), JobFault>
        ensures { result ≡ turn text_at self.now.bytes.now }
    {
        (0..self.rights + 2).try_for_each(|i| {
            self.section(i)
                .text_fault()
                .map_err(|fault| JobFault::Section(i, fault))
        })
    }

    // The arena has at most 256 states.
    fn check_states(&self) -> Result<(), JobFault>
        ensures { result ≡ few_states self.now.bytes.now }
    {
        if self.arena_states() <= 256 {
            Ok(())
        } else {
            Err(JobFault::TooManyStates)
        }
    }

    fn check_sections(&self) -> Result<(), JobFault>
        ensures { result ≡ sections_checked self.now.bytes.now }
    {
        self.check_forms()?;
        self.check_end()?;
        self.check_ground()?;
        self.check_steps()?;
        self.check_texts()?;
        self.check_states()
    }
}

// A job in sections, or the refusal.
pub(crate) fn read_sectioned(bytes: &[u8]) -> Result<JobBytes<'_>, JobFault>
    ensures told { result_map_both (λ j. tt) (λ e. e) result ≡ sectioned_checked bytes.now }
    ensures same { IfOk result (λ j. j.bytes.now ≡ bytes.now) }
{
    let job = JobBytes::read(Form::Sections, bytes)?;
    let total = u16::from_le_bytes([bytes.at(6), bytes.at(7)]);
    if total as usize != bytes.len() {
        return Err(JobFault::WrongTotal);
    }
    job.check_sections()?;
    Ok(job)
}

// Decides whether bytes are a job, and why they are not: the first refusal that applies.
pub fn check_job(bytes: &[u8]) -> Result<(), JobFault>
    ensures { result ≡ job_checked bytes.now }
{
    if Form::Flat.leads(bytes) {
        read_flat(bytes)?;
    } else {
        read_sectioned(bytes)?;
    }
    Ok(())
}
