// From bytes to the arena of a job.
ghost use Rattle.std.specs.Prelude.{◌≡◌, true, false};
ghost use Rattle.jobs.specs.FlatJob.{begins_as};
ghost use Rattle.jobs.specs.Loaded.{Loads, Composes};

use crate::check::read_sectioned;
use crate::flat::read_flat;
use crate::form::Form;
use crate::job::Job;
use crate::load::LoadFault;
use automata::flat::Flat;
use std::alloc::Global;

fn load_flat(heap: Global, bytes: &[u8]) -> Result<Job, LoadFault>
    requires { begins_as 70 bytes.now ≡ true }
    ensures { Loads bytes.now result }
{
    let header = read_flat(bytes)?;
    let bytes = bytes.to_vec(heap)?;
    Ok(Job::Flat(Flat { header, bytes }))
}

fn load_sectioned(heap: Global, bytes: &[u8]) -> Result<Job, LoadFault>
    requires { begins_as 70 bytes.now ≡ false }
    ensures { Loads bytes.now result }
{
    read_sectioned(bytes)?.load(heap)
}

// Makes the arena of a job's bytes, flat or in sections, or gives the first refusal that applies.
pub fn load(heap: Global, bytes: &[u8]) -> Result<Job, LoadFault>
    ensures loads { Loads bytes.now result }
    ensures composes { Composes bytes.now }
{
    if Form::Flat.leads(bytes) {
        load_flat(heap, bytes)
    } else {
        load_sectioned(heap, bytes)
    }
}
