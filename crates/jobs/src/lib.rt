// Job files: from bytes to the arena of a job, or the refusal.
#![tactic(auto)]

mod assemble;
pub mod check;
mod count;
pub mod fault;
pub mod flat;
mod form;
pub mod job;
mod job_bytes;
pub mod load;
pub mod part;
pub mod read;
mod section;
mod sections;
