// What is promised of plans, sheets and drives together.
#![tactic(auto)]

pub mod assure;
pub mod calls;
pub mod conduct;
pub mod drive;
pub mod outcome;
pub mod run;
