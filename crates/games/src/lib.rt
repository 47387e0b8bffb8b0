// What the ground and the plans can force in an arena: one staged search, and what it finds.
#![tactic(auto)]

mod answers;
mod copy;
mod grounds;
mod held;
mod moves;
mod regions;
mod rule;
mod rules;
mod search;
mod sets;
mod solve;
pub mod solver;
mod states;
pub mod table;
pub mod tabulate;
pub mod verdict;
