// Automata and arenas by their answers, and the arena of a flat job.
#![tactic(auto)]

pub mod arena;
pub mod automaton;
pub mod bytes;
pub mod duty;
pub mod flat;
pub mod header;
pub mod held;
mod pairs;
pub mod right;
pub mod shape;
pub mod table;
pub mod widths;
pub mod word;
