// Formulas of linear temporal logic on finite words: their text, their meaning, and the automaton
// of a rule.
#![tactic(auto)]

pub mod automaton;
mod build;
pub mod check;
mod codes;
pub mod fault;
pub mod formula;
pub mod rule;
mod text;
mod token;
pub mod widths;
mod word;
