// The planner: the sheets of any tables and columns, and the sheet of an arena.
#![tactic(auto)]

use games::solver::Solver;

pub mod drive_sheet;
pub mod drive_tables;
pub mod fault;
mod fill;
pub mod ground_columns;
pub mod ground_reading;
pub mod ground_sheet;
pub mod numbers;
mod places;
mod plan;
pub mod solved;

// A planner, which takes its memory once.
#[derive(Drop)]
pub struct Planner {
    pub(crate) solver: Solver,
}
