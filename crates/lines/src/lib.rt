// What the programs print, and how they read numbers and lines: texts as values. A function that writes
// may want memory; then nothing is promised of the text, the bytes or the buffer that it was lent.
#![tactic(auto)]

pub mod columns;
pub mod drive;
pub mod job;
pub mod line;
pub mod ranks;
pub mod refusals;
pub mod rule;
#[cfg(test)]
mod tests;
pub mod verdict;
pub mod words;
