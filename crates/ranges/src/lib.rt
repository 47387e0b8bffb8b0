// Tests over the numbers below a bound, and a byte by its bits.
#![tactic(auto)]

pub mod bits;
