// The formula of a text that the check has passed.
ghost use Rattle.std.specs.Prelude.{◌≡◌, ℕ, ◌≤◌, true, List, ◌++◌, length};
ghost use Rattle.ltlf.specs.Formulas.{Ltl, prefix, digits_below};
ghost use Rattle.ltlf.specs.Passing.{Builds};

use crate::fault::{RuleFault, TextFault};
use crate::formula::Formula;
use crate::token::{Token, kind_of};
use std::alloc::Global;

#[derive(Drop)]
pub(crate) struct Builder<'a> {
    pub(crate) rest: &'a [u8],
}

impl<'a> Builder<'a> {
    // Builds the formula with which the rest begins.
    pub(crate) fn formula(&mut self, heap: Global) -> Result<Formula, RuleFault>
        ensures shorter { length self.new.rest.now ≤ length self.old.rest.now }
        ensures built { (bits : ℕ) (p : Ltl) (after : List ℕ) → self.old.rest.now ≡ prefix p ++ after → digits_below bits p ≡ true → Builds result self.new.rest.now p after }
    {
        let [byte, rest @ ..] = self.rest else {
            return Err(TextFault::TextEnds.into());
        };
        self.rest = rest;
        match kind_of(*byte).ok_or(TextFault::UnknownByte)? {
            Token::Truth(v) => Ok(Formula::Truth(v)),
            Token::Digit(j) => Ok(Formula::Digit(j)),
            Token::Unary(op) => {
                let p = self.formula(heap)?;
                Ok(Formula::Unary(op, Box::new(heap, p)?))
            }
            Token::Binary(op) => {
                let p = self.formula(heap)?;
                let q = self.formula(heap)?;
                Ok(Formula::Binary(op, Box::new(heap, p)?, Box::new(heap, q)?))
            }
        }
    }
}
