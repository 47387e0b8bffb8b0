// A rule: a formula with few terms, none of which stands beneath another.
ghost use Rattle.std.specs.Prelude.{◌≡◌, ◌≤◌, true, length};
ghost use Rattle.ltlf.specs.Formulas.{shape, unnested, terms};

use crate::formula::Formula;
use crate::widths::Widths;

#[derive(Drop)]
pub struct Rule {
    pub(crate) widths: Widths,
    pub(crate) formula: Formula,
    ghost flat: { unnested (shape formula) ≡ true },
    ghost few: { length (terms (shape formula)) ≤ 3 },
}
