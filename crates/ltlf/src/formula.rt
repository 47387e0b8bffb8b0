// Formulas and their operators.
ghost use Rattle.std.specs.Prelude.{◌≡◌};
ghost use Rattle.ltlf.specs.Operators.{temporal1, temporal2, joined};

#[derive(Clone, Copy)]
pub enum Unary {
    Not,
    Next,
    Eventually,
    Always,
}

#[derive(Clone, Copy)]
pub enum Binary {
    And,
    Or,
    Until,
}

#[derive(Drop)]
pub enum Formula {
    Truth(bool),
    Digit(u8),
    Unary(Unary, Box<Formula>),
    Binary(Binary, Box<Formula>, Box<Formula>),
}

impl Unary {
    pub(crate) fn is_temporal(self) -> bool
        ensures { result ≡ temporal1 self }
    {
        !matches!(self, Unary::Not)
    }
}

impl Binary {
    pub(crate) fn is_temporal(self) -> bool
        ensures { result ≡ temporal2 self }
    {
        matches!(self, Binary::Until)
    }

    // The value of the two operands' values, where the operator is not temporal.
    pub(crate) fn join(self, p: bool, q: bool) -> bool
        ensures { result ≡ joined self p q }
    {
        match self {
            Binary::And => p && q,
            Binary::Or => p || q,
            Binary::Until => false,
        }
    }
}
