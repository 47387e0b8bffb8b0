// The codes of a formula's terms, round by round.
ghost use Rattle.std.specs.Prelude.{◌≡◌, ◌<◌, ◌≤◌, cond, length};
ghost use Rattle.ltlf.specs.Formulas.{shape, terms};
ghost use Rattle.ltlf.specs.Codes.{shows, while_open, one_code, until_code, codes as coded, stepped, one_mark, marks};

use crate::formula::{Formula, Unary};
use crate::word::digit_bit;
use automata::word::Round;

fn opened(c: u16, then: u16) -> u16
    ensures { result ≡ while_open c then }
{
    if c == 0 { then } else { c }
}

fn code(value: bool) -> u16
    ensures { result ≡ cond value 1 2 }
{
    if value { 1 } else { 2 }
}

fn until_code(p: bool, q: bool, c: u16) -> u16
    ensures { result ≡ until_code p q c }
{
    let missed = if p { 0 } else { 2 };
    opened(c, if q { 1 } else { missed })
}

impl Unary {
    // The code after a round in which the operand holds or does not.
    fn code(self, first: bool, p: bool, c: u16) -> u16
        ensures { result ≡ one_code self first p c }
    {
        match self {
            Unary::Not => c,
            Unary::Next => if first { 0 } else { opened(c, code(p)) },
            Unary::Eventually => opened(c, if p { 1 } else { 0 }),
            Unary::Always => opened(c, if p { 0 } else { 2 }),
        }
    }

    fn marks(self, c: u16) -> bool
        ensures { result ≡ one_mark self c }
    {
        match self {
            Unary::Not => false,
            Unary::Next => c == 1,
            Unary::Eventually => c == 1,
            Unary::Always => c != 2,
        }
    }
}

impl Formula {
    // Whether the formula, which has no temporal operator, holds in a round.
    pub(crate) fn shown(&self, a: u8, round: Round) -> bool
        ensures { result ≡ shows a round (shape self.now) }
    {
        match self {
            Formula::Truth(v) => *v,
            Formula::Digit(j) => digit_bit(round, a, *j),
            Formula::Unary(op, p) => if op.is_temporal() {
                false
            } else {
                !p.shown(a, round)
            },
            Formula::Binary(op, p, q) => op.join(p.shown(a, round), q.shown(a, round)),
        }
    }

    pub(crate) fn codes(&self) -> u16
        requires { length (terms (shape self.now)) ≤ 3 }
        ensures { result ≡ coded (shape self.now) }
    {
        match self {
            Formula::Truth(_) => 1,
            Formula::Digit(_) => 3,
            Formula::Unary(op, p) => if op.is_temporal() { 3 } else { p.codes() },
            Formula::Binary(op, p, q) => if op.is_temporal() {
                3
            } else {
                p.codes() * q.codes()
            },
        }
    }

    // The codes after a round, which is the first or a later one.
    pub(crate) fn step(&self, a: u8, first: bool, round: Round, c: u16) -> u16
        requires few { length (terms (shape self.now)) ≤ 3 }
        requires within { c < coded (shape self.now) }
        ensures bound { result < coded (shape self.now) }
        ensures value { result ≡ stepped a first round (shape self.now) c }
    {
        match self {
            Formula::Truth(_) => 0,
            Formula::Digit(j) => if first {
                code(digit_bit(round, a, *j))
            } else {
                c
            },
            Formula::Unary(op, p) => {
                if op.is_temporal() {
                    op.code(first, p.shown(a, round), c)
                } else {
                    p.step(a, first, round, c)
                }
            }
            Formula::Binary(op, p, q) => {
                if op.is_temporal() {
                    until_code(p.shown(a, round), q.shown(a, round), c)
                } else {
                    let k = p.codes();
                    let u = p.step(a, first, round, c % k);
                    let v = q.step(a, first, round, c / k);
                    u + k * v
                }
            }
        }
    }

    // The formula's value by its terms' codes.
    pub(crate) fn marked(&self, c: u16) -> bool
        requires { length (terms (shape self.now)) ≤ 3 }
        ensures { result ≡ marks (shape self.now) c }
    {
        match self {
            Formula::Truth(v) => *v,
            Formula::Digit(_) => c == 1,
            Formula::Unary(op, p) => if op.is_temporal() {
                op.marks(c)
            } else {
                !p.marked(c)
            },
            Formula::Binary(op, p, q) => {
                if op.is_temporal() {
                    c == 1
                } else {
                    let k = p.codes();
                    op.join(p.marked(c % k), q.marked(c / k))
                }
            }
        }
    }
}
