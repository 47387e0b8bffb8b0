// The check of a text, which builds nothing.
ghost use Rattle.std.specs.Prelude.{◌≡◌, ℕ, ◌+◌, ◌≤◌, length};
ghost use Rattle.ltlf.specs.Reading.{reads, checked, closed, passed};
ghost use Rattle.ltlf.specs.Codes.{sized};
ghost use Rattle.ltlf.specs.Passing.{Passes};
ghost use Rattle.ltlf.specs.Laws.{ReadsAs, Accepts, Refuses};

use crate::fault::TextFault;
use crate::token::{Token, token_of};

#[derive(Drop)]
struct Reader<'a> {
    rest: &'a [u8],
    bits: u16,
    terms: u8,
}

impl<'a> Reader<'a> {
    // Passes over the formula with which the rest begins.
    fn formula(&mut self, beneath: bool) -> Result<(), TextFault>
        ensures kept { self.new.bits ≡ self.old.bits }
        ensures shorter { length self.new.rest.now ≤ length self.old.rest.now }
        ensures told { (k : ℕ) → length self.old.rest.now ≤ k → Passes result self.new.terms self.new.rest.now (reads k self.old.bits beneath self.old.terms self.old.rest.now) }
    {
        let [byte, rest @ ..] = self.rest else {
            return Err(TextFault::TextEnds);
        };
        let token = token_of(self.bits, *byte)?;
        self.rest = rest;
        self.terms = token.terms(beneath, self.terms)?;
        match token {
            Token::Truth(_) => Ok(()),
            Token::Digit(_) => Ok(()),
            Token::Unary(op) => self.formula(beneath | op.is_temporal()),
            Token::Binary(op) => {
                let inner = beneath | op.is_temporal();
                self.formula(inner)?;
                self.formula(inner)
            }
        }
    }
}

// Behind the formula no byte may stand.
fn ended(bits: u16, rest: &[u8]) -> Result<(), TextFault>
    ensures { result ≡ closed bits rest.now }
{
    match rest {
        [] => Ok(()),
        [byte, ..] => {
            token_of(bits, *byte)?;
            Err(TextFault::ByteAfterEnd)
        }
    }
}

// Passes over a whole text, and answers how many terms it has.
fn examine(bits: u16, text: &[u8]) -> Result<u8, TextFault>
    ensures { result ≡ passed bits text.now }
{
    if text.is_empty() {
        return Err(TextFault::Empty);
    }
    if text.len() > 64 {
        return Err(TextFault::TooLong);
    }
    let mut reader = Reader {
        rest: text,
        bits,
        terms: 0,
    };
    reader.formula(false)?;
    ended(bits, reader.rest)?;
    Ok(reader.terms)
}

// How many states the automaton of a text's rule has, or why the text is no rule's. It builds nothing.
pub fn count_states(a: u8, b: u8, text: &[u8]) -> Result<u16, TextFault>
    ensures { result ≡ sized (a + b) text.now }
{
    let terms = examine(a as u16 + b as u16, text)?;
    Ok(1 + 3u16.pow(terms as u32))
}

// Decides whether a text is a rule's, and why it is not. A digit is compared with the sum of the two
// widths, whatever they are.
pub fn check(a: u8, b: u8, text: &[u8]) -> Result<(), TextFault>
    ensures told { result ≡ checked (a + b) text.now }
    ensures reads { ReadsAs (a + b) text.now }
    ensures accepts { Accepts (a + b) text.now result }
    ensures refuses { Refuses (a + b) text.now result }
{
    examine(a as u16 + b as u16, text).map(|_| ())
}
