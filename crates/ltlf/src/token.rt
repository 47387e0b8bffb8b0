// What a byte of a text says.
ghost use Rattle.std.specs.Prelude.{◌≡◌};
ghost use Rattle.ltlf.specs.Tokens.{kind, token as meant, one_more, with_operator, terms_with};

use crate::fault::TextFault;
use crate::formula::{Binary, Unary};

#[derive(Clone, Copy)]
pub(crate) enum Token {
    Truth(bool),
    Digit(u8),
    Unary(Unary),
    Binary(Binary),
}

pub(crate) fn kind_of(byte: u8) -> Option<Token>
    ensures { result ≡ kind byte }
{
    match byte {
        b't' => Some(Token::Truth(true)),
        b'f' => Some(Token::Truth(false)),
        b'0'..=b'9' => Some(Token::Digit(byte - b'0')),
        b'!' => Some(Token::Unary(Unary::Not)),
        b'X' => Some(Token::Unary(Unary::Next)),
        b'F' => Some(Token::Unary(Unary::Eventually)),
        b'G' => Some(Token::Unary(Unary::Always)),
        b'&' => Some(Token::Binary(Binary::And)),
        b'|' => Some(Token::Binary(Binary::Or)),
        b'U' => Some(Token::Binary(Binary::Until)),
        _ => None,
    }
}

pub(crate) fn token_of(bits: u16, byte: u8) -> Result<Token, TextFault>
    ensures { result ≡ meant bits byte }
{
    match kind_of(byte).ok_or(TextFault::UnknownByte)? {
        Token::Digit(j) if j as u16 >= bits => Err(TextFault::DigitTooLarge),
        token => Ok(token),
    }
}

fn one_more(terms: u8) -> Result<u8, TextFault>
    ensures { result ≡ one_more terms }
{
    if terms < 3 {
        Ok(terms + 1)
    } else {
        Err(TextFault::NotRule)
    }
}

fn with_operator(temporal: bool, beneath: bool, terms: u8) -> Result<u8, TextFault>
    ensures { result ≡ with_operator temporal beneath terms }
{
    if !temporal {
        Ok(terms)
    } else if beneath {
        Err(TextFault::NotRule)
    } else {
        one_more(terms)
    }
}

impl Token {
    // The terms so far with this one, which stands beneath a temporal operator or beneath none.
    pub(crate) fn terms(self, beneath: bool, terms: u8) -> Result<u8, TextFault>
        ensures { result ≡ terms_with self beneath terms }
    {
        match self {
            Token::Truth(_) => Ok(terms),
            Token::Digit(_) => if beneath { Ok(terms) } else { one_more(terms) },
            Token::Unary(op) => with_operator(op.is_temporal(), beneath, terms),
            Token::Binary(op) => with_operator(op.is_temporal(), beneath, terms),
        }
    }
}
