// A line of a drive's input.
ghost use Rattle.std.specs.Prelude.{◌≡◌, List, ◌++◌, Some};
ghost use Rattle.std.specs.Str.Iter.{split_whitespace_rest};
ghost use Rattle.lines.specs.declared.line.LineFault.TheVariants.{Sheet as BadSheet};
ghost use Rattle.lines.specs.LineWords.{word_of, line_message, ReadsNumber, ReadsSheet, ReadsLine};

use crate::drive::Line;
use crate::words::{ReadFault, read_bytes, read_capped};
use assurance::calls::Call;
use std::alloc::Global;
use std::error::Error;
use std::fmt;
use std::str::SplitWhitespace;

// Why a line is not read.
#[derive(Clone, Copy, PartialEq, Eq, Debug)]
pub enum LineFault {
    // It begins as no call does, and is not read as a sheet's bytes.
    Sheet(ReadFault),
    // A call has no word behind its own.
    LacksNumber,
    // The word behind a call's own is no number.
    NotANumber,
}

// A fault prints as its message.
impl fmt::Display for LineFault {
    ghost output = { λ e. Some (line_message e) };

    fn fmt<W: fmt::Write>(&self, f: &mut fmt::Formatter<W>) -> fmt::Result {
        f.write_str(match self {
            LineFault::Sheet(ReadFault::NotBytes) => {
                "a line is neither a call nor a list of numbers from 0 to 255"
            }
            LineFault::Sheet(ReadFault::Memory) => "memory allocation failed",
            LineFault::LacksNumber => "a call lacks its number",
            LineFault::NotANumber => "a call's number is none",
        })
    }
}

impl Error for LineFault {}

impl From<ReadFault> for LineFault {
    ghost from_gives = { λ e r. r ≡ BadSheet e };

    fn from(fault: ReadFault) -> LineFault {
        LineFault::Sheet(fault)
    }
}

// The words with which a call begins.
#[derive(Clone, Copy)]
pub(crate) enum Word {
    Shown,
    Read,
    Command,
    Claim,
    Stop,
    Report,
}

fn word_of(word: &str) -> Option<Word>
    ensures { result ≡ word_of word.now }
{
    match word {
        "shown" => Some(Word::Shown),
        "read" => Some(Word::Read),
        "command" => Some(Word::Command),
        "claim" => Some(Word::Claim),
        "stop" => Some(Word::Stop),
        "report" => Some(Word::Report),
        _ => None,
    }
}

// The number of a call: the next word.
fn read_number(words: &mut SplitWhitespace) -> Result<u8, LineFault>
    ensures { ReadsNumber (split_whitespace_rest words.old) result }
{
    match words.next() {
        None => Err(LineFault::LacksNumber),
        Some(word) => read_capped(word).ok_or(LineFault::NotANumber),
    }
}

fn read_sheet(heap: Global, text: &str) -> Result<Line, LineFault>
    ensures { ReadsSheet text.now result }
{
    let mut bytes = Vec::new(heap);
    read_bytes(&mut bytes, text)?;
    Ok(Line::Sheet(bytes))
}

// The line of a call's words, or that of a sheet's bytes.
pub fn read_line(heap: Global, text: &str) -> Result<Line, LineFault>
    ensures { ReadsLine text.now result }
{
    let mut words = text.split_whitespace();
    let Some(first) = words.next() else {
        return Ok(Line::Sheet(Vec::new(heap)));
    };
    match word_of(first) {
        None => read_sheet(heap, text),
        Some(Word::Shown) => Ok(Line::Shown),
        Some(Word::Read) => read_number(&mut words).map(|x| Line::Call(Call::Read(x))),
        Some(Word::Command) => read_number(&mut words).map(|y| Line::Call(Call::Command(y))),
        Some(Word::Claim) => read_number(&mut words).map(|i| Line::Call(Call::Claim(i))),
        Some(Word::Stop) => Ok(Line::Call(Call::Stop)),
        Some(Word::Report) => Ok(Line::Report),
    }
}
