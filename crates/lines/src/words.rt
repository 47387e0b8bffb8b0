// Numbers in words, and words in a text, parted by white space.
ghost use Rattle.std.specs.Prelude.{◌≡◌, ℕ, MatchOption};
ghost use Rattle.lines.specs.Words.{Writes, ReadsBytes, ReadsCapped, ReadsPair};
ghost use Rattle.lines.specs.declared.words.ReadFault.TheVariants.{Memory as NoMemory};

use std::alloc::AllocFailed;

// Why no numbers are read.
#[derive(Clone, Copy, PartialEq, Eq, Debug)]
pub enum ReadFault {
    // A word is no byte: no number, or one above 255.
    NotBytes,
    Memory,
}

impl<T: Drop> From<AllocFailed<T>> for ReadFault {
    ghost from_gives = { λ _ r. r ≡ NoMemory };

    fn from(_e: AllocFailed<T>) -> ReadFault {
        ReadFault::Memory
    }
}

// Reads the words of a text as numbers from 0 to 255, and puts them behind the bytes.
pub fn read_bytes(bytes: &mut Vec<u8>, text: &str) -> Result<(), ReadFault>
    ensures { ReadsBytes text.now bytes.old.items bytes.new.items result }
{
    for word in text.split_whitespace() {
        let Ok(byte) = word.parse::<u8>() else {
            return Err(ReadFault::NotBytes);
        };
        bytes.push(byte)?;
    }
    Ok(())
}

// A word as a number; one above 255, up to 64 bits, is 255, which is out of every range.
pub fn read_capped(word: &str) -> Option<u8>
    ensures { ReadsCapped word.now result }
{
    let number = word.parse::<u64>().ok()?;
    Some(number.min(255) as u8)
}

// The two numbers of a line that has two words.
pub fn read_pair(line: &str) -> Option<(u8, u8)>
    ensures { ReadsPair line.now result }
{
    let mut words = line.split_whitespace();
    let (Some(first), Some(second), None) = (words.next(), words.next(), words.next()) else {
        return None;
    };
    let (Some(x), Some(y)) = (read_capped(first), read_capped(second)) else {
        return None;
    };
    Some((x, y))
}
