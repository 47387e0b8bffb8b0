// Opening a sheet.
ghost use Rattle.std.specs.Prelude.{◌≡◌, true, false, if◌then◌else◌};
ghost use Rattle.sheets.specs.Whole.{leads, header_fits, laid_out, whole};
ghost use Rattle.sheets.specs.Placed.{places_of};
ghost use Rattle.sheets.specs.Format.{reading_bits, command_bits, rights, count};
ghost use Rattle.sheets.specs.Headers.{header_of};
ghost use Rattle.sheets.specs.Framed.{framed};
ghost use Rattle.sheets.specs.Laws.{OpensWritten, OpensNothingElse, EqualSheets, BehindIgnored};
ghost use Rattle.sheets.specs.Opened.{bytes_of, opened, built_in};

use crate::Sheet;
use crate::fault::SheetFault;
use crate::frame::Frame;
use crate::header::Header;
use crate::layout::{Places, lay_out};
use crate::words::{word_at, word_within};

// The header, and then an unlawful reading, no step, no rank and an empty set.
const BUILT_IN: [u8; 26] = [
    68, 83, 1, 0, 0, 0, 1, 0, 0, 0, 20, 0, 21, 0, 23, 0, 25, 0, 26, 0, 0, 255, 255, 255, 255, 0,
];

// Whether the bytes begin as a drive sheet does.
fn leads(bytes: &[u8]) -> bool
    ensures { result ≡ leads bytes.now }
{
    bytes.len() >= 20 && matches!(bytes, [68, 83, 1, ..])
}

// Whether the numbers of the header are in order.
fn header_fits(bytes: &[u8]) -> bool
    ensures { result ≡ header_fits bytes.now }
{
    if !leads(bytes) {
        return false;
    }
    let count = word_within(bytes, 6);
    (bytes[3] <= 3)
        & (bytes[4] <= 3)
        & (bytes[5] <= 4)
        & (1 <= count)
        & (count <= 256)
        & (word_within(bytes, 8) < count)
}

// The numbers of a header that is in order.
fn header(bytes: &[u8]) -> Header
    requires { header_fits bytes.now ≡ true }
    ensures { result ≡ header_of bytes.now }
{
    let readings = 1 << bytes[3];
    let commands = 1 << bytes[4];
    let count = word_within(bytes, 6);
    Header {
        reading_bits: bytes[3],
        command_bits: bytes[4],
        rights: bytes[5],
        count,
        start: word_within(bytes, 8),
        readings,
        commands,
        places: lay_out(readings, commands, bytes[5], count),
    }
}

// Whether the offsets and the total are those of the header's numbers, and no byte is missing.
fn laid_out(bytes: &[u8], places: Places) -> bool
    requires { places ≡ places_of (reading_bits bytes.now) (command_bits bytes.now) (rights bytes.now) (count bytes.now) }
    ensures { result ≡ laid_out bytes.now }
{
    word_at(bytes, 10) == 20
        && word_at(bytes, 12) as usize == places.steps
        && word_at(bytes, 14) as usize == places.ranks
        && word_at(bytes, 16) as usize == places.sets
        && word_at(bytes, 18) as usize == places.total
        && places.total <= bytes.len()
}

fn frame<'a>(bytes: &'a [u8]) -> Frame<'a>
    requires fits { header_fits bytes.now ≡ true }
    requires laid { laid_out bytes.now ≡ true }
    ensures { framed result ≡ bytes.now }
{
    Frame {
        bytes,
        header: header(bytes),
    }
}

// Whether the bytes are a well-formed sheet.
fn is_whole(bytes: &[u8]) -> bool
    ensures { result ≡ whole bytes.now }
{
    if !header_fits(bytes) {
        return false;
    }
    if !laid_out(bytes, header(bytes).places) {
        return false;
    }
    let frame = frame(bytes);
    frame.states_fit() & frame.sets_fit()
}

impl<'a> Sheet<'a> {
    // The sheet of one state that is ranked nowhere: a place for `open` to fill.
    pub fn built_in() -> Sheet<'a>
        ensures { bytes_of result ≡ built_in }
    {
        Sheet {
            frame: frame(&BUILT_IN),
        }
    }

    // Opens a sheet into this place, which a refusal leaves as it was.
    pub fn open(&mut self, bytes: &'a [u8]) -> Result<(), SheetFault>
        ensures answer { result ≡ opened bytes.now }
        ensures holds { bytes_of self.new ≡ (if whole bytes.now then bytes.now else bytes_of self.old) }
        ensures kept { whole bytes.now ≡ false → self.new ≡ self.old }
        ensures written { OpensWritten }
        ensures only { OpensNothingElse }
        ensures once { EqualSheets }
        ensures behind { BehindIgnored }
    {
        if !is_whole(bytes) {
            return Err(SheetFault::Malformed);
        }
        *self = Sheet {
            frame: frame(bytes),
        };
        Ok(())
    }
}
