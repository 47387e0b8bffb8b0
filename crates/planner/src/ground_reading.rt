// Reading a ground sheet.
ghost use Rattle.std.specs.Prelude.{◌≡◌, ◌&&◌};
ghost use Rattle.planner.specs.GroundReading.{ground_leads, ground_narrow, ground_states, ground_number, ground_laid_out, ground_whole, ground_reading};

use sheets::words::{byte_at, word_at};

// Whether the bytes begin as a ground sheet does.
fn leads(sheet: &[u8]) -> bool
    ensures { result ≡ ground_leads sheet.now }
{
    sheet.len() >= 16 && sheet.starts_with(&[68, 71, 1])
}

// Whether the numbers of the header are in order.
fn header_fits(sheet: &[u8]) -> bool
    ensures { result ≡ (ground_narrow sheet.now && ground_states sheet.now && ground_number sheet.now) }
{
    let rights = byte_at(sheet, 5);
    let count = word_at(sheet, 6);
    let narrow = byte_at(sheet, 3) <= 3 && byte_at(sheet, 4) <= 3 && rights <= 4;
    let states = 1 <= count && count <= 256 && word_at(sheet, 8) < count;
    narrow && states && byte_at(sheet, 10) <= rights && byte_at(sheet, 11) == 0
}

// Whether the columns lie where they should.
fn laid_out(sheet: &[u8]) -> bool
    ensures { result ≡ ground_laid_out sheet.now }
{
    let total = 16 + (byte_at(sheet, 5) as usize + 1) * word_at(sheet, 6) as usize;
    word_at(sheet, 12) == 16 && word_at(sheet, 14) as usize == total && total <= sheet.len()
}

// Whether the bytes are a well-formed ground sheet.
fn is_whole(sheet: &[u8]) -> bool
    ensures { result ≡ ground_whole sheet.now }
{
    leads(sheet) && header_fits(sheet) && laid_out(sheet)
}

// The byte of a column at a state, if the bytes are a well-formed ground sheet that has both.
pub fn ground_reading(sheet: &[u8], column: u8, state: u16) -> Option<u8>
    ensures { result ≡ ground_reading sheet.now column state }
{
    if !is_whole(sheet) {
        return None;
    }
    let count = word_at(sheet, 6);
    if column > sheet[5] || state >= count {
        return None;
    }
    Some(sheet[16 + (column as usize * count as usize + state as usize)])
}
