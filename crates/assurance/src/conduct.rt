// A drive begun on an opened sheet and run through a list of calls.
ghost use Rattle.std.specs.Prelude.{◌≡◌};
ghost use Rattle.sheets.specs.Opened.{tables};
ghost use Rattle.assurance.specs.Conducted.{conducted, places, KeepsPromise};

use crate::calls::Entry;
use crate::drive::Drive;
use crate::run::run_calls;
use drives::begin;
use drives::refusal::Refusal;
use sheets::Sheet;

// Begins a drive and makes the calls of the entries in turn, each answer written into its place. Where
// no drive begins, no place is touched.
pub fn conduct(sheet: &Sheet, entries: &mut [Entry]) -> Result<Drive, Refusal>
    ensures drive { result ≡ conducted (tables sheet.now) entries.old }
    ensures written { entries.new ≡ places (tables sheet.now) entries.old }
    ensures promise { KeepsPromise (tables sheet.now) entries.old entries.new result }
{
    let between = begin(sheet)?;
    Ok(run_calls(sheet, Drive::Between(between), entries))
}
