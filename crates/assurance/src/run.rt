// A list of calls made on a drive.
ghost use Rattle.std.specs.Prelude.{◌≡◌};
ghost use Rattle.sheets.specs.Opened.{tables};
ghost use Rattle.assurance.specs.Entries.{runs_on, after_calls, calls_in, filled};

use crate::calls::Entry;
use crate::drive::Drive;
use sheets::Sheet;

// Makes the calls of the entries in turn, and writes each answer into its place.
pub fn run_calls(sheet: &Sheet, mut drive: Drive, entries: &mut [Entry]) -> Drive
    ensures left { result ≡ after_calls (tables sheet.now) drive (calls_in entries.old) }
    ensures answers { entries.new ≡ filled (runs_on (tables sheet.now) drive (calls_in entries.old)) }
{
    for place in entries.iter_mut() {
        let (next, answer) = drive.make(sheet, place.call);
        drive = next;
        place.answer = Some(answer);
    }
    drive
}
