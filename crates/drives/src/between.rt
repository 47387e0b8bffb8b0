// A drive between rounds.
ghost use Rattle.std.specs.Prelude.{◌≡◌};
ghost use Rattle.sheets.specs.Opened.{tables};
ghost use Rattle.drives.specs.Model.{shows, reads, claims, stops};

use crate::ended::Ended;
use crate::fit::fits;
use crate::refusal::{Refusal, Refused};
use crate::waiting::Waiting;
use sheets::Sheet;

#[derive(Drop)]
pub struct Between {
    pub(crate) state: u16,
    // The column in force: 0 until a right is claimed, then that right's.
    pub(crate) column: u8,
}

impl Between {
    // The rank in the column in force.
    pub fn shown(&self, sheet: &Sheet) -> Result<u16, Refusal>
        ensures { result ≡ shows (tables sheet.now) self.now }
    {
        if !fits(sheet, self.state, self.column) {
            return Err(Refusal::DoesNotFit);
        }
        Ok(sheet.rank(self.column, self.state))
    }

    // Keeps a lawful reading, which then waits for its command.
    pub fn read(self, sheet: &Sheet, reading: u8) -> Result<Waiting, Refused<Between>>
        ensures { result ≡ reads (tables sheet.now) self reading }
    {
        let why = if !fits(sheet, self.state, self.column) {
            Refusal::DoesNotFit
        } else if reading >= sheet.readings() {
            Refusal::ReadingTooLarge
        } else if sheet.rank(self.column, self.state) == 0 {
            Refusal::ReadAtZero
        } else if !sheet.is_lawful(self.state, reading) {
            Refusal::ReadingUnlawful
        } else {
            return Ok(Waiting {
                state: self.state,
                column: self.column,
                reading,
            });
        };
        Err(Refused { state: self, why })
    }

    // Claims a right: its column is then in force.
    pub fn claim(self, sheet: &Sheet, right: u8) -> Result<Between, Refused<Between>>
        ensures { result ≡ claims (tables sheet.now) self right }
    {
        let why = if !fits(sheet, self.state, self.column) {
            Refusal::DoesNotFit
        } else if right == 0 || right > sheet.rights() {
            Refusal::RightOutOfRange
        } else if self.column != 0 {
            Refusal::ClaimedAlready
        } else if sheet.rank(right, self.state) == 65535 {
            Refusal::RightUnranked
        } else {
            return Ok(Between {
                state: self.state,
                column: right,
            });
        };
        Err(Refused { state: self, why })
    }

    // Ends the drive where no round is left.
    pub fn stop(self, sheet: &Sheet) -> Result<Ended, Refused<Between>>
        ensures { result ≡ stops (tables sheet.now) self }
    {
        let why = if !fits(sheet, self.state, self.column) {
            Refusal::DoesNotFit
        } else if sheet.rank(self.column, self.state) != 0 {
            Refusal::StopAboveZero
        } else {
            return Ok(Ended {
                state: self.state,
                column: self.column,
            });
        };
        Err(Refused { state: self, why })
    }
}
