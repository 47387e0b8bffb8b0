// A drive with a reading that waits for its command.
ghost use Rattle.std.specs.Prelude.{◌≡◌, ◌<◌, true, Some};
ghost use Rattle.sheets.specs.Opened.{tables};
ghost use Rattle.drives.specs.Model.{commands, Lands};

use crate::between::Between;
use crate::fit::fits;
use crate::refusal::{Refusal, Refused};
use sheets::Sheet;

#[derive(Drop)]
pub struct Waiting {
    pub(crate) state: u16,
    pub(crate) column: u8,
    pub(crate) reading: u8,
}

impl Waiting {
    // The state that a permitted command steps to: in an opened sheet there is one.
    fn landing(&self, sheet: &Sheet, command: u8) -> u16
        requires { (tables sheet.now).permits self.now.column self.now.state self.now.reading command ≡ true }
        ensures step { (tables sheet.now).step self.now.state self.now.reading command ≡ Some result }
        ensures below { result < (tables sheet.now).n }
    {
        sheet.step(self.state, self.reading, command).unwrap()
    }

    // Answers the waiting reading with a permitted command, and steps.
    pub fn command(self, sheet: &Sheet, command: u8) -> Result<Between, Refused<Waiting>>
        ensures answer { result ≡ commands (tables sheet.now) self command }
        ensures lands { Lands (tables sheet.now) self command result }
    {
        let why = if !fits(sheet, self.state, self.column) || self.reading >= sheet.readings() {
            Refusal::DoesNotFit
        } else if command >= sheet.commands() {
            Refusal::CommandTooLarge
        } else if !sheet.permits(self.column, self.state, self.reading, command) {
            Refusal::CommandNotPermitted
        } else {
            return Ok(Between {
                state: self.landing(sheet, command),
                column: self.column,
            });
        };
        Err(Refused { state: self, why })
    }
}
