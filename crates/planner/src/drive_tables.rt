// Tables that fit a drive sheet, by what they answer.
ghost use Rattle.std.specs.Prelude.{◌≡◌};
ghost use Rattle.sheets.specs.Tables.{Tables, InRange};
ghost use Rattle.sheets.specs.Encoding.{lawful_of, set_of};

use crate::numbers::Numbers;

pub trait DriveTables {
    ghost tables: { Self → Tables };

    fn numbers(&self) -> Numbers
        ensures reading_bits { result.reading_bits ≡ (tables self.now).a }
        ensures command_bits { result.command_bits ≡ (tables self.now).b }
        ensures rights { result.rights ≡ (tables self.now).k }
        ensures count { result.count ≡ (tables self.now).n }
        ensures start { result.start ≡ (tables self.now).start };

    // The lawful readings at a state: bit x is set for reading x.
    fn lawful_byte(&self, state: u16) -> u8
        ensures { result ≡ lawful_of (tables self.now) state };

    // The state stepped to, if any.
    fn step(&self, state: u16, reading: u8, command: u8) -> Option<u16>
        ensures { result ≡ (tables self.now).step state reading command };

    // The rank of a state in a column, or 65535.
    fn rank(&self, column: u8, state: u16) -> u16
        ensures { result ≡ (tables self.now).rank column state };

    // The command set of a column, a state and a reading: bit y is set for command y.
    fn set_byte(&self, column: u8, state: u16, reading: u8) -> u8
        ensures { result ≡ set_of (tables self.now) column state reading };

    ghost in_range: { (s : Self) → InRange (tables s) };
}
