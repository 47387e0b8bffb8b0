// What an opened sheet says. Out of range no reading is lawful, every step is none, nothing is ranked
// or permitted.
#![tactic(auto, unfolding(crate::specs::Format::tables_of))]

ghost use Rattle.std.specs.Prelude.{◌≡◌, ◌^◌};
ghost use Rattle.sheets.specs.Opened.{tables};

use crate::Sheet;
use ranges::bits::has_bit;

impl Sheet<'_> {
    pub fn reading_bits(&self) -> u8
        ensures { result ≡ (tables self.now).a }
    {
        self.frame.header.reading_bits
    }

    pub fn command_bits(&self) -> u8
        ensures { result ≡ (tables self.now).b }
    {
        self.frame.header.command_bits
    }

    // How many readings there are.
    pub fn readings(&self) -> u8
        ensures { result ≡ 2 ^ (tables self.now).a }
    {
        self.frame.header.readings
    }

    // How many commands there are.
    pub fn commands(&self) -> u8
        ensures { result ≡ 2 ^ (tables self.now).b }
    {
        self.frame.header.commands
    }

    pub fn rights(&self) -> u8
        ensures { result ≡ (tables self.now).k }
    {
        self.frame.header.rights
    }

    // How many states there are.
    pub fn count(&self) -> u16
        ensures { result ≡ (tables self.now).n }
    {
        self.frame.header.count
    }

    pub fn start(&self) -> u16
        ensures { result ≡ (tables self.now).start }
    {
        self.frame.header.start
    }

    // Whether a reading is lawful at a state.
    pub fn is_lawful(&self, state: u16, reading: u8) -> bool
        ensures { result ≡ (tables self.now).lawful state reading }
    {
        let header = self.frame.header;
        state < header.count
            && reading < header.readings
            && has_bit(self.frame.lawful_byte(state), reading)
    }

    // The state stepped to, if any.
    pub fn step(&self, state: u16, reading: u8, command: u8) -> Option<u16>
        ensures { result ≡ (tables self.now).step state reading command }
    {
        let header = self.frame.header;
        if state >= header.count || reading >= header.readings || command >= header.commands {
            return None;
        }
        let step = self.frame.step_word(state, reading, command);
        if step == 65535 { None } else { Some(step) }
    }

    // The rank of a state in a column: a number, as in the sheet's bytes, and 65535 where there is none.
    pub fn rank(&self, column: u8, state: u16) -> u16
        ensures { result ≡ (tables self.now).rank column state }
    {
        let header = self.frame.header;
        if column > header.rights || state >= header.count {
            return 65535;
        }
        self.frame.rank_word(column, state)
    }

    // Whether the command set of a column, a state and a reading holds a command.
    pub fn permits(&self, column: u8, state: u16, reading: u8, command: u8) -> bool
        ensures { result ≡ (tables self.now).permits column state reading command }
    {
        let header = self.frame.header;
        column <= header.rights
            && state < header.count
            && reading < header.readings
            && command < header.commands
            && has_bit(self.frame.set_byte(column, state, reading), command)
    }
}
