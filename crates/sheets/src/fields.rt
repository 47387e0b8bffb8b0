// The fields of a frame's four parts: all lie within the bytes, so no place is looked at again.
ghost use Rattle.std.specs.Prelude.{◌≡◌, ◌<◌, ◌≤◌};
ghost use Rattle.sheets.specs.Format.{count, rights, readings, commands, lawful_byte, step_word, rank_word, set_byte};
ghost use Rattle.sheets.specs.Framed.{framed};

use crate::frame::Frame;
use crate::words::word_within;

impl Frame<'_> {
    // The lawful byte of a state.
    #[tactic(auto, unfolding(crate::specs::Format::lawful_byte))]
    pub fn lawful_byte(&self, state: u16) -> u8
        requires { state < count (framed self.now) }
        ensures { result ≡ lawful_byte (framed self.now) state }
    {
        self.bytes[20 + state as usize]
    }

    // The field of a step.
    #[tactic(auto, unfolding(crate::specs::Format::step_word))]
    pub fn step_word(&self, state: u16, reading: u8, command: u8) -> u16
        requires state { state < count (framed self.now) }
        requires reading { reading < readings (framed self.now) }
        requires command { command < commands (framed self.now) }
        ensures { result ≡ step_word (framed self.now) state reading command }
    {
        let row = state as usize * self.header.readings as usize + reading as usize;
        let cell = row * self.header.commands as usize + command as usize;
        word_within(self.bytes, self.header.places.steps + 2 * cell)
    }

    // The field of a rank.
    #[tactic(auto, unfolding(crate::specs::Format::rank_word))]
    pub fn rank_word(&self, column: u8, state: u16) -> u16
        requires column { column ≤ rights (framed self.now) }
        requires state { state < count (framed self.now) }
        ensures { result ≡ rank_word (framed self.now) column state }
    {
        let cell = column as usize * self.header.count as usize + state as usize;
        word_within(self.bytes, self.header.places.ranks + 2 * cell)
    }

    // The byte of a command set.
    #[tactic(auto, unfolding(crate::specs::Format::set_byte))]
    pub fn set_byte(&self, column: u8, state: u16, reading: u8) -> u8
        requires column { column ≤ rights (framed self.now) }
        requires state { state < count (framed self.now) }
        requires reading { reading < readings (framed self.now) }
        ensures { result ≡ set_byte (framed self.now) column state reading }
    {
        let row = column as usize * self.header.count as usize + state as usize;
        let cell = row * self.header.readings as usize + reading as usize;
        self.bytes[self.header.places.sets + cell]
    }
}
