// Whether the fields of a frame are in order.
ghost use Rattle.std.specs.Prelude.{◌≡◌, ◌^◌, ◌<◌, ◌≤◌, nat_lt};
ghost use Rattle.ranges.specs.Ranges.{all};
ghost use Rattle.sheets.specs.Format.{count, rights, readings, commands};
ghost use Rattle.sheets.specs.Whole.{step_fits, set_steps, reading_fits, state_fits, states_fit, set_fits, state_sets_fit, column_fits, sets_fit};
ghost use Rattle.sheets.specs.Framed.{framed};

use crate::frame::Frame;
use ranges::bits::has_bit;

// Whether a byte has no bit from bit `n` on.
fn bits_below(byte: u8, n: u8) -> bool
    requires { n ≤ 8 }
    ensures { result ≡ nat_lt byte (2 ^ n) }
{
    (byte as u16) < 1 << n
}

impl Frame<'_> {
    // Whether a step is a state or none.
    fn step_fits(&self, state: u16, reading: u8, command: u8) -> bool
        requires state { state < count (framed self.now) }
        requires reading { reading < readings (framed self.now) }
        requires command { command < commands (framed self.now) }
        ensures { result ≡ step_fits (framed self.now) state reading command }
    {
        let step = self.step_word(state, reading, command);
        (step < self.header.count) | (step == 65535)
    }

    // Whether every step of a state on a reading is a state or none.
    fn reading_fits(&self, state: u16, reading: u8) -> bool
        requires state { state < count (framed self.now) }
        requires reading { reading < readings (framed self.now) }
        ensures { result ≡ reading_fits (framed self.now) state reading }
    {
        let mut all = true;
        for command in 0..self.header.commands {
            all = self.step_fits(state, reading, command) & all;
        }
        all
    }

    // Whether every step of a state is a state or none.
    fn steps_fit(&self, state: u16) -> bool
        requires { state < count (framed self.now) }
        ensures { result ≡ all (readings (framed self.now)) (λ x. reading_fits (framed self.now) state x) }
    {
        let mut all = true;
        for reading in 0..self.header.readings {
            all = self.reading_fits(state, reading) & all;
        }
        all
    }

    // Whether a state's lawful byte and all its steps are in order.
    fn state_fits(&self, state: u16) -> bool
        requires { state < count (framed self.now) }
        ensures { result ≡ state_fits (framed self.now) state }
    {
        bits_below(self.lawful_byte(state), self.header.readings) & self.steps_fit(state)
    }

    // Whether the lawful bytes and steps of all states are in order.
    pub fn states_fit(&self) -> bool
        ensures { result ≡ states_fit (framed self.now) }
    {
        let mut all = true;
        for state in 0..self.header.count {
            all = self.state_fits(state) & all;
        }
        all
    }

    // Whether a command is outside a set, or steps to a state.
    fn set_steps(&self, column: u8, state: u16, reading: u8, command: u8) -> bool
        requires column { column ≤ rights (framed self.now) }
        requires state { state < count (framed self.now) }
        requires reading { reading < readings (framed self.now) }
        requires command { command < commands (framed self.now) }
        ensures { result ≡ set_steps (framed self.now) column state reading command }
    {
        !has_bit(self.set_byte(column, state, reading), command)
            | (self.step_word(state, reading, command) != 65535)
    }

    // Whether every command in a set steps to a state.
    fn commands_step(&self, column: u8, state: u16, reading: u8) -> bool
        requires column { column ≤ rights (framed self.now) }
        requires state { state < count (framed self.now) }
        requires reading { reading < readings (framed self.now) }
        ensures { result ≡ all (commands (framed self.now)) (λ y. set_steps (framed self.now) column state reading y) }
    {
        let mut all = true;
        for command in 0..self.header.commands {
            all = self.set_steps(column, state, reading, command) & all;
        }
        all
    }

    // Whether a set is in order.
    fn set_fits(&self, column: u8, state: u16, reading: u8) -> bool
        requires column { column ≤ rights (framed self.now) }
        requires state { state < count (framed self.now) }
        requires reading { reading < readings (framed self.now) }
        ensures { result ≡ set_fits (framed self.now) column state reading }
    {
        bits_below(self.set_byte(column, state, reading), self.header.commands)
            & self.commands_step(column, state, reading)
    }

    // Whether the sets of a column and state are in order.
    fn state_sets_fit(&self, column: u8, state: u16) -> bool
        requires column { column ≤ rights (framed self.now) }
        requires state { state < count (framed self.now) }
        ensures { result ≡ state_sets_fit (framed self.now) column state }
    {
        let mut all = true;
        for reading in 0..self.header.readings {
            all = self.set_fits(column, state, reading) & all;
        }
        all
    }

    // Whether the sets of a column are in order.
    fn column_fits(&self, column: u8) -> bool
        requires { column ≤ rights (framed self.now) }
        ensures { result ≡ column_fits (framed self.now) column }
    {
        let mut all = true;
        for state in 0..self.header.count {
            all = self.state_sets_fit(column, state) & all;
        }
        all
    }

    // Whether all sets are in order.
    pub fn sets_fit(&self) -> bool
        ensures { result ≡ sets_fit (framed self.now) }
    {
        let mut all = true;
        for column in 0..self.header.rights + 1 {
            all = self.column_fits(column) & all;
        }
        all
    }
}
