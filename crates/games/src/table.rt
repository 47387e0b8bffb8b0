// An arena that owns its answers, with room for 256 states, 8 readings and 8 commands.
ghost use Rattle.std.specs.Prelude.{◌≡◌, ◌<◌, ◌≤◌};

// What an arena answers at a state.
#[derive(Clone, Copy)]
pub(crate) struct Row {
    // the duty's mark
    pub(crate) marked: bool,
    // the rights' marks
    pub(crate) rights: [bool; 4],
    // the steps, by reading and command
    pub(crate) steps: [[Option<u16>; 8]; 8],
}

#[derive(Drop)]
pub struct Table {
    pub(crate) reading_bits: u8,
    pub(crate) command_bits: u8,
    pub(crate) count: u16,
    pub(crate) start: u16,
    pub(crate) rights: u8,
    // a row to a state
    pub(crate) rows: Box<[Row; 256]>,
    ghost narrow_readings: { reading_bits ≤ 3 },
    ghost narrow_commands: { command_bits ≤ 3 },
    ghost some_state: { 1 ≤ count },
    ghost few_states: { count ≤ 256 },
    ghost start_inside: { start < count },
    ghost few_rights: { rights ≤ 4 },
}
