// Rounds, of which words are made.

// A reading, and then the command that answers it.
#[derive(Clone, Copy, PartialEq, Eq, Debug)]
pub struct Round {
    pub reading: u8,
    pub command: u8,
}
