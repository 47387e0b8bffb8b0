// An automaton whose answers stand in bytes: a mark byte for each state, and then a step byte for
// each state, reading and command.
ghost use Rattle.automata.specs.Table.{table};
ghost use Rattle.std.proofs.Common.{rules};

use crate::automaton::Automaton;
use crate::bytes::Bytes;
use crate::shape::Shape;

#[derive(Drop)]
pub struct Table<B> {
    pub shape: Shape<64>,
    pub bytes: B,
}

impl<B: Bytes> Automaton for Table<B> {
    ghost a = { λ s. (table s.shape (B.Bytes.list s.bytes)).a };

    ghost b = { λ s. (table s.shape (B.Bytes.list s.bytes)).b };

    ghost n = { λ s. (table s.shape (B.Bytes.list s.bytes)).n };

    ghost start = { λ s. (table s.shape (B.Bytes.list s.bytes)).start };

    ghost marked = { λ s. (table s.shape (B.Bytes.list s.bytes)).marked };

    ghost step = { λ s. (table s.shape (B.Bytes.list s.bytes)).step };

    ghost narrow = { Prim.search rules };

    ghost sized = { Prim.search rules };

    ghost begins = { Prim.search rules };

    ghost enters = { Prim.search rules };

    ghost state_outside = { Prim.search rules };

    ghost reading_outside = { Prim.search rules };

    ghost command_outside = { Prim.search rules };

    ghost mark_outside = { Prim.search rules };

    ghost full_start = { Prim.search rules };

    ghost full_step = { Prim.search rules };

    ghost full_mark = { Prim.search rules };

    fn reading_bits(&self) -> u8 {
        self.shape.reading_bits
    }

    fn command_bits(&self) -> u8 {
        self.shape.command_bits
    }

    fn count(&self) -> u16 {
        self.shape.count as u16
    }

    fn start(&self) -> u16 {
        self.shape.start as u16
    }

    fn marked(&self, q: u16) -> bool {
        q < self.shape.count as u16 && self.bytes.at(q as usize) == 1
    }

    fn step(&self, q: u16, x: u8, y: u8) -> Option<u16> {
        self.shape.step(&self.bytes, self.shape.count, q, x, y)
    }
}
