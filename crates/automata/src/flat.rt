// The arena of a flat job, over the job's bytes.
ghost use Rattle.automata.specs.Flat.{flat_arena};
ghost use Rattle.std.proofs.Common.{rules};

use crate::arena::Arena;
use crate::automaton::Automaton;
use crate::bytes::Bytes;
use crate::header::FlatHeader;
use ranges::bits::has_bit;

#[derive(Drop)]
pub struct Flat<B> {
    pub header: FlatHeader,
    pub bytes: B,
}

impl<B: Bytes> Automaton for Flat<B> {
    ghost a = { λ s. s.header.shape.reading_bits };

    ghost b = { λ s. s.header.shape.command_bits };

    ghost n = { λ s. s.header.shape.count };

    ghost start = { λ s. s.header.shape.start };

    ghost marked = { λ s. (flat_arena s.header (B.Bytes.list s.bytes)).marked };

    ghost step = { λ s. (flat_arena s.header (B.Bytes.list s.bytes)).step };

    ghost narrow = { Prim.search rules };

    ghost sized = { Prim.search rules };

    ghost begins = { Prim.search rules };

    ghost enters = { Prim.search rules };

    ghost state_outside = { Prim.search rules };

    ghost reading_outside = { Prim.search rules };

    ghost command_outside = { Prim.search rules };

    ghost mark_outside = { Prim.search rules };

    ghost full_start = { Prim.search rules };

    ghost full_step = { Prim.search rules };

    ghost full_mark = { Prim.search rules };

    fn reading_bits(&self) -> u8 {
        self.header.shape.reading_bits
    }

    fn command_bits(&self) -> u8 {
        self.header.shape.command_bits
    }

    fn count(&self) -> u16 {
        self.header.shape.count as u16
    }

    fn start(&self) -> u16 {
        self.header.shape.start as u16
    }

    fn marked(&self, q: u16) -> bool {
        q < self.header.shape.count as u16 && has_bit(self.bytes.at(8 + q as usize), 0)
    }

    fn step(&self, q: u16, x: u8, y: u8) -> Option<u16> {
        let shape = &self.header.shape;
        shape.step(&self.bytes, 8 + shape.count, q, x, y)
    }
}

impl<B: Bytes> Arena for Flat<B> {
    ghost k = { λ s. s.header.rights };

    ghost right = { λ s. (flat_arena s.header (B.Bytes.list s.bytes)).right };

    ghost few = { Prim.search rules };

    ghost no_zeroth = { Prim.search rules };

    ghost right_outside = { Prim.search rules };

    ghost right_state_outside = { Prim.search rules };

    ghost full_rights = { Prim.search rules };

    fn rights(&self) -> u8 {
        self.header.rights
    }

    fn right(&self, i: u8, q: u16) -> bool {
        1 <= i
            && i <= self.header.rights
            && q < self.header.shape.count as u16
            && has_bit(self.bytes.at(8 + q as usize), i)
    }
}
