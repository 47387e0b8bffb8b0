// The numbers of a table or of a flat job, in range.
ghost use Rattle.std.specs.Prelude.{◌≡◌, ◌<◌, ◌≤◌};
ghost use Rattle.automata.specs.Steps.{step_told};

use crate::bytes::Bytes;

#[derive(Clone, Copy)]
pub struct Shape<const MOST: u8> {
    pub reading_bits: u8,
    pub command_bits: u8,
    pub count: u8,
    pub start: u8,
    ghost narrow_readings: { reading_bits ≤ 3 },
    ghost narrow_commands: { command_bits ≤ 3 },
    ghost some_state: { 1 ≤ count },
    ghost few_states: { count ≤ MOST },
    ghost start_inside: { start < count },
}

impl<const MOST: u8> Shape<MOST> {
    // The step that bytes tell, where the step bytes begin at `place`.
    pub(crate) fn step<B: Bytes>(&self, bytes: &B, place: u8, q: u16, x: u8, y: u8) -> Option<u16>
        ensures { result ≡ step_told self.now.reading_bits self.now.command_bits self.now.count place (B.Bytes.list bytes.now) q x y }
    {
        let readings: usize = 1 << self.reading_bits;
        let commands: usize = 1 << self.command_bits;
        let (q, x, y) = (q as usize, x as usize, y as usize);
        if q >= self.count as usize || x >= readings || y >= commands {
            return None;
        }
        let target = bytes.at(place as usize + (q * readings + x) * commands + y);
        if target < self.count {
            Some(target as u16)
        } else {
            None
        }
    }
}
