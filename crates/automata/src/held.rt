// Held: once marked, marked for good.
ghost use Rattle.std.specs.Prelude.{◌≡◌, ◌≤◌};
ghost use Rattle.automata.specs.Walks.{Holds};
ghost use Rattle.automata.specs.Machine.{machine_of};
ghost use Rattle.automata.specs.Layers.{held};
ghost use Rattle.std.proofs.Common.{rules};

use crate::automaton::Automaton;

#[derive(Drop)]
pub struct Held<A> {
    pub below: A,
}

impl<A: Automaton> Held<A> {
    // Holds the marks of an automaton. Over every word it then stands where the automaton does, and
    // is marked exactly if that was marked at the start or after some front of the word.
    pub fn over(below: A) -> Held<A>
        ensures made { result.below ≡ below }
        ensures holds { A.Automaton.n below ≤ 128 → Holds (machine_of A.Automaton below) }
    {
        Held { below }
    }
}

impl<A: Automaton> Automaton for Held<A> {
    ghost a = { λ s. (held (machine_of A.Automaton s.below)).a };

    ghost b = { λ s. (held (machine_of A.Automaton s.below)).b };

    ghost n = { λ s. (held (machine_of A.Automaton s.below)).n };

    ghost start = { λ s. (held (machine_of A.Automaton s.below)).start };

    ghost marked = { λ s. (held (machine_of A.Automaton s.below)).marked };

    ghost step = { λ s. (held (machine_of A.Automaton s.below)).step };

    ghost narrow = { Prim.search rules };

    ghost sized = { Prim.search rules };

    ghost begins = { Prim.search rules };

    ghost enters = { Prim.search rules };

    ghost state_outside = { Prim.search rules };

    ghost reading_outside = { Prim.search rules };

    ghost command_outside = { Prim.search rules };

    ghost mark_outside = { Prim.search rules };

    ghost full_start = { Prim.search rules };

    ghost full_step = { Prim.search rules };

    ghost full_mark = { Prim.search rules };

    fn reading_bits(&self) -> u8 {
        self.below.reading_bits()
    }

    fn command_bits(&self) -> u8 {
        self.below.command_bits()
    }

    fn count(&self) -> u16 {
        let n = self.below.count();
        if n <= 128 { 2 * n } else { 257 }
    }

    fn start(&self) -> u16 {
        if self.below.count() > 128 {
            return 0;
        }
        let q = self.below.start();
        2 * q + u16::from(self.below.marked(q))
    }

    fn marked(&self, q: u16) -> bool {
        let n = self.below.count();
        n <= 128 && q < 2 * n && q % 2 == 1
    }

    fn step(&self, q: u16, x: u8, y: u8) -> Option<u16> {
        if self.below.count() > 128 {
            return None;
        }
        let t = self.below.step(q / 2, x, y)?;
        if self.below.marked(t) {
            Some(2 * t + 1)
        } else {
            Some(2 * t + q % 2)
        }
    }
}
