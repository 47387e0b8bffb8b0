// Ground and duty: an arena with the duty's mark and no right.
ghost use Rattle.std.specs.Prelude.{◌≡◌, ◌*◌, ◌/◌, ◌%◌, ◌≤◌, false, nat_le};
ghost use Rattle.automata.specs.Walks.{Carries};
ghost use Rattle.automata.specs.Machine.{machine_of};
ghost use Rattle.automata.specs.Layers.{duty_fits, with_duty};
ghost use Rattle.std.proofs.lemmas.Bool.{leb-true};
ghost use Rattle.automata.specs.PairLaws.{pair_sized, pair_begins, pair_enters, pair_outside};
ghost use Rattle.std.proofs.Common.{rules};

use crate::arena::Arena;
use crate::automaton::Automaton;
use crate::pairs::{pair_start, pair_step, product};

#[derive(Drop)]
pub struct WithDuty<G, D> {
    pub terrain: G,
    pub duty: D,
}

impl<G: Automaton, D: Automaton> WithDuty<G, D> {
    // Pairs a ground and a duty. Over every word the pair stands at its parts' states, marked exactly
    // if the duty is, and is led to none where a part is.
    pub fn of(terrain: G, duty: D) -> WithDuty<G, D>
        ensures made { (result.terrain ≡ terrain) × (result.duty ≡ duty) }
        ensures carries { G.Automaton.n terrain * D.Automaton.n duty ≤ 256 → Carries (machine_of G.Automaton terrain) (machine_of D.Automaton duty) }
    {
        WithDuty { terrain, duty }
    }

    fn fits(&self) -> bool
        ensures { result ≡ duty_fits (machine_of G.Automaton self.now.terrain) (machine_of D.Automaton self.now.duty) }
    {
        product(&self.terrain, &self.duty) <= 256
    }
}

impl<G: Automaton, D: Automaton> Automaton for WithDuty<G, D> {
    ghost a = { λ s. (with_duty (machine_of G.Automaton s.terrain) (machine_of D.Automaton s.duty)).a };

    ghost b = { λ s. (with_duty (machine_of G.Automaton s.terrain) (machine_of D.Automaton s.duty)).b };

    ghost n = { λ s. (with_duty (machine_of G.Automaton s.terrain) (machine_of D.Automaton s.duty)).n };

    ghost start = { λ s. (with_duty (machine_of G.Automaton s.terrain) (machine_of D.Automaton s.duty)).start };

    ghost marked = { λ s. (with_duty (machine_of G.Automaton s.terrain) (machine_of D.Automaton s.duty)).marked };

    ghost step = { λ s. (with_duty (machine_of G.Automaton s.terrain) (machine_of D.Automaton s.duty)).step };

    ghost narrow = { Prim.search rules };

    ghost sized = { λ s.
        let n = G.Automaton.n s.terrain in
        let m = D.Automaton.n s.duty in
        pair_sized (nat_le (n * m) 256) n m (leb-true (n * m) 256) (G.Automaton.sized s.terrain).0 (D.Automaton.sized s.duty).0 };

    ghost begins = { λ s.
        let n = G.Automaton.n s.terrain in
        let m = D.Automaton.n s.duty in
        pair_begins (nat_le (n * m) 256) n m (leb-true (n * m) 256) _ _ (G.Automaton.begins s.terrain) (D.Automaton.begins s.duty) };

    ghost enters = { λ s q x y.
        let n = G.Automaton.n s.terrain in
        let m = D.Automaton.n s.duty in
        pair_enters (nat_le (n * m) 256) n m (leb-true (n * m) 256) _ _ (G.Automaton.enters s.terrain (q / m) x y) (D.Automaton.enters s.duty (q % m) x y) };

    ghost state_outside = { λ s q x y l.
        let n = G.Automaton.n s.terrain in
        let m = D.Automaton.n s.duty in
        pair_outside (nat_le (n * m) 256) n m (leb-true (n * m) 256) q (λ p. G.Automaton.step s.terrain p x y) _ (D.Automaton.sized s.duty).0 (λ p. G.Automaton.state_outside s.terrain p x y) l };

    ghost reading_outside = { Prim.search rules };

    ghost command_outside = { Prim.search rules };

    ghost mark_outside = { Prim.search rules };

    ghost full_start = { Prim.search rules };

    ghost full_step = { Prim.search rules };

    ghost full_mark = { Prim.search rules };

    fn reading_bits(&self) -> u8 {
        self.terrain.reading_bits()
    }

    fn command_bits(&self) -> u8 {
        self.terrain.command_bits()
    }

    // The product is asked for once here and in `marked`: every layer above asks again.
    fn count(&self) -> u16 {
        let n = product(&self.terrain, &self.duty);
        if n <= 256 { n as u16 } else { 257 }
    }

    fn start(&self) -> u16 {
        pair_start(self.fits(), &self.terrain, &self.duty)
    }

    fn marked(&self, q: u16) -> bool {
        let n = product(&self.terrain, &self.duty);
        n <= 256 && (q as u32) < n && self.duty.marked(q % self.duty.count())
    }

    fn step(&self, q: u16, x: u8, y: u8) -> Option<u16> {
        pair_step(self.fits(), &self.terrain, &self.duty, q, x, y)
    }
}

impl<G: Automaton, D: Automaton> Arena for WithDuty<G, D> {
    ghost k = { λ s. 0 };

    ghost right = { λ s i q. false };

    ghost few = { Prim.search rules };

    ghost no_zeroth = { Prim.search rules };

    ghost right_outside = { Prim.search rules };

    ghost right_state_outside = { Prim.search rules };

    ghost full_rights = { Prim.search rules };

    fn rights(&self) -> u8 {
        0
    }

    fn right(&self, _i: u8, _q: u16) -> bool {
        false
    }
}
