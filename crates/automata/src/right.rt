// An arena and one right more, whose mark comes last.
ghost use Rattle.std.specs.Prelude.{◌≡◌, ◌*◌, ◌/◌, ◌%◌, ◌<◌, ◌≤◌, ◌&&◌, nat_le, nat_lt};
ghost use Rattle.automata.specs.Walks.{Adds};
ghost use Rattle.automata.specs.Machine.{machine_of};
ghost use Rattle.automata.specs.Arena.{arena_of};
ghost use Rattle.automata.specs.Layers.{right_fits, with_right, more_rights, right_marks};
ghost use Rattle.automata.specs.PairLaws.{pair_sized, pair_begins, pair_enters, pair_outside};
ghost use Rattle.automata.specs.RightAutomatonLemmas.{small};
ghost use Rattle.std.proofs.Common.{rules};

use crate::arena::Arena;
use crate::automaton::Automaton;
use crate::pairs::{pair_count, pair_start, pair_step, product};

#[derive(Drop)]
pub struct WithRight<P, R> {
    pub arena: P,
    pub right: R,
}

impl<P: Arena, R: Automaton> WithRight<P, R> {
    // Adds a right to an arena. Over every word the pair stands at its parts' states, with the marks
    // of the arena and, as the last right's, that of the right; it is led to none where a part is.
    pub fn of(arena: P, right: R) -> WithRight<P, R>
        ensures made { (result.arena ≡ arena) × (result.right ≡ right) }
        ensures adds { P.Automaton.n arena * R.Automaton.n right ≤ 256 → P.Arena.k arena < 4 → Adds (arena_of P.Automaton P.Arena.own arena) (machine_of R.Automaton right) }
    {
        WithRight { arena, right }
    }

    // Whether the pair has few enough states and rights.
    fn fits(&self) -> bool
        ensures { result ≡ right_fits (arena_of P.Automaton P.Arena.own self.now.arena) (machine_of R.Automaton self.now.right) }
    {
        product(&self.arena, &self.right) <= 256 && self.arena.rights() < 4
    }
}

impl<P: Arena, R: Automaton> Automaton for WithRight<P, R> {
    ghost a = { λ s. (with_right (arena_of P.Automaton P.Arena.own s.arena) (machine_of R.Automaton s.right)).a };

    ghost b = { λ s. (with_right (arena_of P.Automaton P.Arena.own s.arena) (machine_of R.Automaton s.right)).b };

    ghost n = { λ s. (with_right (arena_of P.Automaton P.Arena.own s.arena) (machine_of R.Automaton s.right)).n };

    ghost start = { λ s. (with_right (arena_of P.Automaton P.Arena.own s.arena) (machine_of R.Automaton s.right)).start };

    ghost marked = { λ s. (with_right (arena_of P.Automaton P.Arena.own s.arena) (machine_of R.Automaton s.right)).marked };

    ghost step = { λ s. (with_right (arena_of P.Automaton P.Arena.own s.arena) (machine_of R.Automaton s.right)).step };

    ghost narrow = { Prim.search rules };

    ghost sized = { λ s.
        let n = P.Automaton.n s.arena in
        let m = R.Automaton.n s.right in
        let k = P.Arena.k s.arena in
        pair_sized (nat_le (n * m) 256 && nat_lt k 4) n m (small n m k) (P.Automaton.sized s.arena).0 (R.Automaton.sized s.right).0 };

    ghost begins = { λ s.
        let n = P.Automaton.n s.arena in
        let m = R.Automaton.n s.right in
        let k = P.Arena.k s.arena in
        pair_begins (nat_le (n * m) 256 && nat_lt k 4) n m (small n m k) _ _ (P.Automaton.begins s.arena) (R.Automaton.begins s.right) };

    ghost enters = { λ s q x y.
        let n = P.Automaton.n s.arena in
        let m = R.Automaton.n s.right in
        let k = P.Arena.k s.arena in
        pair_enters (nat_le (n * m) 256 && nat_lt k 4) n m (small n m k) _ _ (P.Automaton.enters s.arena (q / m) x y) (R.Automaton.enters s.right (q % m) x y) };

    ghost state_outside = { λ s q x y l.
        let n = P.Automaton.n s.arena in
        let m = R.Automaton.n s.right in
        let k = P.Arena.k s.arena in
        pair_outside (nat_le (n * m) 256 && nat_lt k 4) n m (small n m k) q (λ p. P.Automaton.step s.arena p x y) _ (R.Automaton.sized s.right).0 (λ p. P.Automaton.state_outside s.arena p x y) l };

    ghost reading_outside = { Prim.search rules };

    ghost command_outside = { Prim.search rules };

    ghost mark_outside = { Prim.search rules };

    ghost full_start = { Prim.search rules };

    ghost full_step = { Prim.search rules };

    ghost full_mark = { Prim.search rules };

    fn reading_bits(&self) -> u8 {
        self.arena.reading_bits()
    }

    fn command_bits(&self) -> u8 {
        self.arena.command_bits()
    }

    fn count(&self) -> u16 {
        pair_count(self.fits(), &self.arena, &self.right)
    }

    fn start(&self) -> u16 {
        pair_start(self.fits(), &self.arena, &self.right)
    }

    fn marked(&self, q: u16) -> bool {
        self.fits()
            && (q as u32) < product(&self.arena, &self.right)
            && self.arena.marked(q / self.right.count())
    }

    fn step(&self, q: u16, x: u8, y: u8) -> Option<u16> {
        pair_step(self.fits(), &self.arena, &self.right, q, x, y)
    }
}

impl<P: Arena, R: Automaton> Arena for WithRight<P, R> {
    ghost k = { λ s. more_rights (arena_of P.Automaton P.Arena.own s.arena) (machine_of R.Automaton s.right) };

    ghost right = { λ s. right_marks (arena_of P.Automaton P.Arena.own s.arena) (machine_of R.Automaton s.right) };

    ghost few = { Prim.search rules };

    ghost no_zeroth = { Prim.search rules };

    ghost right_outside = { Prim.search rules };

    ghost right_state_outside = { Prim.search rules };

    ghost full_rights = { Prim.search rules };

    fn rights(&self) -> u8 {
        if self.fits() {
            self.arena.rights() + 1
        } else {
            0
        }
    }

    fn right(&self, i: u8, q: u16) -> bool {
        if !self.fits() || q as u32 >= product(&self.arena, &self.right) {
            return false;
        }
        if i == self.arena.rights() + 1 {
            self.right.marked(q % self.right.count())
        } else {
            self.arena.right(i, q / self.right.count())
        }
    }
}
