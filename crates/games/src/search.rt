// The staged search: one text for every joining rule.
ghost use Rattle.std.specs.Prelude.{◌≡◌, ℕ, ◌+◌, ◌<◌, ◌≤◌, Bool, true, false, ◌&&◌, length, set, if◌then◌else◌, ◌==◌, slice_index, slice_set};
ghost use Rattle.automata.specs.Arena.{arena_of};
ghost use Rattle.games.specs.Search.{ranked_by, Ranks, Settled};
ghost use Rattle.games.specs.Passes.{Passed};

use crate::rule::JoiningRule;
use crate::states::Stage;
use automata::arena::Arena;
use automata::automaton::Automaton;

// Gives a state the next rank if it has none and joins given the stage. Answers whether it did.
fn visit<P: Arena, J: JoiningRule>(
    arena: &P,
    rule: &J,
    ranks: &mut [u16],
    stage: u16,
    q: u16,
) -> bool
    requires few { stage < 65534 }
    requires long { length ranks.old ≡ P.Automaton.n arena.now }
    requires inside { q < length ranks.old }
    ensures asked { result ≡ (slice_index ranks.old q == 65535 && J.JoiningRule.joins rule.now (arena_of P.Automaton P.Arena.own arena.now) (ranked_by ranks.old stage) q) }
    ensures after { ranks.new ≡ (if result then slice_set ranks.old q (stage + 1) else ranks.old) }
{
    let joins = ranks[q as usize] == 65535 && rule.joins(arena, &Stage { ranks, stage }, q);
    if joins {
        ranks[q as usize] = stage + 1;
    }
    joins
}

// One pass: the states that join given the stage get the next rank. Answers whether any did.
fn pass<P: Arena, J: JoiningRule>(arena: &P, rule: &J, ranks: &mut [u16], stage: u16) -> bool
    requires few { stage < 65534 }
    requires long { length ranks.old ≡ P.Automaton.n arena.now }
    ensures passed { Passed (J.JoiningRule.joins rule.now (arena_of P.Automaton P.Arena.own arena.now)) ranks.old stage ranks.new }
    ensures still { result ≡ false → ranks.new ≡ ranks.old }
{
    // A loop, since it changes the ranks too, of which a chain would tell nothing.
    let mut any = false;
    for q in 0..arena.count() {
        any = visit(arena, rule, ranks, stage, q) | any;
    }
    any
}

// Rank 0 for the states of the first set, no rank for the others.
fn seed<P: Arena, J: JoiningRule>(arena: &P, rule: &J, ranks: &mut [u16])
    requires long { length ranks.old ≡ P.Automaton.n arena.now }
    ensures { (q : ℕ) → q < length ranks.new → slice_index ranks.new q ≡ (if J.JoiningRule.first rule.now (arena_of P.Automaton P.Arena.own arena.now) q then 0 else 65535) }
{
    // By number: a state is a `u16`, an iterator's place a `usize`.
    for q in 0..arena.count() {
        ranks[q as usize] = if rule.first(arena, q) { 0 } else { 65535 };
    }
}

// The rank of each state, into a slice that has a place for each.
pub(crate) fn search<P: Arena, J: JoiningRule>(arena: &P, rule: &J, ranks: &mut [u16])
    requires few { P.Automaton.n arena.now ≤ 256 }
    requires long { length ranks.old ≡ P.Automaton.n arena.now }
    ensures ranks { Ranks (P.Automaton.n arena.now) (J.JoiningRule.first rule.now (arena_of P.Automaton P.Arena.own arena.now)) (J.JoiningRule.joins rule.now (arena_of P.Automaton P.Arena.own arena.now)) ranks.new }
    ensures settled { Settled (P.Automaton.n arena.now) (J.JoiningRule.first rule.now (arena_of P.Automaton P.Arena.own arena.now)) (J.JoiningRule.joins rule.now (arena_of P.Automaton P.Arena.own arena.now)) }
{
    seed(arena, rule, ranks);
    let count = arena.count();
    let mut stage = 0;
    while stage < count && pass(arena, rule, ranks, stage) {
        stage += 1;
    }
}
