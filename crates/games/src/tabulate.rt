// Tables as arenas.
ghost use Rattle.std.specs.Prelude.{◌≡◌, ℕ, ◌≤◌, None};
ghost use Rattle.automata.specs.Steps.{named, onward};
ghost use Rattle.games.specs.Tables.{table_arena};
ghost use Rattle.std.proofs.Common.{rules};

use crate::table::Table;
use automata::arena::Arena;
use automata::automaton::Automaton;

// The step that is stored, if it is none or a state below the count; else none.
fn stored(step: Option<u16>, count: u16) -> Option<u16>
    ensures { result ≡ onward step None (named count) }
{
    step.filter(|t| *t < count)
}

impl Automaton for Table {
    ghost a = { λ t. (table_arena t).a };

    ghost b = { λ t. (table_arena t).b };

    ghost n = { λ t. (table_arena t).n };

    ghost start = { λ t. (table_arena t).start };

    ghost marked = { λ t. (table_arena t).marked };

    ghost step = { λ t. (table_arena t).step };

    ghost narrow = { Prim.search rules };

    ghost sized = { Prim.search rules };

    ghost begins = { Prim.search rules };

    ghost enters = { Prim.search rules };

    ghost state_outside = { Prim.search rules };

    ghost reading_outside = { Prim.search rules };

    ghost command_outside = { Prim.search rules };

    ghost mark_outside = { Prim.search rules };

    ghost full_start = { Prim.search rules };

    ghost full_step = { Prim.search rules };

    ghost full_mark = { Prim.search rules };

    fn reading_bits(&self) -> u8 {
        self.reading_bits
    }

    fn command_bits(&self) -> u8 {
        self.command_bits
    }

    fn count(&self) -> u16 {
        self.count
    }

    fn start(&self) -> u16 {
        self.start
    }

    fn marked(&self, q: u16) -> bool {
        q < self.count && self.rows[q as usize].marked
    }

    fn step(&self, q: u16, x: u8, y: u8) -> Option<u16> {
        if q < self.count && x < 1 << self.reading_bits && y < 1 << self.command_bits {
            stored(
                self.rows[q as usize].steps[x as usize][y as usize],
                self.count,
            )
        } else {
            None
        }
    }
}

impl Arena for Table {
    ghost k = { λ t. (table_arena t).k };

    ghost right = { λ t. (table_arena t).right };

    ghost few = { Prim.search rules };

    ghost no_zeroth = { Prim.search rules };

    ghost right_outside = { Prim.search rules };

    ghost right_state_outside = { Prim.search rules };

    ghost full_rights = { Prim.search rules };

    fn rights(&self) -> u8 {
        self.rights
    }

    fn right(&self, i: u8, q: u16) -> bool {
        1 <= i && i <= self.rights && q < self.count && self.rows[q as usize].rights[i as usize - 1]
    }
}
