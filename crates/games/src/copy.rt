// Asking an arena for each of its answers once, into a table.
ghost use Rattle.std.specs.Prelude.{◌≡◌, ℕ, ◌+◌, ◌<◌, ◌≤◌, false, IfOk, None, [], length, slice_index_or};
ghost use Rattle.automata.specs.Arena.{arena_of};
ghost use Rattle.games.specs.Tables.{Holds, blank, table_arena, lone};

use crate::table::{Row, Table};
use automata::arena::Arena;
use automata::automaton::Automaton;
use std::alloc::{AllocError, Global};
use std::array::from_fn;

// The rights' marks at a state.
fn rights_at<P: Arena>(arena: &P, q: u16) -> [bool; 4]
    ensures { (i : ℕ) → i < 4 → slice_index_or result i false ≡ P.Arena.right arena.now (i + 1) q }
{
    from_fn(|i| arena.right(i as u8 + 1, q))
}

// The steps from a state on a reading.
fn steps_on<P: Arena>(arena: &P, q: u16, x: u8) -> [Option<u16>; 8]
    ensures { (y : ℕ) → y < 8 → slice_index_or result y None ≡ P.Automaton.step arena.now q x y }
{
    from_fn(|y| arena.step(q, x, y as u8))
}

// The steps from a state.
fn steps_from<P: Arena>(arena: &P, q: u16) -> [[Option<u16>; 8]; 8]
    ensures { (x y : ℕ) → x < 8 → y < 8 → slice_index_or (slice_index_or result x []) y None ≡ P.Automaton.step arena.now q x y }
{
    let mut steps = [[None; 8]; 8];
    // By number: of a closure here that calls a function of ours no contract is inferred.
    for x in 0..8 {
        steps[x as usize] = steps_on(arena, q, x);
    }
    steps
}

// The rows of an arena's states.
fn copy_rows<P: Arena>(arena: &P, rows: &mut [Row])
    requires few { P.Automaton.n arena.now ≤ length rows.old }
    ensures { (q : ℕ) → q < P.Automaton.n arena.now → Holds (arena_of P.Automaton P.Arena.own arena.now) q (slice_index_or rows.new q blank) }
{
    // By number: a state is a `u16`, an iterator's place a `usize`, and the rows may be more.
    for q in 0..arena.count() {
        rows[q as usize] = Row {
            marked: arena.marked(q),
            rights: rights_at(arena, q),
            steps: steps_from(arena, q),
        };
    }
}

impl Table {
    // A table of one state, with no mark and no step.
    pub(crate) fn new(heap: Global) -> Result<Table, AllocError>
        ensures { IfOk result (λ t. table_arena t ≡ lone) }
    {
        let blank = Row {
            marked: false,
            rights: [false; 4],
            steps: [[None; 8]; 8],
        };
        let rows = Box::new(heap, [blank; 256])?;
        Ok(Table {
            reading_bits: 0,
            command_bits: 0,
            count: 1,
            start: 0,
            rights: 0,
            rows,
        })
    }

    // Takes over an arena's answers.
    pub(crate) fn copy<P: Arena>(&mut self, arena: &P)
        requires { P.Automaton.n arena.now ≤ 256 }
        ensures { table_arena self.new ≡ arena_of P.Automaton P.Arena.own arena.now }
    {
        copy_rows(arena, &mut self.rows[..]);
        self.reading_bits = arena.reading_bits();
        self.command_bits = arena.command_bits();
        self.count = arena.count();
        self.start = arena.start();
        self.rights = arena.rights();
    }
}
