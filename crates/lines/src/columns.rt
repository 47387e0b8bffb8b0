// The lines of a written ground sheet: one for each column.
ghost use Rattle.std.specs.Prelude.{◌≡◌, ◌++◌, ℕ, string_bytes, OnOk};
ghost use Rattle.lines.specs.Columns.{column_reading, column_texts, column_line, column_lines};

use automata::arena::Arena;
use automata::automaton::Automaton;
use planner::ground_reading::ground_reading;
use std::alloc::AllocError;
use std::fmt::Write;

// The ground's reading in a column at a state, or 255.
fn reading(sheet: &[u8], column: u8, q: u16) -> u8
    ensures { result ≡ column_reading sheet.now column q }
{
    ground_reading(sheet, column, q).unwrap_or(255)
}

fn show_readings(out: &mut String, sheet: &[u8], count: u16, column: u8) -> Result<(), AllocError>
    ensures { OnOk result (string_bytes out.new ≡ string_bytes out.old ++ column_texts (column_reading sheet.now column) count) }
{
    for q in 0..count {
        let byte = reading(sheet, column, q);
        write!(out, " {byte}")?;
    }
    Ok(())
}

// A column's line: its number and its byte for each state.
fn show_column(out: &mut String, sheet: &[u8], count: u16, column: u8) -> Result<(), AllocError>
    ensures { OnOk result (string_bytes out.new ≡ string_bytes out.old ++ column_line (column_reading sheet.now) count column) }
{
    write!(out, "{column}")?;
    show_readings(out, sheet, count, column)?;
    writeln!(out)
}

// The columns of an arena's written ground sheet.
pub fn show_columns<P: Arena>(out: &mut String, arena: &P, sheet: &[u8]) -> Result<(), AllocError>
    ensures { OnOk result (string_bytes out.new ≡ string_bytes out.old ++ column_lines (column_reading sheet.now) (P.Automaton.n arena.now) (P.Arena.k arena.now)) }
{
    let count = arena.count();
    for column in 0..arena.rights() + 1 {
        show_column(out, sheet, count, column)?;
    }
    Ok(())
}
