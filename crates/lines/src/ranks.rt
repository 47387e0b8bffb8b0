// The lines of an opened drive sheet: one for each ranked state of each column.
ghost use Rattle.std.specs.Prelude.{◌≡◌, ◌++◌, string_bytes, OnOk};
ghost use Rattle.sheets.specs.Encoding.{set_of};
ghost use Rattle.sheets.specs.Opened.{tables};
ghost use Rattle.lines.specs.Ranks.{set_texts, rank_line, rank_lines_of, rank_lines};

use ranges::bits::bits_where;
use sheets::Sheet;
use std::alloc::AllocError;
use std::fmt::Write;

// The command set of a column, a state and a reading as a byte: bit y for command y.
fn set_byte(sheet: &Sheet, column: u8, q: u16, x: u8) -> u8
    ensures { result ≡ set_of (tables sheet.now) column q x }
{
    bits_where(sheet.commands(), |y| sheet.permits(column, q, x, y))
}

fn show_sets(out: &mut String, sheet: &Sheet, column: u8, q: u16) -> Result<(), AllocError>
    ensures { OnOk result (string_bytes out.new ≡ string_bytes out.old ++ set_texts (tables sheet.now) column q) }
{
    for x in 0..sheet.readings() {
        let set = set_byte(sheet, column, q, x);
        write!(out, " {set}")?;
    }
    Ok(())
}

// A ranked state's line: column, state, rank and a command set for each reading.
fn show_state(out: &mut String, sheet: &Sheet, column: u8, q: u16) -> Result<(), AllocError>
    ensures { OnOk result (string_bytes out.new ≡ string_bytes out.old ++ rank_line (tables sheet.now) column q) }
{
    let rank = sheet.rank(column, q);
    if rank == 65535 {
        return Ok(());
    }
    write!(out, "{column} {q} {rank}")?;
    show_sets(out, sheet, column, q)?;
    writeln!(out)
}

fn show_column(out: &mut String, sheet: &Sheet, column: u8) -> Result<(), AllocError>
    ensures { OnOk result (string_bytes out.new ≡ string_bytes out.old ++ rank_lines_of (tables sheet.now) column) }
{
    for q in 0..sheet.count() {
        show_state(out, sheet, column, q)?;
    }
    Ok(())
}

// The ranked states of a sheet, by column and then by state.
pub fn show_ranks(out: &mut String, sheet: &Sheet) -> Result<(), AllocError>
    ensures { OnOk result (string_bytes out.new ≡ string_bytes out.old ++ rank_lines (tables sheet.now)) }
{
    for column in 0..sheet.rights() + 1 {
        show_column(out, sheet, column)?;
    }
    Ok(())
}
