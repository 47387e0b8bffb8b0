// Writing a drive sheet.
ghost use Rattle.std.specs.Prelude.{◌≡◌, ◌+◌, ◌*◌, ◌^◌, ◌<◌, ◌≤◌, length};
ghost use Rattle.std.specs.List.{flat_map};
ghost use Rattle.sheets.specs.Encoding.{header, byte_of, steps_offset, ranks_offset, sets_offset, step_cell, rank_cell, set_cell, sheet_length, sheet_bytes};
ghost use Rattle.sheets.specs.Laws.{OpensTo};
ghost use Rattle.planner.specs.Writing.{written_answer, written_buffer};

use crate::drive_tables::DriveTables;
use crate::fault::WriteFault;
use crate::fill::fill;
use crate::places::lay_out;
use sheets::layout::Places;

// Where the parts of the tables' sheet lie.
fn layout<T: DriveTables>(tables: &T) -> Places
    ensures steps { result.steps ≡ steps_offset (T.DriveTables.tables tables.now) }
    ensures ranks { result.ranks ≡ ranks_offset (T.DriveTables.tables tables.now) }
    ensures sets { result.sets ≡ sets_offset (T.DriveTables.tables tables.now) }
    ensures total { result.total ≡ sheet_length (T.DriveTables.tables tables.now) }
    ensures small { result.total < 65536 }
{
    lay_out(tables.numbers())
}

// The header of the tables' sheet, two bytes at a time.
fn drive_header<T: DriveTables>(tables: &T) -> [[u8; 2]; 10]
    ensures { flat_map (λ x. x) result ≡ header (T.DriveTables.tables tables.now) }
{
    let numbers = tables.numbers();
    let at = layout(tables);
    [
        [68, 83],
        [1, numbers.reading_bits],
        [numbers.command_bits, numbers.rights],
        numbers.count.to_le_bytes(),
        numbers.start.to_le_bytes(),
        [20, 0],
        (at.steps as u16).to_le_bytes(),
        (at.ranks as u16).to_le_bytes(),
        (at.sets as u16).to_le_bytes(),
        (at.total as u16).to_le_bytes(),
    ]
}

// Field j of the steps.
fn step_cell<T: DriveTables>(tables: &T, j: usize) -> u16
    requires { j < (T.DriveTables.tables tables.now).n * 2 ^ (T.DriveTables.tables tables.now).a * 2 ^ (T.DriveTables.tables tables.now).b }
    ensures { result ≡ step_cell (T.DriveTables.tables tables.now) j }
{
    let numbers = tables.numbers();
    let readings = 1 << numbers.reading_bits;
    let commands = 1 << numbers.command_bits;
    let row = j / commands;
    tables
        .step(
            (row / readings) as u16,
            (row % readings) as u8,
            (j % commands) as u8,
        )
        .unwrap_or(65535)
}

// Field j of the ranks.
fn rank_cell<T: DriveTables>(tables: &T, j: usize) -> u16
    requires { j < ((T.DriveTables.tables tables.now).k + 1) * (T.DriveTables.tables tables.now).n }
    ensures { result ≡ rank_cell (T.DriveTables.tables tables.now) j }
{
    let count = tables.numbers().count as usize;
    tables.rank((j / count) as u8, (j % count) as u16)
}

// Byte j of the sets.
fn set_cell<T: DriveTables>(tables: &T, j: usize) -> u8
    requires { j < ((T.DriveTables.tables tables.now).k + 1) * (T.DriveTables.tables tables.now).n * 2 ^ (T.DriveTables.tables tables.now).a }
    ensures { result ≡ set_cell (T.DriveTables.tables tables.now) j }
{
    let numbers = tables.numbers();
    let readings = 1 << numbers.reading_bits;
    let count = numbers.count as usize;
    let row = j / readings;
    tables.set_byte(
        (row / count) as u8,
        (row % count) as u16,
        (j % readings) as u8,
    )
}

// Byte i of the tables' sheet.
fn drive_byte<T: DriveTables>(tables: &T, i: usize) -> u8
    requires { i < sheet_length (T.DriveTables.tables tables.now) }
    ensures { result ≡ byte_of (T.DriveTables.tables tables.now) i }
{
    let at = layout(tables);
    if i < 20 {
        drive_header(tables).as_flattened()[i]
    } else if i < at.steps {
        tables.lawful_byte((i - 20) as u16)
    } else if i < at.ranks {
        let j = i - at.steps;
        step_cell(tables, j / 2).to_le_bytes()[j % 2]
    } else if i < at.sets {
        let j = i - at.ranks;
        rank_cell(tables, j / 2).to_le_bytes()[j % 2]
    } else {
        set_cell(tables, i - at.sets)
    }
}

// Writes the sheet of the tables into the front of the buffer. What was written opens to the tables.
pub fn write_drive_sheet<T: DriveTables>(tables: &T, buffer: &mut [u8]) -> Result<(), WriteFault>
    ensures answer { result ≡ written_answer (sheet_bytes (T.DriveTables.tables tables.now)) buffer.old }
    ensures buffer { buffer.new ≡ written_buffer (sheet_bytes (T.DriveTables.tables tables.now)) buffer.old }
    ensures opens { sheet_length (T.DriveTables.tables tables.now) ≤ length buffer.old → OpensTo (T.DriveTables.tables tables.now) buffer.new }
{
    let size = layout(tables).total;
    fill(buffer, size, |i| drive_byte(tables, i))
}
