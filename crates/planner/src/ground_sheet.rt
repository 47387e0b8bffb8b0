// Writing a ground sheet.
ghost use Rattle.std.specs.Prelude.{◌≡◌, ◌<◌, ◌≤◌, length};
ghost use Rattle.std.specs.List.{flat_map};
ghost use Rattle.planner.specs.GroundFormat.{ground_length, ground_header, ground_byte_of, ground_bytes};
ghost use Rattle.planner.specs.GroundReading.{ReadsBack};
ghost use Rattle.planner.specs.Writing.{written_answer, written_buffer};

use crate::fault::WriteFault;
use crate::fill::fill;
use crate::ground_columns::GroundColumns;

// Where the columns' sheet ends.
fn columns_end<T: GroundColumns>(columns: &T) -> usize
    ensures length { result ≡ ground_length (T.GroundColumns.columns columns.now) }
    ensures small { result < 65536 }
{
    let numbers = columns.numbers();
    16 + (numbers.rights as usize + 1) * numbers.count as usize
}

// The header of the columns' sheet, two bytes at a time.
fn ground_header<T: GroundColumns>(columns: &T) -> [[u8; 2]; 8]
    ensures { flat_map (λ x. x) result ≡ ground_header (T.GroundColumns.columns columns.now) }
{
    let numbers = columns.numbers();
    [
        [68, 71],
        [1, numbers.reading_bits],
        [numbers.command_bits, numbers.rights],
        numbers.count.to_le_bytes(),
        numbers.start.to_le_bytes(),
        [columns.number(), 0],
        [16, 0],
        (columns_end(columns) as u16).to_le_bytes(),
    ]
}

// Byte i of the columns' sheet.
fn ground_byte<T: GroundColumns>(columns: &T, i: usize) -> u8
    requires { i < ground_length (T.GroundColumns.columns columns.now) }
    ensures { result ≡ ground_byte_of (T.GroundColumns.columns columns.now) i }
{
    if i < 16 {
        return ground_header(columns).as_flattened()[i];
    }
    let count = columns.numbers().count as usize;
    let j = i - 16;
    columns.ground_byte((j / count) as u8, (j % count) as u16)
}

// Writes the sheet of the columns into the front of the buffer. What was written reads back as the
// columns.
pub fn write_ground_sheet<T: GroundColumns>(
    columns: &T,
    buffer: &mut [u8],
) -> Result<(), WriteFault>
    ensures answer { result ≡ written_answer (ground_bytes (T.GroundColumns.columns columns.now)) buffer.old }
    ensures buffer { buffer.new ≡ written_buffer (ground_bytes (T.GroundColumns.columns columns.now)) buffer.old }
    ensures reads { ground_length (T.GroundColumns.columns columns.now) ≤ length buffer.old → ReadsBack (T.GroundColumns.columns columns.now) buffer.new }
{
    let size = columns_end(columns);
    fill(buffer, size, |i| ground_byte(columns, i))
}
