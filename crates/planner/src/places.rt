// Where the parts of a drive sheet begin behind its lawful bytes, and where the last ends.
ghost use Rattle.std.specs.Prelude.{◌≡◌, ◌<◌, ◌≤◌};
ghost use Rattle.sheets.specs.Layout.{steps_from, ranks_from, sets_from, ends_at};

use crate::numbers::Numbers;
use sheets::layout::{self, Places};

// Where they lie in the sheet of such numbers.
pub(crate) fn lay_out(numbers: Numbers) -> Places
    requires readings { numbers.reading_bits ≤ 3 }
    requires commands { numbers.command_bits ≤ 3 }
    requires rights { numbers.rights ≤ 4 }
    requires states { numbers.count ≤ 256 }
    ensures steps { result.steps ≡ steps_from numbers.count }
    ensures ranks { result.ranks ≡ ranks_from numbers.reading_bits numbers.command_bits numbers.count }
    ensures sets { result.sets ≡ sets_from numbers.reading_bits numbers.command_bits numbers.rights numbers.count }
    ensures total { result.total ≡ ends_at numbers.reading_bits numbers.command_bits numbers.rights numbers.count }
    ensures small { result.total < 65536 }
{
    layout::lay_out(
        1 << numbers.reading_bits,
        1 << numbers.command_bits,
        numbers.rights,
        numbers.count,
    )
}
