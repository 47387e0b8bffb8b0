// Whether a state and a column are those of a sheet.
ghost use Rattle.std.specs.Prelude.{◌≡◌};
ghost use Rattle.sheets.specs.Opened.{tables};
ghost use Rattle.drives.specs.Model.{fits};

use sheets::Sheet;

pub fn fits(sheet: &Sheet, state: u16, column: u8) -> bool
    ensures { result ≡ fits (tables sheet.now) state column }
{
    state < sheet.count() && column <= sheet.rights()
}
