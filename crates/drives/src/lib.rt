// The drive: it is moved from call to call, between rounds, waiting for a command, and ended. It holds
// plain numbers, and every call but the report is lent the opened sheet.
#![tactic(auto)]

ghost use Rattle.std.specs.Prelude.{◌≡◌};
ghost use Rattle.sheets.specs.Opened.{tables};
ghost use Rattle.drives.specs.Model.{begun};

use crate::between::Between;
use crate::refusal::Refusal;
use sheets::Sheet;

pub mod between;
pub mod ended;
mod fit;
pub mod refusal;
pub mod waiting;

// A drive between rounds at the start, in column 0.
pub fn begin(sheet: &Sheet) -> Result<Between, Refusal>
    ensures { result ≡ begun (tables sheet.now) }
{
    let state = sheet.start();
    if sheet.rank(0, state) == 65535 {
        return Err(Refusal::StartUnranked);
    }
    Ok(Between { state, column: 0 })
}
