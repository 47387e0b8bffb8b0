// A solver: an arena that it took over, and the regions that were found of it.
ghost use Rattle.games.specs.Tables.{table_arena};
ghost use Rattle.games.specs.Found.{Found};

use crate::regions::Regions;
use crate::table::Table;

#[derive(Drop)]
pub struct Solver {
    pub(crate) table: Table,
    pub(crate) regions: Regions,
    ghost found: { Found (table_arena table) regions },
}
