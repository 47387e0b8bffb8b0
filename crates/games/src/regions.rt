// The regions of a table's arena, by the staged search.
ghost use Rattle.std.specs.Prelude.{suc, ◌<◌};
ghost use Rattle.games.specs.Tables.{table_arena};
ghost use Rattle.games.specs.Search.{RanksAt};
ghost use Rattle.games.specs.Found.{BrokenFound, ColumnFound, RightsFound, Found};

use crate::rule::JoiningRule;
use crate::rules::{Broken, DutyColumn, RightColumn};
use crate::search::search;
use crate::states::{Fence, Unranked};
use crate::table::Table;
use automata::arena::Arena;
use automata::automaton::Automaton;

// The ranks that are found of an arena, 65535 at the places beyond its states.
#[derive(Drop)]
pub(crate) struct Regions {
    // of the broken states
    pub(crate) broken: [u16; 256],
    // of each right's column
    pub(crate) rights: [[u16; 256]; 4],
    // of the duty's column
    pub(crate) duty: [u16; 256],
}

// The ranks by a rule.
fn ranks<J: JoiningRule>(table: &Table, rule: &J) -> [u16; 256]
    ensures { RanksAt (table_arena table.now).n (J.JoiningRule.first rule.now (table_arena table.now)) (J.JoiningRule.joins rule.now (table_arena table.now)) result }
{
    let n = table.count() as usize;
    let mut ranks = [65535; 256];
    search(table, rule, &mut ranks[..n]);
    ranks
}

// The ranks of the column of the right after the first `j`.
fn find_right(table: &Table, broken: &[u16], j: u8) -> [u16; 256]
    requires few { j < 4 }
    requires found { BrokenFound (table_arena table.now) broken.now }
    ensures { ColumnFound (table_arena table.now) (suc j) result }
{
    let unbroken = Unranked {
        ranks: broken,
        count: table.count(),
    };
    ranks(
        table,
        &RightColumn {
            unbroken,
            right: j + 1,
        },
    )
}

// The ranks of every right's column.
fn find_rights(table: &Table, broken: &[u16]) -> [[u16; 256]; 4]
    requires { BrokenFound (table_arena table.now) broken.now }
    ensures { RightsFound (table_arena table.now) (table_arena table.now).k result }
{
    let mut rights = [[65535; 256]; 4];
    // By number: a right is a `u8`, an iterator's place a `usize`.
    for j in 0..table.rights() {
        rights[j as usize] = find_right(table, broken, j);
    }
    rights
}

// The ranks of the duty's column.
fn find_duty(table: &Table, broken: &[u16], rights: &[[u16; 256]; 4]) -> [u16; 256]
    requires unbroken { BrokenFound (table_arena table.now) broken.now }
    requires fenced { RightsFound (table_arena table.now) (table_arena table.now).k rights.now }
    ensures { ColumnFound (table_arena table.now) 0 result }
{
    let count = table.count();
    let unbroken = Unranked {
        ranks: broken,
        count,
    };
    let fence = Fence {
        broken,
        rights,
        columns: table.rights(),
        count,
    };
    ranks(table, &DutyColumn { unbroken, fence })
}

impl Regions {
    // The regions of a table's arena.
    pub(crate) fn of(table: &Table) -> Regions
        ensures { Found (table_arena table.now) result }
    {
        let broken = ranks(table, &Broken);
        let rights = find_rights(table, &broken);
        let duty = find_duty(table, &broken, &rights);
        Regions {
            broken,
            rights,
            duty,
        }
    }
}
