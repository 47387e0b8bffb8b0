// Where the parts of a drive sheet begin behind its lawful bytes, and where the last ends.
ghost use Rattle.std.specs.Prelude.{◌≡◌};
ghost use Rattle.sheets.specs.Placed.{places_for};

#[derive(Clone, Copy)]
pub struct Places {
    pub steps: usize,
    pub ranks: usize,
    pub sets: usize,
    pub total: usize,
}

// Where they lie for so many readings, commands, rights and states.
pub fn lay_out(readings: u8, commands: u8, rights: u8, count: u16) -> Places
    ensures { result ≡ places_for readings commands rights count }
{
    let rows = count as usize * readings as usize;
    let ranked = (rights as usize + 1) * count as usize;
    let steps = 20 + count as usize;
    let ranks = steps + 2 * (rows * commands as usize);
    let sets = ranks + 2 * ranked;
    Places {
        steps,
        ranks,
        sets,
        total: sets + ranked * readings as usize,
    }
}
