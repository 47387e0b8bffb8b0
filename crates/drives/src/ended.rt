// A drive that has ended.
ghost use Rattle.std.specs.Prelude.{◌≡◌};
ghost use Rattle.drives.specs.Model.{reports};

#[derive(Drop)]
pub struct Ended {
    pub(crate) state: u16,
    pub(crate) column: u8,
}

impl Ended {
    // The claimed right, or 0, and the last state.
    pub fn report(self) -> (u8, u16)
        ensures { result ≡ reports self }
    {
        let Ended { state, column } = self;
        (column, state)
    }
}
