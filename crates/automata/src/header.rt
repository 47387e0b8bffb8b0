// The numbers with which a flat job begins, in range.
ghost use Rattle.std.specs.Prelude.{◌≤◌};

use crate::shape::Shape;

#[derive(Clone, Copy)]
pub struct FlatHeader {
    pub shape: Shape<128>,
    pub rights: u8,
    ghost few_rights: { rights ≤ 4 },
}
