// Drive sheets: the format, as definitions from bytes to tables and back, and the opener. A display
// carries this crate, so nothing here writes a sheet or takes memory.
#![tactic(auto)]

ghost use Rattle.std.specs.Prelude.{◌≡◌, true};
ghost use Rattle.sheets.specs.Whole.{whole};

use crate::frame::Frame;

mod answers;
mod checks;
pub mod fault;
mod fields;
mod frame;
mod header;
pub mod layout;
mod opener;
pub mod words;

// An opened sheet: the lent bytes are well formed, so nothing of them is checked again.
#[derive(Drop)]
pub struct Sheet<'a> {
    frame: Frame<'a>,
    ghost checked: { whole frame.bytes.now ≡ true },
}
