// A sheet's bytes whose header and layout are in order, with the numbers of the header.
ghost use Rattle.std.specs.Prelude.{◌≡◌, true};
ghost use Rattle.sheets.specs.Whole.{header_fits, laid_out};
ghost use Rattle.sheets.specs.Headers.{header_of};

use crate::header::Header;

#[derive(Clone, Copy)]
pub struct Frame<'a> {
    pub bytes: &'a [u8],
    pub header: Header,
    ghost fits: { header_fits bytes.now ≡ true },
    ghost laid: { laid_out bytes.now ≡ true },
    ghost told: { header ≡ header_of bytes.now },
}
