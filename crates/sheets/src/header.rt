// The numbers of a sheet's header, how many readings and commands that makes, and where the parts lie.
use crate::layout::Places;

#[derive(Clone, Copy)]
pub struct Header {
    pub reading_bits: u8,
    pub command_bits: u8,
    pub rights: u8,
    pub count: u16,
    pub start: u16,
    pub readings: u8,
    pub commands: u8,
    pub places: Places,
}
