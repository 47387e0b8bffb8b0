// The numbers on standard input.
use anyhow::anyhow;
use lines::words::{ReadFault, read_bytes};
use std::alloc::AllocError;

// Each is a byte.
pub fn read_numbers(rt: &(impl Input + AllocGlobal)) -> anyhow::Result<Vec<u8>> {
    let mut bytes = Vec::new(rt.alloc());
    for line in rt.lines(rt.alloc()) {
        match read_bytes(&mut bytes, line?.as_str()) {
            Ok(()) => {}
            Err(ReadFault::NotBytes) => {
                return Err(anyhow!("standard input is not a list of numbers from 0 to 255"));
            }
            Err(ReadFault::Memory) => return Err(AllocError.into()),
        }
    }
    Ok(bytes)
}
