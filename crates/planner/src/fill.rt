// Filling the front of a buffer, byte by byte.
ghost use Rattle.std.specs.Prelude.{◌≡◌, ℕ, ◌<◌, map};
ghost use Rattle.std.specs.List.{range_with_len};
ghost use Rattle.planner.specs.Writing.{written_answer, written_buffer};

use crate::fault::WriteFault;

// Writes so many bytes into the front of the buffer, each by its place. A buffer that is too short is
// left as it was.
pub(crate) fn fill<F: Fn(usize) -> u8>(
    buffer: &mut [u8],
    size: usize,
    byte: F,
) -> Result<(), WriteFault>
    requires { (i : ℕ) → i < size → F.pre byte i }
    ensures answer { (f : ℕ → ℕ) → ((i v : ℕ) → i < size → F.post byte i v → v ≡ f i) → result ≡ written_answer (map f (range_with_len 0 size)) buffer.old }
    ensures buffer { (f : ℕ → ℕ) → ((i v : ℕ) → i < size → F.post byte i v → v ≡ f i) → buffer.new ≡ written_buffer (map f (range_with_len 0 size)) buffer.old }
{
    if buffer.len() < size {
        return Err(WriteFault::TooShort);
    }
    for (i, place) in buffer[..size].iter_mut().enumerate() {
        *place = byte(i);
    }
    Ok(())
}
