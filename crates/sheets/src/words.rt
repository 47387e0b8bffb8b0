// The numbers that bytes hold. Past the end every byte is 0.
ghost use Rattle.std.specs.Prelude.{◌≡◌, ◌+◌, ◌<◌, length};
ghost use Rattle.sheets.specs.Format.{byte, word};

// The byte at a place.
pub fn byte_at(bytes: &[u8], i: usize) -> u8
    ensures { result ≡ byte bytes.now i }
{
    bytes.get(i).copied().unwrap_or(0)
}

// The two-byte number at a place, its low byte first.
pub fn word_at(bytes: &[u8], i: usize) -> u16
    ensures { result ≡ word bytes.now i }
{
    u16::from_le_bytes([byte_at(bytes, i), byte_at(bytes, i.saturating_add(1))])
}

// The same at a place that is known to lie within the bytes: nothing is compared with their length.
pub(crate) fn word_within(bytes: &[u8], i: usize) -> u16
    requires { i + 1 < length bytes.now }
    ensures { result ≡ word bytes.now i }
{
    u16::from_le_bytes([bytes[i], bytes[i + 1]])
}
