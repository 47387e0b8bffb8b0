// What holds bytes.
ghost use Rattle.std.specs.Prelude.{◌≡◌, ℕ, List, slice_index};

pub trait Bytes {
    ghost list: { Self → List ℕ };

    // The byte at `i`, or 0 past the end.
    fn at(&self, i: usize) -> u8
        ensures { result ≡ slice_index (list self.now) i };
}

impl<'a> Bytes for &'a [u8] {
    ghost list = { λ s. s.now };

    fn at(&self, i: usize) -> u8 {
        self.get(i).copied().unwrap_or(0)
    }
}

impl Bytes for Vec<u8> {
    ghost list = { λ s. s.items };

    fn at(&self, i: usize) -> u8 {
        self.as_slice().at(i)
    }
}
