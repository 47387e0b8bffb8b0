// A byte by its bits.
ghost use Rattle.std.specs.Prelude.{◌≡◌, ℕ, ◌<◌, Bool, min};
ghost use Rattle.ranges.specs.Ranges.{bit, bits};

// Whether bit `i` of a byte is set, bit 0 being the lowest.
pub fn has_bit(byte: u8, i: u8) -> bool
    ensures { result ≡ bit byte i }
{
    i < 8 && (byte >> i) % 2 == 1
}

// The byte that has bit `i` set exactly if the test passes at `i`, for each `i` below `n` that a
// byte has.
pub fn bits_where<F: Fn(u8) -> bool>(n: u8, test: F) -> u8
    requires { F.IsAlwaysCallable test }
    ensures { (f : ℕ → Bool) → ((i : ℕ) (b : Bool) → i < n → F.post test i b → b ≡ f i) → result ≡ bits (min n 8) f }
{
    let mut byte = 0u8;
    for i in 0..n.min(8) {
        if test(i) {
            byte += 1 << i;
        }
    }
    byte
}
