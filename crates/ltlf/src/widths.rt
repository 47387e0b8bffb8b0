// The widths of rounds.
ghost use Rattle.std.specs.Prelude.{◌≡◌, ◌≤◌, MatchOption};

// How many bits a reading has, and how many a command.
#[derive(Clone, Copy)]
pub struct Widths {
    pub reading_bits: u8,
    pub command_bits: u8,
    ghost narrow_readings: { reading_bits ≤ 3 },
    ghost narrow_commands: { command_bits ≤ 3 },
}

impl Widths {
    // None where either is above three.
    pub fn new(a: u8, b: u8) -> Option<Widths>
        ensures { MatchOption result ((a ≤ 3) × (b ≤ 3) → ⊥) (λ w. (w.reading_bits ≡ a) × (w.command_bits ≡ b)) }
    {
        if a > 3 || b > 3 {
            return None;
        }
        Some(Widths {
            reading_bits: a,
            command_bits: b,
        })
    }
}
