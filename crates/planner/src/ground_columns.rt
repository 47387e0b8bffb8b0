// Columns that fit a ground sheet, by what they answer.
ghost use Rattle.std.specs.Prelude.{◌≡◌};
ghost use Rattle.planner.specs.GroundFormat.{GroundTables, GroundInRange};

use crate::numbers::Numbers;

pub trait GroundColumns {
    ghost columns: { Self → GroundTables };

    // Asked here and of drive tables: one trait for both would need a law that ties its numbers to each.
    fn numbers(&self) -> Numbers
        ensures reading_bits { result.reading_bits ≡ (columns self.now).a }
        ensures command_bits { result.command_bits ≡ (columns self.now).b }
        ensures rights { result.rights ≡ (columns self.now).k }
        ensures count { result.count ≡ (columns self.now).n }
        ensures start { result.start ≡ (columns self.now).start };

    // The verdict's number: the lowest right that is lost at the start, or 0.
    fn number(&self) -> u8
        ensures { result ≡ (columns self.now).number };

    // The ground's reading in a column at a state, or 255.
    fn ground_byte(&self, column: u8, state: u16) -> u8
        ensures { result ≡ (columns self.now).byte column state };

    ghost in_range: { (s : Self) → GroundInRange (columns s) };
}
