// How many states the arena of a job has, counted without making it.
ghost use Rattle.std.specs.Prelude.{◌≡◌, ◌*◌, ◌≤◌, if◌then◌else◌, nat_le};
ghost use Rattle.jobs.specs.Parts.{plain, machine, part, sections_arena};

use crate::job_bytes::JobBytes;
use crate::section::Section;
use ltlf::check::count_states;

impl<'a> Section<'a> {
    // How many states the automaton of the section has before it is held.
    fn plain_states(&self) -> u16
        ensures { result ≡ (plain self.now.widths.reading_bits self.now.widths.command_bits self.now.bytes.now self.now.at).n }
    {
        if self.is_table() {
            return self.count() as u16;
        }
        count_states(
            self.widths.reading_bits,
            self.widths.command_bits,
            self.body(),
        )
        .unwrap_or(2)
    }

    // How many states the automaton of the section has.
    fn states(&self) -> u16
        ensures { result ≡ (machine self.now.widths.reading_bits self.now.widths.command_bits self.now.bytes.now self.now.at).n }
    {
        let n = self.plain_states();
        if !self.is_held() {
            n
        } else if n <= 128 {
            2 * n
        } else {
            257
        }
    }
}

// How many states a pair has, or 257.
fn paired(n: u16, m: u16) -> u16
    ensures { result ≡ (if nat_le (n * m) 256 then n * m else 257) }
{
    n.checked_mul(m)
        .filter(|product| *product <= 256)
        .unwrap_or(257)
}

impl<'a> JobBytes<'a> {
    // How many states the automaton of section `i` has.
    fn part_states(&self, i: u8) -> u16
        requires { i ≤ 5 }
        ensures { result ≡ (part self.now.bytes.now i).n }
    {
        self.section(i).states()
    }

    // How many states the arena has.
    pub(crate) fn arena_states(&self) -> u16
        ensures { result ≡ (sections_arena self.now.bytes.now).n }
    {
        let base = paired(self.part_states(0), self.part_states(1));
        (0..self.rights).fold(base, |n, i| paired(n, self.part_states(i + 2)))
    }
}
