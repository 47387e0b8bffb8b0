// A section of a job, where it stands in the job's bytes.
ghost use Rattle.std.specs.Prelude.{◌≡◌, ◌+◌, ◌≤◌, not, ◌||◌, ltb, ◌==◌, nat_eq, nat_lt};
ghost use Rattle.ranges.specs.Ranges.{all as every};
ghost use Rattle.jobs.specs.FlatJob.{byte};
ghost use Rattle.jobs.specs.Sections.{is_table, is_held, count as states, cells as steps, mark, cell, body as text, body_length, end as ends, table_fits, rule_fits, section_fits, is_ground, goes_on, text_fault};

use crate::fault::SectionFault;
use crate::flat::cells_of;
use automata::bytes::Bytes;
use ltlf::check::check;
use ltlf::widths::Widths;

// The section that begins at a place.
#[derive(Clone, Copy)]
pub(crate) struct Section<'a> {
    pub(crate) widths: Widths,
    pub(crate) bytes: &'a [u8],
    pub(crate) at: usize,
    ghost near: { at ≤ 100000 },
}

impl<'a> Section<'a> {
    // Byte `i` of the section, or 0 past the end of the job.
    pub(crate) fn byte(&self, i: usize) -> u8
        requires { i ≤ 20000 }
        ensures { result ≡ byte self.now.bytes.now (self.now.at + i) }
    {
        self.bytes.at(self.at + i)
    }

    pub(crate) fn is_table(&self) -> bool
        ensures { result ≡ is_table self.now.bytes.now self.now.at }
    {
        self.byte(0) == 1
    }

    pub(crate) fn is_held(&self) -> bool
        ensures { result ≡ is_held self.now.bytes.now self.now.at }
    {
        self.byte(1) == 1
    }

    // How many states a table has, or how many bytes a rule's text.
    pub(crate) fn count(&self) -> u8
        ensures { result ≡ states self.now.bytes.now self.now.at }
    {
        self.byte(2)
    }

    // How many step bytes a table has.
    fn cells(&self) -> usize
        ensures value { result ≡ steps self.now.widths.reading_bits self.now.widths.command_bits self.now.bytes.now self.now.at }
        ensures bound { result ≤ 16320 }
    {
        cells_of(self.count(), self.widths)
    }

    // How many bytes follow the first four.
    pub(crate) fn body_length(&self) -> usize
        ensures value { result ≡ body_length self.now.widths.reading_bits self.now.widths.command_bits self.now.bytes.now self.now.at }
        ensures bound { result ≤ 16575 }
    {
        let count = self.count() as usize;
        if self.is_table() {
            count + self.cells()
        } else {
            count
        }
    }

    // Where the section ends.
    pub(crate) fn end(&self) -> usize
        ensures value { result ≡ ends self.now.widths.reading_bits self.now.widths.command_bits self.now.bytes.now self.now.at }
        ensures bound { result ≤ self.now.at + 16579 }
    {
        self.at + 4 + self.body_length()
    }

    // The bytes that follow the first four, as far as there are any.
    pub(crate) fn body(&self) -> &'a [u8]
        ensures { result.now ≡ text self.now.widths.reading_bits self.now.widths.command_bits self.now.bytes.now self.now.at }
    {
        let rest = self.bytes.get(self.at + 4..).unwrap_or(&[]);
        &rest[..rest.len().min(self.body_length())]
    }

    // Mark byte `q` of a table.
    fn mark(&self, q: usize) -> u8
        requires { q ≤ 255 }
        ensures { result ≡ mark self.now.bytes.now self.now.at q }
    {
        self.bytes.at(self.at + 4 + q)
    }

    // Step byte `i` of a table.
    fn cell(&self, i: usize) -> u8
        requires { i ≤ 16320 }
        ensures { result ≡ cell self.now.bytes.now self.now.at i }
    {
        self.bytes.at(self.at + 4 + self.count() as usize + i)
    }

    // Whether each mark is 0 or 1.
    fn marks_fit(&self) -> bool
        ensures { result ≡ every (states self.now.bytes.now self.now.at) (λ q. ltb (mark self.now.bytes.now self.now.at q) 2) }
    {
        (0..self.count() as usize).all(|q| self.mark(q) < 2)
    }

    // Whether each mark is 0.
    fn is_unmarked(&self) -> bool
        ensures { result ≡ every (states self.now.bytes.now self.now.at) (λ q. nat_eq (mark self.now.bytes.now self.now.at q) 0) }
    {
        (0..self.count() as usize).all(|q| self.mark(q) == 0)
    }

    // Whether each step is a state or none.
    fn steps_fit(&self) -> bool
        ensures { result ≡ every (steps self.now.widths.reading_bits self.now.widths.command_bits self.now.bytes.now self.now.at) (λ i. nat_lt (cell self.now.bytes.now self.now.at i) (states self.now.bytes.now self.now.at) || cell self.now.bytes.now self.now.at i == 255) }
    {
        (0..self.cells()).all(|i| self.cell(i) < self.count() || self.cell(i) == 255)
    }

    // Whether no step is none.
    fn never_stops(&self) -> bool
        ensures { result ≡ every (steps self.now.widths.reading_bits self.now.widths.command_bits self.now.bytes.now self.now.at) (λ i. not (cell self.now.bytes.now self.now.at i == 255)) }
    {
        (0..self.cells()).all(|i| self.cell(i) != 255)
    }

    fn table_fits(&self) -> bool
        ensures { result ≡ table_fits self.now.widths.reading_bits self.now.widths.command_bits self.now.bytes.now self.now.at }
    {
        let n = self.count();
        1 <= n && n <= 64 && self.byte(3) < n && self.marks_fit() && self.steps_fit()
    }

    fn rule_fits(&self) -> bool
        ensures { result ≡ rule_fits self.now.bytes.now self.now.at }
    {
        self.byte(0) == 2 && self.byte(3) == 0
    }

    // Whether the section is well formed, and not cut short.
    pub(crate) fn fits(&self) -> bool
        ensures { result ≡ section_fits self.now.widths.reading_bits self.now.widths.command_bits self.now.bytes.now self.now.at }
    {
        if self.byte(1) > 1 || self.end() > self.bytes.len() {
            return false;
        }
        if self.is_table() {
            self.table_fits()
        } else {
            self.rule_fits()
        }
    }

    // Whether the section is a plain table without marks.
    pub(crate) fn is_ground(&self) -> bool
        ensures { result ≡ is_ground self.now.bytes.now self.now.at }
    {
        self.is_table() && !self.is_held() && self.is_unmarked()
    }

    // Whether no step of a table is none.
    pub(crate) fn goes_on(&self) -> bool
        ensures { result ≡ goes_on self.now.widths.reading_bits self.now.widths.command_bits self.now.bytes.now self.now.at }
    {
        !self.is_table() || self.never_stops()
    }

    // The fault of a rule's text.
    pub(crate) fn text_fault(&self) -> Result<(), SectionFault>
        ensures { result ≡ text_fault self.now.widths.reading_bits self.now.widths.command_bits self.now.bytes.now self.now.at }
    {
        if !self.is_table() {
            check(
                self.widths.reading_bits,
                self.widths.command_bits,
                self.body(),
            )?;
        }
        Ok(())
    }
}
