// Making the automata of a job's sections.
ghost use Rattle.std.specs.Prelude.{◌≡◌, ◌≤◌, true, false, Ok, MatchResult};
ghost use Rattle.automata.specs.Table.{table as tabled};
ghost use Rattle.automata.specs.Machine.{machine_of};
ghost use Rattle.ltlf.specs.contracts.automaton.RuleAutomaton.TheImpl.{ghosts as automatic};
ghost use Rattle.jobs.specs.Sections.{is_table, section_fits, text_fault};
ghost use Rattle.jobs.specs.Parts.{plain, machine, part};
ghost use Rattle.jobs.specs.Meanings.{part_machine};
ghost use Rattle.jobs.specs.Loaded.{Sound};
ghost use Rattle.jobs.specs.declared.load.LoadFault.TheVariants.{Memory as NoMemory, Refused as ByFault};

use crate::fault::JobFault;
use crate::job_bytes::JobBytes;
use crate::part::Part;
use crate::section::Section;
use automata::held::Held;
use automata::shape::Shape;
use automata::table::Table;
use ltlf::rule::Rule;
use std::alloc::{AllocError, AllocFailed, Global};

// Why no job is made.
#[derive(Clone, Copy)]
pub enum LoadFault {
    Refused(JobFault),
    Memory,
}

impl From<JobFault> for LoadFault {
    ghost from_gives = { λ e r. r ≡ ByFault e };

    fn from(fault: JobFault) -> LoadFault {
        LoadFault::Refused(fault)
    }
}

impl From<AllocError> for LoadFault {
    ghost from_gives = { λ _ r. r ≡ NoMemory };

    fn from(_e: AllocError) -> LoadFault {
        LoadFault::Memory
    }
}

impl<T: Drop> From<AllocFailed<T>> for LoadFault {
    ghost from_gives = { λ _ r. r ≡ NoMemory };

    fn from(_e: AllocFailed<T>) -> LoadFault {
        LoadFault::Memory
    }
}

impl<'a> Section<'a> {
    // The table of a section that is well formed.
    pub(crate) fn load_table(&self, heap: Global) -> Result<Table<Vec<u8>>, LoadFault>
        requires kind { is_table self.now.bytes.now self.now.at ≡ true }
        requires fits { section_fits self.now.widths.reading_bits self.now.widths.command_bits self.now.bytes.now self.now.at ≡ true }
        ensures { MatchResult result (λ t. tabled t.shape t.bytes.items ≡ plain self.now.widths.reading_bits self.now.widths.command_bits self.now.bytes.now self.now.at) (λ e. e ≡ NoMemory) }
    {
        let bytes = self.body().to_vec(heap)?;
        let shape = Shape {
            reading_bits: self.widths.reading_bits,
            command_bits: self.widths.command_bits,
            count: self.count(),
            start: self.byte(3),
        };
        Ok(Table { shape, bytes })
    }

    // The rule of a section whose text is a rule's.
    fn load_rule(&self, heap: Global) -> Result<Rule, LoadFault>
        requires kind { is_table self.now.bytes.now self.now.at ≡ false }
        requires text { text_fault self.now.widths.reading_bits self.now.widths.command_bits self.now.bytes.now self.now.at ≡ Ok tt }
        ensures { MatchResult result (λ m. machine_of automatic m ≡ plain self.now.widths.reading_bits self.now.widths.command_bits self.now.bytes.now self.now.at) (λ e. e ≡ NoMemory) }
    {
        // The text has been checked, so that nothing but memory can be wanting.
        Rule::from_text(heap, self.widths, self.body()).map_err(|_| LoadFault::Memory)
    }

    // The automaton of a section that is well formed, and whose text is a rule's if it has one.
    fn load(&self, heap: Global) -> Result<Part, LoadFault>
        requires fits { section_fits self.now.widths.reading_bits self.now.widths.command_bits self.now.bytes.now self.now.at ≡ true }
        requires text { text_fault self.now.widths.reading_bits self.now.widths.command_bits self.now.bytes.now self.now.at ≡ Ok tt }
        ensures { MatchResult result (λ p. part_machine p ≡ machine self.now.widths.reading_bits self.now.widths.command_bits self.now.bytes.now self.now.at) (λ e. e ≡ NoMemory) }
    {
        match (self.is_table(), self.is_held()) {
            (true, false) => Ok(Part::Table(self.load_table(heap)?)),
            (true, true) => Ok(Part::HeldTable(Held::over(self.load_table(heap)?))),
            (false, false) => Ok(Part::Rule(self.load_rule(heap)?)),
            (false, true) => Ok(Part::HeldRule(Held::over(self.load_rule(heap)?))),
        }
    }
}

impl<'a> JobBytes<'a> {
    // The automaton of section `i`.
    pub(crate) fn load_part(&self, heap: Global, i: u8) -> Result<Part, LoadFault>
        requires few { i ≤ 5 }
        requires sound { Sound self.now.bytes.now i }
        ensures { MatchResult result (λ p. part_machine p ≡ part self.now.bytes.now i) (λ e. e ≡ NoMemory) }
    {
        self.section(i).load(heap)
    }
}
