// The arena of a job from the automata of its sections.
ghost use Rattle.std.specs.Prelude.{◌≡◌, suc, ◌+◌, ◌≤◌, MatchResult};
ghost use Rattle.automata.specs.Arena.{arena_of};
ghost use Rattle.automata.specs.Layers.{duty_arena, right_arena};
ghost use Rattle.automata.specs.Table.{table as tabled};
ghost use Rattle.jobs.specs.Parts.{part, nested, sections_arena};
ghost use Rattle.jobs.specs.Meanings.{part_machine, job_arena};
ghost use Rattle.jobs.specs.Loaded.{Sound, AllSound};
ghost use Rattle.jobs.specs.declared.load.LoadFault.TheVariants.{Memory as NoMemory};

use crate::job::{Job, NoRights};
use crate::job_bytes::JobBytes;
use crate::load::LoadFault;
use crate::part::Part;
use automata::arena::Arena;
use automata::duty::WithDuty;
use automata::right::WithRight;
use std::alloc::Global;

impl<'a> JobBytes<'a> {
    // Ground and duty.
    fn load_base(&self, heap: Global) -> Result<NoRights, LoadFault>
        requires { AllSound self.now.bytes.now }
        ensures { MatchResult result (λ w. duty_arena (tabled w.terrain.shape w.terrain.bytes.items) (part_machine w.duty) ≡ nested (part self.now.bytes.now) 0) (λ e. e ≡ NoMemory) }
    {
        let ground = self.section(0).load_table(heap)?;
        let duty = self.load_part(heap, 1)?;
        Ok(WithDuty::of(ground, duty))
    }

    // An arena of so many rights, and the next one.
    fn add_right<P: Arena + Drop>(
        &self,
        heap: Global,
        arena: P,
        rights: u8,
    ) -> Result<WithRight<P, Part>, LoadFault>
        requires few { rights ≤ 3 }
        requires sound { Sound self.now.bytes.now (rights + 2) }
        requires made { arena_of P.Automaton P.Arena.own arena ≡ nested (part self.now.bytes.now) rights }
        ensures { MatchResult result (λ w. right_arena (arena_of P.Automaton P.Arena.own w.arena) (part_machine w.right) ≡ nested (part self.now.bytes.now) (suc rights)) (λ e. e ≡ NoMemory) }
    {
        let right = self.load_part(heap, rights + 2)?;
        Ok(WithRight::of(arena, right))
    }

    // Ground and duty with each right in turn.
    pub(crate) fn load(&self, heap: Global) -> Result<Job, LoadFault>
        requires { AllSound self.now.bytes.now }
        ensures { MatchResult result (λ j. job_arena j ≡ sections_arena self.now.bytes.now) (λ e. e ≡ NoMemory) }
    {
        let base = self.load_base(heap)?;
        if self.rights == 0 {
            return Ok(Job::None(base));
        }
        let one = self.add_right(heap, base, 0)?;
        if self.rights == 1 {
            return Ok(Job::One(Box::new(heap, one)?));
        }
        let two = self.add_right(heap, one, 1)?;
        if self.rights == 2 {
            return Ok(Job::Two(Box::new(heap, two)?));
        }
        let three = self.add_right(heap, two, 2)?;
        if self.rights == 3 {
            return Ok(Job::Three(Box::new(heap, three)?));
        }
        let four = self.add_right(heap, three, 3)?;
        Ok(Job::Four(Box::new(heap, four)?))
    }
}
