// The arena of a job: a flat one, or ground and duty paired and that with each right in turn.
ghost use Rattle.std.specs.Prelude.{◌≡◌};
ghost use Rattle.jobs.specs.Meanings.{job_arena};
ghost use Rattle.jobs.specs.PartLaws.{job_keeps};

use crate::part::Part;
use automata::arena::Arena;
use automata::automaton::Automaton;
use automata::duty::WithDuty;
use automata::flat::Flat;
use automata::right::WithRight;
use automata::table::Table;

pub type NoRights = WithDuty<Table<Vec<u8>>, Part>;

pub type OneRight = WithRight<NoRights, Part>;

pub type TwoRights = WithRight<OneRight, Part>;

pub type ThreeRights = WithRight<TwoRights, Part>;

pub type FourRights = WithRight<ThreeRights, Part>;

#[derive(Drop)]
pub enum Job {
    Flat(Flat<Vec<u8>>),
    None(NoRights),
    One(Box<OneRight>),
    Two(Box<TwoRights>),
    Three(Box<ThreeRights>),
    Four(Box<FourRights>),
}

// What the arena of a job answers.
macro_rules! within {
    ($job:expr, $arena:ident, $answer:expr) => {
        match $job {
            Job::Flat($arena) => $answer,
            Job::None($arena) => $answer,
            Job::One($arena) => $answer,
            Job::Two($arena) => $answer,
            Job::Three($arena) => $answer,
            Job::Four($arena) => $answer,
        }
    };
}

impl Automaton for Job {
    ghost a = { λ s. (job_arena s).a };

    ghost b = { λ s. (job_arena s).b };

    ghost n = { λ s. (job_arena s).n };

    ghost start = { λ s. (job_arena s).start };

    ghost marked = { λ s. (job_arena s).marked };

    ghost step = { λ s. (job_arena s).step };

    ghost narrow = { λ s. ((job_keeps s).0.narrow_readings, (job_keeps s).0.narrow_commands) };

    ghost sized = { λ s. ((job_keeps s).0.some_state, (job_keeps s).0.sized) };

    ghost begins = { λ s. (job_keeps s).0.begins };

    ghost enters = { λ s. (job_keeps s).0.enters };

    ghost state_outside = { λ s. (job_keeps s).0.state_outside };

    ghost reading_outside = { λ s. (job_keeps s).0.reading_outside };

    ghost command_outside = { λ s. (job_keeps s).0.command_outside };

    ghost mark_outside = { λ s. (job_keeps s).0.mark_outside };

    ghost full_start = { λ s. (job_keeps s).0.full_start };

    ghost full_step = { λ s. (job_keeps s).0.full_step };

    ghost full_mark = { λ s. (job_keeps s).0.full_mark };

    fn reading_bits(&self) -> u8 {
        within!(self, arena, arena.reading_bits())
    }

    fn command_bits(&self) -> u8 {
        within!(self, arena, arena.command_bits())
    }

    fn count(&self) -> u16 {
        within!(self, arena, arena.count())
    }

    fn start(&self) -> u16 {
        within!(self, arena, arena.start())
    }

    fn marked(&self, q: u16) -> bool {
        within!(self, arena, arena.marked(q))
    }

    fn step(&self, q: u16, x: u8, y: u8) -> Option<u16> {
        within!(self, arena, arena.step(q, x, y))
    }
}

impl Arena for Job {
    ghost k = { λ s. (job_arena s).k };

    ghost right = { λ s. (job_arena s).right };

    ghost few = { λ s. (job_keeps s).1.few };

    ghost no_zeroth = { λ s. (job_keeps s).1.no_zeroth };

    ghost right_outside = { λ s. (job_keeps s).1.right_outside };

    ghost right_state_outside = { λ s. (job_keeps s).1.right_state_outside };

    ghost full_rights = { λ s. (job_keeps s).1.full_rights };

    fn rights(&self) -> u8 {
        within!(self, arena, arena.rights())
    }

    fn right(&self, i: u8, q: u16) -> bool {
        within!(self, arena, arena.right(i, q))
    }
}
