// Calls of a drive, what they answer, and entries for them.
ghost use Rattle.std.specs.Prelude.{◌≡◌, Some};
ghost use Rattle.assurance.specs.Answers.{answer_number};
ghost use Rattle.assurance.specs.Calls.{call_word};

use drives::refusal::Refusal;
use std::fmt;

#[derive(Clone, Copy)]
pub enum Call {
    Read(u8),
    Command(u8),
    Claim(u8),
    Stop,
}

// A call prints as its word.
impl fmt::Display for Call {
    ghost output = { λ c. Some (call_word c) };

    fn fmt<W: fmt::Write>(&self, f: &mut fmt::Formatter<W>) -> fmt::Result {
        f.write_str(match self {
            Call::Read(_) => "read",
            Call::Command(_) => "command",
            Call::Claim(_) => "claim",
            Call::Stop => "stop",
        })
    }
}

#[derive(Clone, Copy)]
pub enum Answer {
    Performed,
    Refused(Refusal),
    // The drive does not admit the call as it stands, and the call counts for nothing.
    NotAdmitted,
}

impl Answer {
    // The number under which the answer is known: 0 if performed. A call that is not admitted has none.
    pub fn number(&self) -> Option<u8>
        ensures { result ≡ answer_number self.now }
    {
        match *self {
            Answer::Performed => Some(0),
            Answer::Refused(why) => Some(why.number()),
            Answer::NotAdmitted => None,
        }
    }
}

// A call, with a place for its answer.
#[derive(Clone, Copy)]
pub struct Entry {
    pub call: Call,
    pub answer: Option<Answer>,
}
