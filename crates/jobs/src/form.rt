// The two forms of a job.
ghost use Rattle.std.specs.Prelude.{◌≡◌};
ghost use Rattle.jobs.specs.FlatJob.{begins_as, form_byte};

use automata::bytes::Bytes;

#[derive(Clone, Copy)]
pub(crate) enum Form {
    Flat,
    Sections,
}

impl Form {
    // The second byte of a job of this form.
    fn byte(self) -> u8
        ensures { result ≡ form_byte self }
    {
        match self {
            Form::Flat => 70,
            Form::Sections => 74,
        }
    }

    // Whether the bytes begin as a job of this form does.
    pub(crate) fn leads(self, bytes: &[u8]) -> bool
        ensures { result ≡ begins_as (form_byte self) bytes.now }
    {
        bytes.len() >= 8 && bytes.at(0) == 68 && bytes.at(1) == self.byte() && bytes.at(2) == 1
    }
}
