// The sections of a job.
ghost use Rattle.std.specs.Prelude.{◌≡◌, ◌≤◌};
ghost use Rattle.jobs.specs.FlatJob.{byte};
ghost use Rattle.jobs.specs.Parts.{offset};

use crate::job_bytes::JobBytes;
use crate::section::Section;

impl<'a> JobBytes<'a> {
    fn section_at(&self, at: usize) -> Section<'a>
        requires { at ≤ 100000 }
        ensures widths { result.widths ≡ self.now.widths }
        ensures bytes { result.bytes.now ≡ self.now.bytes.now }
        ensures at { result.at ≡ at }
    {
        Section {
            widths: self.widths,
            bytes: self.bytes,
            at,
        }
    }

    // Section `i`, which begins where the one before ends: the ground is section 0, the duty 1, right
    // i is i + 1.
    pub(crate) fn section(&self, i: u8) -> Section<'a>
        requires { i ≤ 5 }
        ensures widths { result.widths ≡ self.now.widths }
        ensures bytes { result.bytes.now ≡ self.now.bytes.now }
        ensures at { result.at ≡ offset (byte self.now.bytes.now 3) (byte self.now.bytes.now 4) self.now.bytes.now i }
    {
        let at = (0..i).fold(8, |at, _| self.section_at(at).end());
        self.section_at(at)
    }
}
