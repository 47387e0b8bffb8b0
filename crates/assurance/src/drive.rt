// A drive of any state, and a call made on it.
ghost use Rattle.std.specs.Prelude.{◌≡◌};
ghost use Rattle.sheets.specs.Opened.{tables};
ghost use Rattle.assurance.specs.Made.{settled, between_makes, waiting_makes, makes};

use crate::calls::{Answer, Call};
use drives::between::Between;
use drives::ended::Ended;
use drives::refusal::Refused;
use drives::waiting::Waiting;
use sheets::Sheet;

#[derive(Drop)]
pub enum Drive {
    Between(Between),
    Waiting(Waiting),
    Ended(Ended),
}

// What a call on a drive came to: performed, the drive is the next one; refused, it is as it was.
fn settled<S: Drop, N, W, T>(made: Result<N, Refused<S>>, was: W, next: T) -> (Drive, Answer)
where
    W: FnOnce(S) -> Drive + Drop,
    T: FnOnce(N) -> Drive + Drop,
    requires was { W.IsAlwaysCallable was }
    requires next { T.IsAlwaysCallable next }
    ensures { (w : S → Drive) (n : N → Drive) → ((s : S) (d : Drive) → W.post was s d → d ≡ w s) → ((s : N) (d : Drive) → T.post next s d → d ≡ n s) → result ≡ settled w n made }
{
    match made {
        Ok(state) => (next(state), Answer::Performed),
        Err(refused) => (was(refused.state), Answer::Refused(refused.why)),
    }
}

// Makes a call on a drive between rounds, which admits all but a command: a reading comes first.
fn make_between(drive: Between, sheet: &Sheet, call: Call) -> (Drive, Answer)
    ensures { result ≡ between_makes (tables sheet.now) drive call }
{
    match call {
        Call::Read(reading) => settled(drive.read(sheet, reading), Drive::Between, Drive::Waiting),
        Call::Command(_) => (Drive::Between(drive), Answer::NotAdmitted),
        Call::Claim(right) => settled(drive.claim(sheet, right), Drive::Between, Drive::Between),
        Call::Stop => settled(drive.stop(sheet), Drive::Between, Drive::Ended),
    }
}

// Makes a call on a drive whose reading waits, which admits nothing but the command for it.
fn make_waiting(drive: Waiting, sheet: &Sheet, call: Call) -> (Drive, Answer)
    ensures { result ≡ waiting_makes (tables sheet.now) drive call }
{
    match call {
        Call::Command(command) => settled(
            drive.command(sheet, command),
            Drive::Waiting,
            Drive::Between,
        ),
        Call::Read(_) | Call::Claim(_) | Call::Stop => (Drive::Waiting(drive), Answer::NotAdmitted),
    }
}

impl Drive {
    // Makes a call. One that the drive does not admit as it stands leaves it.
    pub fn make(self, sheet: &Sheet, call: Call) -> (Drive, Answer)
        ensures { result ≡ makes (tables sheet.now) self call }
    {
        match self {
            Drive::Between(drive) => make_between(drive, sheet, call),
            Drive::Waiting(drive) => make_waiting(drive, sheet, call),
            Drive::Ended(drive) => (Drive::Ended(drive), Answer::NotAdmitted),
        }
    }
}
