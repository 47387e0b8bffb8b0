// The line of a verdict.
ghost use Rattle.std.specs.Prelude.{◌≡◌, ◌++◌, string_bytes, OnOk};
ghost use Rattle.lines.specs.Verdicts.{verdict_line};

use games::verdict::Verdict;
use std::alloc::AllocError;
use std::fmt::Write;

// The verdict, the count of states, the rights, and the verdict's number.
pub fn show_verdict(
    out: &mut String,
    verdict: Verdict,
    count: u16,
    rights: u8,
) -> Result<(), AllocError>
    ensures { OnOk result (string_bytes out.new ≡ string_bytes out.old ++ verdict_line verdict count rights) }
{
    let number = verdict.number();
    writeln!(out, "{verdict} {count} {rights} {number}")
}
