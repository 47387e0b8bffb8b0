// The lines of a drive: each line of the input is a sheet or a call, and is answered by a line, or by
// two where a sheet begins a drive.
ghost use Rattle.std.specs.Prelude.{◌≡◌, ◌++◌, if◌then◌else◌, string_bytes, IfOk, OnOk, None};
ghost use Rattle.sheets.specs.Opened.{bytes_of, built_in, tables};
ghost use Rattle.sheets.specs.Whole.{whole};
ghost use Rattle.drives.specs.Model.{shows};
ghost use Rattle.lines.specs.Drives.{answer_line, call_drive, call_text, shown_line, shown_by, shown_text, kept_by_report, reported_by, report_drive, report_text, begin_drive, begin_text, sheet_drive, sheet_text, in_force, drive_after, text_of, drive_lines};

use crate::refusals::show_refusal;
use assurance::calls::{Answer, Call};
use assurance::drive::Drive;
use drives::begin;
use drives::between::Between;
use sheets::Sheet;
use std::alloc::{AllocError, Global};
use std::fmt::Write;

// A line of the input: the bytes of a sheet, or a call. `Shown` alters no drive, and `Report` uses one up.
#[derive(Drop)]
pub enum Line {
    Sheet(Vec<u8>),
    Call(Call),
    Shown,
    Report,
}

fn show_answer(out: &mut String, call: Call, answer: Answer) -> Result<(), AllocError>
    ensures { OnOk result (string_bytes out.new ≡ string_bytes out.old ++ answer_line call answer) }
{
    match answer {
        Answer::Performed => writeln!(out, "{call}"),
        Answer::Refused(why) => show_refusal(out, why.number()),
        Answer::NotAdmitted => writeln!(out, "not admitted"),
    }
}

// A call, on whatever drive stands.
fn answer_call(
    out: &mut String,
    sheet: &Sheet,
    standing: Option<Drive>,
    call: Call,
) -> Result<Option<Drive>, AllocError>
    ensures drive { IfOk result (λ d. d ≡ call_drive (tables sheet.now) standing call) }
    ensures text { OnOk result (string_bytes out.new ≡ string_bytes out.old ++ call_text (tables sheet.now) standing call) }
{
    let Some(drive) = standing else {
        writeln!(out, "not admitted")?;
        return Ok(None);
    };
    let (drive, answer) = drive.make(sheet, call);
    show_answer(out, call, answer)?;
    Ok(Some(drive))
}

// The rank in the column in force.
fn show_rank(out: &mut String, sheet: &Sheet, drive: &Between) -> Result<(), AllocError>
    ensures { OnOk result (string_bytes out.new ≡ string_bytes out.old ++ shown_line (shows (tables sheet.now) drive.now)) }
{
    match drive.shown(sheet) {
        Ok(rank) => writeln!(out, "shown {rank}"),
        Err(why) => show_refusal(out, why.number()),
    }
}

fn show_shown(out: &mut String, sheet: &Sheet, drive: &Drive) -> Result<(), AllocError>
    ensures { OnOk result (string_bytes out.new ≡ string_bytes out.old ++ shown_by (tables sheet.now) drive.now) }
{
    match drive {
        Drive::Between(drive) => show_rank(out, sheet, drive),
        Drive::Waiting(_) => writeln!(out, "not admitted"),
        Drive::Ended(_) => writeln!(out, "not admitted"),
    }
}

fn answer_shown(out: &mut String, sheet: &Sheet, standing: &Option<Drive>) -> Result<(), AllocError>
    ensures { OnOk result (string_bytes out.new ≡ string_bytes out.old ++ shown_text (tables sheet.now) standing.now) }
{
    match standing {
        None => writeln!(out, "not admitted"),
        Some(drive) => show_shown(out, sheet, drive),
    }
}

// The report of a drive that has ended uses it up.
fn report(out: &mut String, drive: Drive) -> Result<Option<Drive>, AllocError>
    ensures drive { IfOk result (λ d. d ≡ kept_by_report drive) }
    ensures text { OnOk result (string_bytes out.new ≡ string_bytes out.old ++ reported_by drive) }
{
    match drive {
        Drive::Between(drive) => {
            writeln!(out, "not admitted")?;
            Ok(Some(Drive::Between(drive)))
        }
        Drive::Waiting(drive) => {
            writeln!(out, "not admitted")?;
            Ok(Some(Drive::Waiting(drive)))
        }
        Drive::Ended(drive) => {
            let (right, state) = drive.report();
            writeln!(out, "report {right} {state}")?;
            Ok(None)
        }
    }
}

fn answer_report(out: &mut String, standing: Option<Drive>) -> Result<Option<Drive>, AllocError>
    ensures drive { IfOk result (λ d. d ≡ report_drive standing) }
    ensures text { OnOk result (string_bytes out.new ≡ string_bytes out.old ++ report_text standing) }
{
    let Some(drive) = standing else {
        writeln!(out, "not admitted")?;
        return Ok(None);
    };
    report(out, drive)
}

// While no drive stands, an opened sheet begins one.
fn begin_drive(
    out: &mut String,
    sheet: &Sheet,
    standing: Option<Drive>,
) -> Result<Option<Drive>, AllocError>
    ensures drive { IfOk result (λ d. d ≡ begin_drive (tables sheet.now) standing) }
    ensures text { OnOk result (string_bytes out.new ≡ string_bytes out.old ++ begin_text (tables sheet.now) standing) }
{
    if standing.is_some() {
        return Ok(standing);
    }
    match begin(sheet) {
        Ok(drive) => {
            writeln!(out, "begun")?;
            Ok(Some(Drive::Between(drive)))
        }
        Err(why) => {
            show_refusal(out, why.number())?;
            Ok(None)
        }
    }
}

fn answer_sheet<'a>(
    out: &mut String,
    sheet: &mut Sheet<'a>,
    standing: Option<Drive>,
    bytes: &'a [u8],
) -> Result<Option<Drive>, AllocError>
    ensures holds { IfOk result (λ d. bytes_of sheet.new ≡ (if whole bytes.now then bytes.now else bytes_of sheet.old)) }
    ensures drive { IfOk result (λ d. d ≡ sheet_drive bytes.now standing) }
    ensures text { OnOk result (string_bytes out.new ≡ string_bytes out.old ++ sheet_text bytes.now standing) }
{
    match sheet.open(bytes) {
        Ok(()) => {
            writeln!(out, "opened")?;
            begin_drive(out, sheet, standing)
        }
        Err(fault) => {
            show_refusal(out, fault.number())?;
            Ok(standing)
        }
    }
}

fn answer_line<'a>(
    out: &mut String,
    sheet: &mut Sheet<'a>,
    standing: Option<Drive>,
    line: &'a Line,
) -> Result<Option<Drive>, AllocError>
    ensures holds { IfOk result (λ d. bytes_of sheet.new ≡ in_force (bytes_of sheet.old) line.now) }
    ensures drive { IfOk result (λ d. d ≡ drive_after (bytes_of sheet.old) standing line.now) }
    ensures text { OnOk result (string_bytes out.new ≡ string_bytes out.old ++ text_of (bytes_of sheet.old) standing line.now) }
{
    match line {
        Line::Sheet(bytes) => answer_sheet(out, sheet, standing, bytes.as_slice()),
        Line::Call(call) => answer_call(out, sheet, standing, *call),
        Line::Shown => {
            answer_shown(out, sheet, &standing)?;
            Ok(standing)
        }
        Line::Report => answer_report(out, standing),
    }
}

// The text of everything that is printed of the lines: at first a built-in sheet is in force, and no drive stands.
pub fn show_drive(heap: Global, lines: &[Line]) -> Result<String, AllocError>
    ensures { IfOk result (λ out. string_bytes out ≡ drive_lines built_in None lines.now) }
{
    let mut out = String::new(heap);
    let mut sheet = Sheet::built_in();
    let mut standing = None;
    for line in lines {
        standing = answer_line(&mut out, &mut sheet, standing, line)?;
    }
    Ok(out)
}
