// What is printed and read, where memory suffices.
use crate::columns::show_columns;
use crate::drive::{Line, show_drive};
use crate::job::{show_arena, show_job};
use crate::line::{LineFault, read_line};
use crate::ranks::show_ranks;
use crate::refusals::{show_job_fault, show_refusal};
use crate::rule::{show_round, show_state};
use crate::verdict::show_verdict;
use crate::words::{ReadFault, read_bytes, read_capped, read_pair};
use automata::word::Round;
use games::verdict::Verdict;
use jobs::fault::JobFault;
use jobs::read::load;
use ltlf::rule::Rule;
use ltlf::widths::Widths;
use planner::Planner;
use sheets::Sheet;
use std::test::Fail;

const RIVALS: [u8; 17] = [68, 70, 1, 0, 1, 2, 3, 0, 0, 3, 5, 1, 2, 1, 1, 2, 2];

#[test]
fn refusals(rt: HostRuntime) -> Result<(), Fail> {
    let mut out = String::new(rt.alloc());
    show_refusal(&mut out, 17)?;
    show_job_fault(&mut out, JobFault::NotAJob)?;
    show_job_fault(&mut out, JobFault::Malformed(2))?;
    assert!(rt; out.as_str() == "refused 17\nrefused 8\nrefused 12 2\n");
    Ok(())
}

#[test]
fn verdicts(rt: HostRuntime) -> Result<(), Fail> {
    let mut out = String::new(rt.alloc());
    show_verdict(&mut out, Verdict::Planned(2), 6, 1)?;
    show_verdict(&mut out, Verdict::Unplayable(1), 3, 2)?;
    show_verdict(&mut out, Verdict::Groundless, 256, 0)?;
    assert!(rt; out.as_str() == "planned 6 1 2\nunplayable 3 2 1\ngroundless 256 0 0\n");
    Ok(())
}

// Two rights that are each kept open alone, and not together.
#[test]
fn rivals(rt: HostRuntime) -> Result<(), Fail> {
    let lines = "unplayable 3 2 0\n0 0 255 255\n1 255 255 0\n2 255 0 255\n";
    let mut planner = Planner::new(rt.alloc())?;
    let mut buffer = [0u8; 80];
    let mut out = String::new(rt.alloc());
    let verdict = show_job(&mut out, rt.alloc(), &mut planner, &RIVALS, &mut buffer)?;
    assert!(rt; verdict == Some(Verdict::Unplayable(0)));
    assert!(rt; out.as_str() == lines);
    let Ok(job) = load(rt.alloc(), &RIVALS) else {
        return Err(Fail::new("refused"));
    };
    let mut again = String::new(rt.alloc());
    show_arena(&mut again, &mut planner, &job, &mut buffer)?;
    assert!(rt; again.as_str() == lines);
    let mut columns = String::new(rt.alloc());
    show_columns(&mut columns, &job, &buffer)?;
    assert!(rt; columns.as_str() == "0 0 255 255\n1 255 255 0\n2 255 0 255\n");
    Ok(())
}

// A duty with a right that can be kept open: two rounds, the first without push.
#[test]
fn survey(rt: HostRuntime) -> Result<(), Fail> {
    let job = [
        68, 70, 1, 0, 1, 1, 6, 0, 0, 2, 0, 1, 3, 1, 1, 5, 1, 4, 2, 5, 4, 5, 4, 4, 5, 5,
    ];
    let ranks = "0 0 2 1\n0 1 1 2\n0 3 0 0\n0 4 0 0\n1 0 2 1\n1 1 1 2\n1 3 1 1\n1 4 0 0\n";
    let mut planner = Planner::new(rt.alloc())?;
    let mut buffer = [0u8; 86];
    let mut out = String::new(rt.alloc());
    let verdict = show_job(&mut out, rt.alloc(), &mut planner, &job, &mut buffer)?;
    assert!(rt; verdict == Some(Verdict::Planned(2)));
    let mut sheet = Sheet::built_in();
    assert!(rt; sheet.open(&buffer).is_ok());
    let mut shown = String::new(rt.alloc());
    shown.push_str("planned 6 1 2\n")?;
    show_ranks(&mut shown, &sheet)?;
    assert!(rt; out.as_str() == shown.as_str());
    assert!(rt; out.as_str().strip_prefix("planned 6 1 2\n") == Some(ranks));
    Ok(())
}

#[test]
fn drives(rt: HostRuntime) -> Result<(), Fail> {
    let mut lines = Vec::new(rt.alloc());
    for text in [
        "shown",
        "68 83 1 0 0 0 1 0 0 0 20 0 21 0 23 0 25 0 26 0 0 255 255 0 0 0",
        "shown",
        "read 300",
        "stop",
        "claim 1",
        "report",
        "report",
        "1",
    ] {
        match read_line(rt.alloc(), text) {
            Ok(line) => lines.push(line)?,
            Err(_) => return Err(Fail::new("not read")),
        }
    }
    let out = show_drive(rt.alloc(), lines.as_slice())?;
    assert!(rt;
        out.as_str()
            == "not admitted\nopened\nbegun\nshown 0\nrefused 19\nstop\nnot admitted\nreport 0 0\nnot admitted\nrefused 18\n"
    );
    assert!(rt; read_line(rt.alloc(), "read").err() == Some(LineFault::LacksNumber));
    assert!(rt; read_line(rt.alloc(), "claim x 1").err() == Some(LineFault::NotANumber));
    assert!(rt;
        read_line(rt.alloc(), "68 256").err() == Some(LineFault::Sheet(ReadFault::NotBytes))
    );
    Ok(())
}

// !X0 holds after one round, since none follows it.
#[test]
fn rules(rt: HostRuntime) -> Result<(), Fail> {
    let widths = Widths::new(0, 1).ok_or("too wide")?;
    let Ok(rule) = Rule::from_text(rt.alloc(), widths, b"!X0") else {
        return Err(Fail::new("refused"));
    };
    let mut out = String::new(rt.alloc());
    show_state(&mut out, &rule, 0)?;
    let next = show_round(
        &mut out,
        &rule,
        0,
        Round {
            reading: 0,
            command: 0,
        },
    )?;
    assert!(rt; next == Some(1));
    show_round(
        &mut out,
        &rule,
        1,
        Round {
            reading: 1,
            command: 0,
        },
    )?;
    assert!(rt; out.as_str() == "0 0\n1 1\nnone\n");
    Ok(())
}

#[test]
fn words(rt: HostRuntime) -> Result<(), Fail> {
    let mut bytes = Vec::new(rt.alloc());
    assert!(rt; read_bytes(&mut bytes, " 7 +7\t007\n255").is_ok());
    assert!(rt; bytes.as_slice() == [7u8, 7, 7, 255].as_slice());
    assert!(rt; read_bytes(&mut bytes, "7 256") == Err(ReadFault::NotBytes));
    assert!(rt; read_bytes(&mut bytes, "7 -1") == Err(ReadFault::NotBytes));
    assert_eq!(rt; read_capped("255"), Some(255));
    assert_eq!(rt; read_capped("18446744073709551615"), Some(255));
    assert_eq!(rt; read_capped("18446744073709551616"), None);
    assert_eq!(rt; read_pair(" 3 1000 "), Some((3, 255)));
    assert_eq!(rt; read_pair("3"), None);
    assert_eq!(rt; read_pair("3 4 5"), None);
    assert_eq!(rt; read_pair("3 x"), None);
    Ok(())
}
