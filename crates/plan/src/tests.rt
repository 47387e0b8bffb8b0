// The worked examples, and one job for each refusal.
use crate::plan_job;
use assurance::assure::assure;
use automata::arena::Arena;
use automata::automaton::Automaton;
use jobs::read::load;
use planner::Planner;
use std::process::Abort;
use std::test::Fail;

fn prints(rt: &(impl Abort + AllocGlobal), job: &[u8], lines: &str) -> Result<(), Fail> {
    let answer = plan_job(rt.alloc(), job)?;
    assert!(rt; answer.lines.as_str() == lines);
    Ok(())
}

// A duty with a right that can be kept open: two rounds, the first without push.
#[test]
fn survey(rt: HostRuntime) -> Result<(), Fail> {
    let job = [
        68, 70, 1, 0, 1, 1, 6, 0, 0, 2, 0, 1, 3, 1, 1, 5, 1, 4, 2, 5, 4, 5, 4, 4, 5, 5,
    ];
    let lines =
        "planned 6 1 2\n0 0 2 1\n0 1 1 2\n0 3 0 0\n0 4 0 0\n1 0 2 1\n1 1 1 2\n1 3 1 1\n1 4 0 0\n";
    prints(&rt, &job, lines)
}

// Two rights that are each kept open alone, and not together.
#[test]
fn rivals(rt: HostRuntime) -> Result<(), Fail> {
    let both = [68, 70, 1, 0, 1, 2, 3, 0, 0, 3, 5, 1, 2, 1, 1, 2, 2];
    prints(
        &rt,
        &both,
        "unplayable 3 2 0\n0 0 255 255\n1 255 255 0\n2 255 0 255\n",
    )?;
    let first = [68, 70, 1, 0, 1, 1, 3, 0, 0, 3, 1, 1, 2, 1, 1, 2, 2];
    prints(
        &rt,
        &first,
        "planned 3 1 1\n0 0 1 1\n0 1 0 0\n1 0 1 1\n1 1 0 0\n",
    )?;
    let second = [68, 70, 1, 0, 1, 1, 3, 0, 0, 1, 3, 1, 2, 1, 1, 2, 2];
    prints(
        &rt,
        &second,
        "planned 3 1 1\n0 0 1 2\n0 2 0 0\n1 0 1 2\n1 2 0 0\n",
    )
}

// A duty that waits for a reading which the ground never gives.
#[test]
fn waiting(rt: HostRuntime) -> Result<(), Fail> {
    let job = [68, 70, 1, 1, 0, 0, 2, 0, 0, 1, 0, 1, 1, 1];
    prints(&rt, &job, "unplayable 2 0 0\n0 0 255\n")
}

// A ground that breaks, and a duty that is carried at the start.
#[test]
fn ends(rt: HostRuntime) -> Result<(), Fail> {
    prints(
        &rt,
        &[68, 70, 1, 0, 1, 0, 1, 0, 1, 0, 255],
        "groundless 1 0 0\n",
    )?;
    prints(
        &rt,
        &[68, 70, 1, 0, 0, 0, 1, 0, 1, 0],
        "planned 1 0 0\n0 0 0 0\n",
    )
}

#[test]
fn refused(rt: HostRuntime) -> Result<(), Fail> {
    prints(&rt, &[], "refused 8\n")?;
    prints(&rt, &[68, 70, 2, 4, 0, 0, 1, 0, 1, 0], "refused 8\n")?;
    prints(&rt, &[68, 70, 1, 4, 0, 5, 1, 0, 1, 0], "refused 9\n")?;
    prints(&rt, &[68, 70, 1, 0, 0, 5, 0, 0, 1, 0], "refused 10\n")?;
    prints(&rt, &[68, 70, 1, 0, 0, 0, 0, 0, 1, 0], "refused 12 0\n")?;
    prints(&rt, &[68, 70, 1, 0, 0, 0, 1, 0, 1, 0, 0], "refused 12 0\n")
}

// Each refusal of a section, with the section.
#[test]
fn sections_refused(rt: HostRuntime) -> Result<(), Fail> {
    prints(
        &rt,
        &[
            68, 74, 1, 0, 1, 1, 37, 0, 1, 0, 1, 0, 0, 0, 0, 1, 0, 2, 0, 0, 1, 0, 1, 1, 1, 1, 0, 3,
            0, 0, 1, 0, 1, 2, 1, 1, 2, 2,
        ],
        "refused 11\n",
    )?;
    prints(
        &rt,
        &[
            68, 74, 1, 0, 1, 1, 38, 0, 1, 0, 1, 0, 0, 0, 0, 1, 0, 2, 0, 0, 1, 0, 1, 1, 1, 3, 0, 3,
            0, 0, 1, 0, 1, 2, 1, 1, 2, 2,
        ],
        "refused 12 2\n",
    )?;
    prints(
        &rt,
        &[
            68, 74, 1, 0, 1, 1, 39, 0, 1, 0, 1, 0, 0, 0, 0, 1, 0, 2, 0, 0, 1, 0, 1, 1, 1, 1, 0, 3,
            0, 0, 1, 0, 1, 2, 1, 1, 2, 2, 0,
        ],
        "refused 12 2\n",
    )?;
    prints(
        &rt,
        &[
            68, 74, 1, 0, 1, 1, 38, 0, 1, 2, 1, 0, 0, 0, 0, 1, 0, 2, 0, 0, 1, 0, 1, 1, 1, 1, 0, 3,
            0, 0, 1, 0, 1, 2, 1, 1, 2, 2,
        ],
        "refused 12 0\n",
    )?;
    prints(
        &rt,
        &[
            68, 74, 1, 0, 1, 1, 38, 0, 1, 0, 1, 0, 1, 0, 0, 1, 0, 2, 0, 0, 1, 255, 1, 1, 1, 1, 0,
            3, 0, 0, 1, 0, 1, 2, 1, 1, 2, 2,
        ],
        "refused 13 0\n",
    )?;
    prints(
        &rt,
        &[
            68, 74, 1, 0, 1, 1, 38, 0, 1, 1, 1, 0, 0, 0, 0, 1, 0, 2, 0, 0, 1, 0, 1, 1, 1, 1, 0, 3,
            0, 0, 1, 0, 1, 2, 1, 1, 2, 2,
        ],
        "refused 13 0\n",
    )?;
    prints(
        &rt,
        &[
            68, 74, 1, 0, 1, 1, 37, 0, 2, 0, 2, 0, 70, 48, 1, 0, 2, 0, 0, 1, 0, 1, 1, 1, 1, 0, 3,
            0, 0, 1, 0, 1, 2, 1, 1, 2, 2,
        ],
        "refused 13 0\n",
    )?;
    prints(
        &rt,
        &[
            68, 74, 1, 0, 1, 1, 32, 0, 1, 0, 1, 0, 0, 0, 0, 1, 0, 2, 0, 0, 1, 255, 1, 1, 1, 2, 0,
            3, 0, 70, 71, 48,
        ],
        "refused 14 1\n",
    )?;
    prints(
        &rt,
        &[
            68, 74, 1, 0, 1, 1, 32, 0, 1, 0, 1, 0, 0, 0, 0, 1, 0, 2, 0, 0, 1, 0, 1, 1, 1, 2, 0, 3,
            0, 70, 71, 48,
        ],
        "refused 15 2\n",
    )?;
    prints(
        &rt,
        &[
            68, 74, 1, 0, 1, 1, 26, 0, 1, 0, 1, 0, 0, 0, 0, 2, 1, 0, 0, 2, 0, 3, 0, 70, 71, 48,
        ],
        "refused 15 1\n",
    )?;
    Ok(())
}

// A duty that waits for a reading, as a rule.
#[test]
fn rule_waits(rt: HostRuntime) -> Result<(), Fail> {
    let job = [
        68, 74, 1, 1, 0, 0, 21, 0, 1, 0, 1, 0, 0, 0, 0, 2, 0, 2, 0, 70, 48,
    ];
    prints(&rt, &job, "unplayable 4 0 0\n0 0 0 255 0\n")
}

// 4 · 4 · 4 · 4 states are few enough, and 4 · 5 · 13 are not.
#[test]
fn counts(rt: HostRuntime) -> Result<(), Fail> {
    let most = [
        68, 74, 1, 0, 1, 2, 42, 0, 1, 0, 4, 0, 0, 0, 0, 0, 1, 1, 2, 2, 3, 3, 0, 0, 2, 0, 2, 0, 70,
        48, 2, 0, 2, 0, 70, 48, 2, 0, 2, 0, 70, 48,
    ];
    match load(rt.alloc(), &most) {
        Ok(job) => assert_eq!(rt; job.count(), 256),
        Err(_) => return Err(Fail::new("refused")),
    }
    let more = [
        68, 74, 1, 0, 1, 1, 86, 0, 1, 0, 4, 0, 0, 0, 0, 0, 1, 1, 2, 2, 3, 3, 0, 0, 1, 0, 5, 0, 0,
        0, 0, 0, 1, 1, 1, 2, 2, 3, 3, 4, 4, 0, 0, 1, 0, 13, 0, 0, 0, 0, 0, 0, 0, 0, 0, 0, 0, 0, 0,
        0, 1, 1, 1, 1, 1, 1, 1, 1, 1, 1, 1, 1, 1, 1, 1, 1, 1, 1, 1, 1, 1, 1, 1, 1, 1, 1,
    ];
    prints(&rt, &more, "refused 16\n")
}

// A buffer one byte short is refused, and stays as it was.
#[test]
fn short_buffer(rt: HostRuntime) -> Result<(), Fail> {
    let mut planner = Planner::new(rt.alloc())?;
    let mut buffer = [7u8; 25];
    match load(rt.alloc(), &[68, 70, 1, 0, 0, 0, 1, 0, 1, 0]) {
        Ok(job) => match assure(&mut planner, &job, &mut buffer, &mut []) {
            Ok(_) => return Err(Fail::new("planned")),
            Err(fault) => assert_eq!(rt; fault.number(), 17),
        },
        Err(_) => return Err(Fail::new("refused")),
    }
    assert_eq!(rt; buffer[0], 7);
    Ok(())
}
