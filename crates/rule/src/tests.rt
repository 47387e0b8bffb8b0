use automata::automaton::Automaton;
use ltlf::check::check as verdict;
use ltlf::rule::Rule;
use ltlf::widths::Widths;
use std::test::Fail;

fn fault(text: &[u8]) -> Result<(), u8> {
    match verdict(1, 1, text) {
        Ok(()) => Ok(()),
        Err(fault) => Err(fault.number()),
    }
}

#[test]
fn next_of_not(rt: HostRuntime) -> Result<(), Fail> {
    let Some(widths) = Widths::new(0, 1) else {
        return Err(Fail::new("too wide"));
    };
    let Ok(rule) = Rule::from_text(rt.alloc(), widths, b"X!0") else {
        return Err(Fail::new("refused"));
    };
    let q = rule.step(rule.start(), 0, 0).ok_or("none")?;
    assert!(rt; !rule.marked(q));
    Ok(())
}

#[test]
fn each_refusal(rt: HostRuntime) {
    assert_eq!(rt; fault(b""), Err(1));
    assert_eq!(rt;
        fault(b"!!!!!!!!!!!!!!!!!!!!!!!!!!!!!!!!!!!!!!!!!!!!!!!!!!!!!!!!!!!!!!!!!"),
        Err(2)
    );
    assert_eq!(rt; fault(b"?"), Err(3));
    assert_eq!(rt; fault(b"2"), Err(4));
    assert_eq!(rt; fault(b"&0"), Err(5));
    assert_eq!(rt; fault(b"tt"), Err(6));
    assert_eq!(rt; fault(b"FG0"), Err(7));
    assert_eq!(rt; fault(b"&0&1&00"), Err(7));
    assert_eq!(rt; fault(b"|U01|X0G1"), Ok(()));
}

#[test]
fn first_place_then_lowest(rt: HostRuntime) {
    assert_eq!(rt;
        fault(b"!!!!!!!!!!!!!!!!!!!!!!!!!!!!!!!!!!!!!!!!!!!!!!!!!!!!!!!!!!!!!!!?"),
        Err(3)
    );
    assert_eq!(rt; fault(b"2?"), Err(4));
    assert_eq!(rt; fault(b"t?"), Err(3));
    assert_eq!(rt; fault(b"t9"), Err(4));
    assert_eq!(rt; fault(b"tF"), Err(6));
    assert_eq!(rt; fault(b"FG?"), Err(7));
    assert_eq!(rt; fault(b"FG"), Err(7));
    assert_eq!(rt; fault(b"&0&1&02"), Err(4));
    assert_eq!(rt; fault(b"F&0"), Err(5));
}
