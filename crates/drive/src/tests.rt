// Damaged sheets, one for each cause of refusal.
use sheets::Sheet;

const SHEET: [u8; 86] = [
    68, 83, 1, 0, 1, 1, 6, 0, 0, 0, 20, 0, 26, 0, 50, 0, 74, 0, 86, 0, 1, 1, 1, 1, 1, 1, 1, 0, 5,
    0, 1, 0, 4, 0, 2, 0, 5, 0, 4, 0, 5, 0, 4, 0, 4, 0, 5, 0, 5, 0, 2, 0, 1, 0, 255, 255, 0, 0, 0,
    0, 255, 255, 2, 0, 1, 0, 255, 255, 1, 0, 0, 0, 255, 255, 1, 2, 0, 0, 0, 0, 1, 2, 0, 1, 0, 0,
];

fn opens(bytes: &[u8]) -> bool {
    let mut sheet = Sheet::built_in();
    match sheet.open(bytes) {
        Ok(()) => true,
        Err(_) => false,
    }
}

fn damaged(place: usize, value: u8) -> bool {
    let mut bytes = SHEET;
    if place < 86 {
        bytes[place] = value;
    }
    !opens(&bytes)
}

#[test]
fn whole(rt: HostRuntime) {
    assert!(rt; opens(&SHEET));
    let longer = [
        68, 83, 1, 0, 1, 1, 6, 0, 0, 0, 20, 0, 26, 0, 50, 0, 74, 0, 86, 0, 1, 1, 1, 1, 1, 1, 1, 0,
        5, 0, 1, 0, 4, 0, 2, 0, 5, 0, 4, 0, 5, 0, 4, 0, 4, 0, 5, 0, 5, 0, 2, 0, 1, 0, 255, 255, 0,
        0, 0, 0, 255, 255, 2, 0, 1, 0, 255, 255, 1, 0, 0, 0, 255, 255, 1, 2, 0, 0, 0, 0, 1, 2, 0,
        1, 0, 0, 9, 9, 9, 9,
    ];
    assert!(rt; opens(&longer));
}

#[test]
fn damage(rt: HostRuntime) {
    assert!(rt; damaged(0, 67)); // lead
    assert!(rt; damaged(3, 4)); // widths
    assert!(rt; damaged(4, 4)); // widths
    assert!(rt; damaged(5, 5)); // rights
    assert!(rt; damaged(6, 0)); // no state
    assert!(rt; damaged(7, 1)); // states
    assert!(rt; damaged(8, 6)); // start
    assert!(rt; damaged(10, 21)); // layout
    assert!(rt; damaged(18, 85)); // total
    assert!(rt; damaged(26, 6)); // a step
    assert!(rt; damaged(20, 2)); // a lawful bit
    assert!(rt; damaged(74, 4)); // a set bit
    assert!(rt; !opens(&SHEET[..19])); // too short for a head
    assert!(rt; !opens(&SHEET[..85])); // shorter than its total
    // a set bit over a step to none
    let mut none = SHEET;
    none[26] = 255;
    none[27] = 255;
    assert!(rt; !opens(&none));
}
