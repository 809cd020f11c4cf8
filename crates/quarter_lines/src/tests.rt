use crate::legs;

// Legs by hand: -0.25 is 0 and -0.5, 2.75 is 2.5 and 3, -4.75 is -5 and -4.5, 2.5 is itself twice.
#[test]
fn splits_quarter_lines(rt: HostRuntime) {
    assert_eq!(rt; legs(-1), (-2, 0));
    assert_eq!(rt; legs(11), (10, 12));
    assert_eq!(rt; legs(-19), (-20, -18));
    assert_eq!(rt; legs(10), (10, 10));
}
