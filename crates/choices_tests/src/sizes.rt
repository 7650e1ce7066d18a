// Numbers of choices and of visits.
use choices::{Level, binomial};

#[test]
fn choices_of_rows(rt: HostRuntime) {
    assert_eq!(rt; binomial(4, 2), Some(6));
    assert_eq!(rt; binomial(32, 16), Some(601080390));
    assert_eq!(rt; binomial(32, 0), Some(1));
    assert_eq!(rt; binomial(3, 4), Some(0));
    assert_eq!(rt; binomial(32, 1000), Some(0));
    assert_eq!(rt; binomial(33, 1), None);
}

// The number of visits of level t of k rows over q codes, to be asked for in a line.
fn size(k: usize, t: usize, q: u8) -> Option<u64> {
    Level { k, t, q }.size()
}

#[test]
fn visits_of_levels(rt: HostRuntime) {
    assert_eq!(rt; size(4, 2, 2), Some(6));
    assert_eq!(rt; size(5, 3, 13), Some(1440));
    assert_eq!(rt; size(12, 12, 16), Some(8649755859375));
    assert_eq!(rt; size(4, 0, 2), Some(0));
    assert_eq!(rt; size(4, 5, 2), Some(0));
    assert_eq!(rt; size(33, 1, 2), None);
}

#[test]
fn beyond_the_limits(rt: HostRuntime) {
    assert_eq!(rt; size(32, 20, 16), Some(u64::MAX));
}
