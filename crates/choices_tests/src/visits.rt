// Coefficients in order, and the visits of levels.
use choices::{Coefficients, Level, VisitCounter};
use std::test::Fail;

#[test]
fn two_coefficients_over_four_codes(rt: HostRuntime) -> Result<(), Fail> {
    let mut list = Coefficients::first(4, 2).ok_or("no coefficients")?;
    assert_eq!(rt; list.codes(), [1, 1].as_slice());
    assert!(rt; list.step() && list.codes() == [1, 2].as_slice());
    assert!(rt; list.step() && list.codes() == [1, 3].as_slice());
    assert!(rt; !list.step() && list.codes() == [1, 3].as_slice());
    list.restart();
    assert_eq!(rt; list.codes(), [1, 1].as_slice());
    Ok(())
}

#[test]
fn no_coefficients(rt: HostRuntime) {
    assert!(rt; Coefficients::first(1, 2).is_none());
    assert!(rt; Coefficients::first(2, 0).is_none() && Coefficients::first(2, 33).is_none());
}

#[test]
fn visits_of_two_rows_over_three_codes(rt: HostRuntime) -> Result<(), Fail> {
    let mut counter = VisitCounter::first(Level { k: 3, t: 2, q: 3 }).ok_or("no visit")?;
    assert!(rt; counter.left() == 6 && counter.place() == 0);
    assert_eq!(rt; counter.rows(), [0, 1].as_slice());
    assert_eq!(rt; counter.coefficients(), [1, 1].as_slice());
    assert!(rt; counter.step());
    assert_eq!(rt; counter.rows(), [0, 1].as_slice());
    assert_eq!(rt; counter.coefficients(), [1, 2].as_slice());
    assert!(rt; counter.step());
    assert_eq!(rt; counter.rows(), [1, 2].as_slice());
    assert_eq!(rt; counter.coefficients(), [1, 1].as_slice());
    assert!(rt; counter.left() == 4 && counter.place() == 2);
    Ok(())
}

#[test]
fn from_any_place_on(rt: HostRuntime) -> Result<(), Fail> {
    let level = Level { k: 3, t: 2, q: 3 };
    let mut counter = VisitCounter::at(level, 5).ok_or("no visit")?;
    assert_eq!(rt; counter.rows(), [0, 2].as_slice());
    assert_eq!(rt; counter.coefficients(), [1, 2].as_slice());
    assert!(rt; counter.left() == 1 && !counter.step() && counter.left() == 1);
    assert!(rt; VisitCounter::at(level, 6).is_none());
    Ok(())
}

#[test]
fn levels_that_are_not_counted(rt: HostRuntime) {
    for (k, t, q) in [(33, 1, 2), (4, 0, 2), (4, 5, 2), (4, 2, 1), (32, 20, 16)] {
        assert!(rt; VisitCounter::first(Level { k, t, q }).is_none());
    }
}
