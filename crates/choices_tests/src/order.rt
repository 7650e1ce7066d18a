// Choices in revolving-door order.
use choices::Choice;
use std::test::Fail;

#[test]
fn two_of_four(rt: HostRuntime) -> Result<(), Fail> {
    let mut choice = Choice::first(4, 2).ok_or("no choice")?;
    assert_eq!(rt; choice.rows(), [0, 1].as_slice());
    for next in [[1, 2], [0, 2], [2, 3], [1, 3], [0, 3]] {
        assert!(rt; choice.step());
        assert_eq!(rt; choice.rows(), next.as_slice());
    }
    assert!(rt; !choice.step());
    assert_eq!(rt; choice.rows(), [0, 3].as_slice());
    Ok(())
}

#[test]
fn all_rows_and_none(rt: HostRuntime) -> Result<(), Fail> {
    let mut all = Choice::first(32, 32).ok_or("no choice")?;
    assert!(rt; all.rows().len() == 32 && !all.step());
    let mut none = Choice::first(3, 0).ok_or("no choice")?;
    assert!(rt; none.rows().is_empty() && !none.step());
    Ok(())
}

#[test]
fn no_choice(rt: HostRuntime) {
    assert!(rt; Choice::first(33, 1).is_none() && Choice::first(3, 4).is_none());
}

#[test]
fn as_many_as_there_are(rt: HostRuntime) -> Result<(), Fail> {
    let mut choice = Choice::first(10, 4).ok_or("no choice")?;
    let steps = (0..1000).filter(|_| choice.step()).count();
    assert_eq!(rt; steps, 209);
    Ok(())
}
