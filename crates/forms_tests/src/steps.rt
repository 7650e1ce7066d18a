// Steps of an elimination on a matrix over GF(5).
use fields::PrimeField;
use forms::{StepRefusal, clear_column, scale_row, swap_rows};
use std::test::Fail;

#[test]
fn rows_swapped_scaled_and_cleared(rt: HostRuntime) -> Result<(), Fail> {
    let field = PrimeField::new(5)?;
    let mut codes = [3, 1, 2, 4];
    swap_rows(&mut codes, 2, 2, 0, 1)?;
    assert!(rt; codes == [2, 4, 3, 1]);
    scale_row(&field, &mut codes, 2, 2, 0, 0)?;
    assert!(rt; codes == [1, 2, 3, 1]);
    clear_column(&field, &mut codes, 2, 2, 0, 0)?;
    assert!(rt; codes == [1, 2, 0, 0]);
    Ok(())
}

#[test]
fn steps_that_do_not_fit(rt: HostRuntime) -> Result<(), Fail> {
    let field = PrimeField::new(5)?;
    let mut codes = [3, 1, 0, 4];
    assert_eq!(rt; swap_rows(&mut codes, 2, 2, 0, 2), Err(StepRefusal::NoRow));
    assert_eq!(rt; swap_rows(&mut codes, 2, 3, 0, 1), Err(StepRefusal::NoRow));
    assert_eq!(rt;
        scale_row(&field, &mut codes, 2, 2, 1, 0),
        Err(StepRefusal::NoPivot)
    );
    assert_eq!(rt;
        scale_row(&field, &mut codes, 2, 2, 0, 2),
        Err(StepRefusal::NoPivot)
    );
    assert_eq!(rt;
        clear_column(&field, &mut codes, 2, 2, 1, 0),
        Err(StepRefusal::NoPivot)
    );
    assert!(rt; codes == [3, 1, 0, 4]);
    Ok(())
}
