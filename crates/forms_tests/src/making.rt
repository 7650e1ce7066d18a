// Forms of small codes, and matrices that are refused.
use fields::PrimeField;
use forms::{Form, FormsRefusal, first_dependent_row, make_form, make_forms};
use std::test::Fail;

// The rows of the binary [7, 4] code.
#[rattlefmt::skip]
const HAMMING: [u8; 28] = [
    1, 0, 0, 0, 0, 1, 1,
    0, 1, 0, 0, 1, 0, 1,
    0, 0, 1, 0, 1, 1, 0,
    0, 0, 0, 1, 1, 1, 1,
];

#[test]
fn two_forms_of_the_hamming_code(rt: HostRuntime) -> Result<(), Fail> {
    let field = PrimeField::new(2)?;
    let mut scratch = [0u8; 56];
    let mut forms = [Form::EMPTY; 8];
    assert_eq!(rt;
        make_forms(&field, &HAMMING, 4, 7, &mut scratch, &mut forms),
        Ok(2)
    );
    assert!(rt; forms[0].rank == 4 && forms[1].rank == 3 && forms[2].rank == 0);
    assert!(rt; forms[0].positions[0] == 0 && forms[0].positions[3] == 3);
    assert!(rt; forms[1].positions[0] == 4 && forms[1].positions[3] == 0);
    Ok(())
}

#[test]
fn a_form_with_columns_used(rt: HostRuntime) -> Result<(), Fail> {
    let field = PrimeField::new(2)?;
    let mut scratch = [0u8; 56];
    let mut used = [false; 64];
    used[0] = true;
    let mut form = Form::EMPTY;
    make_form(&field, &HAMMING, 4, 7, &used, &mut scratch, &mut form)?;
    assert!(rt; form.rank == 4 && form.positions[0] == 1 && form.positions[3] == 5);
    Ok(())
}

#[test]
fn matrices_refused(rt: HostRuntime) -> Result<(), Fail> {
    let field = PrimeField::new(2)?;
    let mut scratch = [0u8; 56];
    let mut forms = [Form::EMPTY; 8];
    assert!(rt;
        make_forms(&field, &HAMMING, 33, 7, &mut scratch, &mut forms) == Err(FormsRefusal::Shape)
    );
    assert!(rt;
        make_forms(&field, &HAMMING, 4, 6, &mut scratch, &mut forms) == Err(FormsRefusal::Length)
    );
    assert!(rt;
        make_forms(&field, &[1, 2], 1, 2, &mut scratch, &mut forms)
            == Err(FormsRefusal::NoCode { at: 1 })
    );
    assert!(rt;
        make_forms(&field, &[1, 1], 1, 2, &mut scratch[..3], &mut forms)
            == Err(FormsRefusal::Scratch)
    );
    assert!(rt;
        make_forms(&field, &[1, 1, 1, 1], 2, 2, &mut scratch, &mut forms)
            == Err(FormsRefusal::DependentRow { row: 1 })
    );
    Ok(())
}

#[test]
fn the_first_dependent_row(rt: HostRuntime) -> Result<(), Fail> {
    let field = PrimeField::new(3)?;
    let mut scratch = [0u8; 24];
    assert!(rt;
        first_dependent_row(&field, &[1, 2, 0, 0, 1, 1, 1, 0, 1], 3, 3, &mut scratch) == Ok(Some(2))
    );
    assert!(rt; first_dependent_row(&field, &[0, 0, 1, 1], 2, 2, &mut scratch) == Ok(Some(0)));
    assert!(rt; first_dependent_row(&field, &[1, 2, 1, 1], 2, 2, &mut scratch) == Ok(None));
    Ok(())
}
