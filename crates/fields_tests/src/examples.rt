// Examples of fields, weights and their refusals.
use crate::renamed::RenamedFive;
use fields::{
    Field, FieldRefusal, Gf4, Hamming, Lee, LengthsDiffer, PrimeField, SymbolWeight, TableWeight,
    add_multiple, multiply, word_weight,
};
use std::test::Fail;

#[test]
fn sums_and_products(rt: HostRuntime) -> Result<(), Fail> {
    let seven = PrimeField::new(7)?;
    assert!(rt; seven.sum(3, 5) == 1 && seven.product(3, 5) == 1 && seven.negative(2) == 5);
    assert!(rt; seven.inverse(3) == 5 && seven.inverse(0) == 0 && seven.sum(9, 4) == 4);
    assert!(rt; Gf4.sum(2, 3) == 1 && Gf4.product(2, 2) == 3 && Gf4.product(2, 3) == 1);
    assert!(rt; Gf4.product(3, 3) == 2 && Gf4.inverse(2) == 3 && Gf4.product(5, 3) == 0);
    assert!(rt; RenamedFive.sum(1, 1) == 3 && RenamedFive.product(3, 3) == 4);
    Ok(())
}

#[test]
fn refused(rt: HostRuntime) {
    assert!(rt;
        PrimeField::new(4).is_err() && PrimeField::new(17).is_err() && Lee::new(9).is_err()
    );
    assert!(rt; Hamming::new(1).is_err() && Hamming::new(17).is_err() && Hamming::new(16).is_ok());
    let mut table = TableWeight::binary();
    assert_eq!(rt; table.set(17, &[1]), Err(FieldRefusal::OrderOutside));
    assert_eq!(rt; table.set(4, &[1, 2]), Err(FieldRefusal::ListLength));
    assert_eq!(rt;
        table.set(4, &[1, 2, 9]),
        Err(FieldRefusal::WeightOutside { code: 3 })
    );
    assert!(rt; table.order() == 2 && table.weight(1) == 1);
    assert_eq!(rt; table.set(4, &[1, 2, 8]), Ok(()));
    assert!(rt; table.order() == 4 && table.weight(3) == 8 && table.weight(4) == 0);
}

#[test]
fn weights(rt: HostRuntime) -> Result<(), Fail> {
    let word = [0, 1, 2, 3, 4, 7];
    assert_eq!(rt; word_weight(&Hamming::new(5)?, &word[..]), 4);
    assert_eq!(rt; word_weight(&Lee::new(5)?, &word[..]), 6);
    assert_eq!(rt; Lee::new(13)?.top(), 6);
    Ok(())
}

#[test]
fn multiples_of_words(rt: HostRuntime) -> Result<(), Fail> {
    let five = PrimeField::new(5)?;
    let mut word = [1, 2, 4];
    multiply(&five, 3, &mut word[..]);
    assert!(rt; word == [3, 1, 2]);
    add_multiple(&five, 2, &[1, 1, 1], &mut word[..])?;
    assert!(rt; word == [0, 3, 4]);
    assert_eq!(rt;
        add_multiple(&five, 2, &[1, 1], &mut word[..]),
        Err(LengthsDiffer)
    );
    assert!(rt; word == [0, 3, 4]);
    Ok(())
}
