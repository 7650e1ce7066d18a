// Rolls of plain numbers and of small structs.
use records::{MOST_SLOTS, Roll, RollRefusal};
use std::test::Fail;

// A word with its weight: another kind of record.
#[derive(Clone, Copy, PartialEq, Eq, Debug)]
struct Weighed {
    word: [u8; 4],
    weight: u16,
}

#[test]
fn numbers(rt: HostRuntime) -> Result<(), Fail> {
    let mut slots = [0u32; 2];
    let mut roll = Roll::new(&mut slots);
    assert!(rt; roll.count() == 0 && roll.room() == 2);
    roll.add(7)?;
    roll.add(8)?;
    assert_eq!(rt; roll.add(9), Err(RollRefusal::Full));
    assert_eq!(rt; roll.as_slice(), [7, 8].as_slice());
    let mut place = 5;
    assert_eq!(rt; roll.read(2, &mut place), Err(RollRefusal::NoRecord));
    assert_eq!(rt; place, 5);
    roll.read(1, &mut place)?;
    assert_eq!(rt; place, 8);
    roll.clear();
    assert_eq!(rt; roll.count(), 0);
    roll.add(3)?;
    Ok(())
}

#[test]
fn structs(rt: HostRuntime) -> Result<(), Fail> {
    let first = Weighed {
        word: [1, 0, 1, 1],
        weight: 3,
    };
    let mut slots = [Weighed {
        word: [0; 4],
        weight: 0,
    }; 3];
    let mut roll = Roll::new(&mut slots);
    roll.add(first)?;
    assert_eq!(rt; roll.count(), 1);
    let mut place = Weighed {
        word: [9; 4],
        weight: 9,
    };
    roll.read(0, &mut place)?;
    assert_eq!(rt; place, first);
    Ok(())
}

#[test]
fn most_slots(rt: HostRuntime) -> Result<(), Fail> {
    let mut slots = vec![in rt.alloc(); 0u8; 5_000]?;
    let mut roll = Roll::new(&mut slots);
    assert_eq!(rt; roll.room(), MOST_SLOTS);
    for _ in 0..4_096 {
        roll.add(7)?;
    }
    assert_eq!(rt; roll.add(1), Err(RollRefusal::Full));
    Ok(())
}
