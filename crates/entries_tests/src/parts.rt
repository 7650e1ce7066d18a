// The parts that a text is handed out in.
use entries::{Part, PartReader};
use std::test::Fail;

#[test]
fn in_order(rt: HostRuntime) -> Result<(), Fail> {
    let mut reader = PartReader::new(b"code 3 1 2 GF(2) hamming\n110\n\ncode");
    let Some(
        Part::Header {
            words,
            values,
            line,
        },
    ) = reader.next_part()?
    else {
        return Err(Fail::new("no header"));
    };
    assert_eq!(rt; (line, values.n, values.k), (1, 3, 1));
    assert_eq!(rt; words.field.bytes, b"GF(2)".as_slice());
    assert_eq!(rt; words.field.column, 12);
    let row = Part::Row {
        symbols: b"110",
        line: 2,
        column: 1,
    };
    assert_eq!(rt; reader.next_part(), Ok(Some(row)));
    let gap = Part::Gap { line: 3, column: 1 };
    assert_eq!(rt; reader.next_part(), Ok(Some(gap)));
    assert!(rt; reader.next_part().is_err());
    Ok(())
}
