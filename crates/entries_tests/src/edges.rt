// Texts at the edges of the format.
use crate::outcome::{outcome, refused};
use entries::{EntryReader, FieldName, Header, MOST_CODES, TextRefusal, WeightName};
use std::test::Fail;

#[test]
fn ends_of_text(rt: HostRuntime) {
    assert_eq!(rt; outcome(b""), Ok(0));
    assert_eq!(rt; outcome(b"\n"), refused(0, 61, 1, 1));
    assert_eq!(rt; outcome(b"code 3 2 2 GF(2) hamming\n110\n011"), Ok(1));
    assert_eq!(rt; outcome(b"code 3 2 2 GF(2) hamming\n110\n011\n"), Ok(1));
    assert_eq!(rt; outcome(b"code 3 2 2 GF(2) hamming\n110\n011\n\n"), Ok(1));
    assert_eq!(rt;
        outcome(b"code 3 2 2 GF(2) hamming\n110\n011\n\n\n"),
        refused(1, 61, 5, 1)
    );
    assert_eq!(rt;
        outcome(b"code 3 2 2 GF(2) hamming\n110\n"),
        refused(0, 66, 3, 1)
    );
    assert_eq!(rt;
        outcome(b"code 3 2 2 GF(2) hamming\n110"),
        refused(0, 66, 3, 1)
    );
    assert_eq!(rt; outcome(b"code 3 2 2 GF(2) hamming"), refused(0, 66, 2, 1));
    assert_eq!(rt;
        outcome(b"\xff\x80 3 2 2 GF(2) hamming\n"),
        refused(0, 61, 1, 1)
    );
}

#[test]
fn largest_claims(rt: HostRuntime) {
    assert_eq!(rt; outcome(b"code 3 2 3 GF(13) hamming\n11c\n011\n"), Ok(1));
    assert_eq!(rt; outcome(b"code 3 1 6 GF(5) lee\n122\n"), Ok(1));
    assert_eq!(rt; outcome(b"code 1 1 6 GF(13) lee\nc\n"), Ok(1));
    assert_eq!(rt;
        outcome(b"code 1 1 1 GF(4) hamming\n3\n\ncode 1 1 1 GF(2) lee\n1\n"),
        Ok(2)
    );
}

#[test]
fn largest_text(rt: HostRuntime) -> Result<(), Fail> {
    let full = vec![in rt.alloc(); b'x'; 60_000]?;
    assert_eq!(rt; outcome(full.as_slice()), refused(0, 61, 1, 1));
    let over = vec![in rt.alloc(); b'x'; 60_001]?;
    assert_eq!(rt; outcome(over.as_slice()), refused(0, 60, 0, 0));
    Ok(())
}

#[test]
fn entry_values(rt: HostRuntime) {
    let mut codes = [77; MOST_CODES];
    let mut reader = EntryReader::new(b"code 4 2 3 GF(11) lee\n01a9\n5678\n\ncode x\n");
    let header = Header {
        n: 4,
        k: 2,
        claim: 3,
        field: FieldName::Gf11,
        weight: WeightName::Lee,
    };
    assert_eq!(rt; reader.next_entry(&mut codes), Ok(Some(header)));
    assert_eq!(rt; &codes[..9], [0, 1, 10, 9, 5, 6, 7, 8, 77].as_slice());
    assert_eq!(rt; codes[2047], 77);
    // A refusal leaves the codes as they were, and is given again.
    let refusal = TextRefusal::HeaderShape { line: 5 };
    assert_eq!(rt; reader.next_entry(&mut codes), Err(refusal));
    assert_eq!(rt; &codes[..5], [0, 1, 10, 9, 5].as_slice());
    assert_eq!(rt; reader.next_entry(&mut codes), Err(refusal));
}
