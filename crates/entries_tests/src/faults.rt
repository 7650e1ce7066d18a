// One text for each refusal, behind a sound entry, and which of two faults comes first.
use crate::outcome::{outcome, refused};

#[test]
fn header_shape(rt: HostRuntime) {
    assert_eq!(rt;
        outcome(b"code 3 2 2 GF(2) hamming\n110\n011\n\ncode 3 2 2 GF(2)  hamming\n110\n011\n"),
        refused(1, 61, 5, 1)
    );
    assert_eq!(rt;
        outcome(b"cod 3 2 2 GF(2) hamming\n110\n011\n"),
        refused(0, 61, 1, 1)
    );
    assert_eq!(rt;
        outcome(b"code 3 2 2 GF(2)\n110\n011\n"),
        refused(0, 61, 1, 1)
    );
    assert_eq!(rt;
        outcome(b"code 3 2 2 GF(2) hamming x\n110\n011\n"),
        refused(0, 61, 1, 1)
    );
    assert_eq!(rt;
        outcome(b" code 3 2 2 GF(2) hamming\n"),
        refused(0, 61, 1, 1)
    );
    assert_eq!(rt;
        outcome(b"code 3 2 2 GF(2) hamming \n110\n011\n"),
        refused(0, 61, 1, 1)
    );
}

#[test]
fn numbers(rt: HostRuntime) {
    assert_eq!(rt;
        outcome(b"code 3 2 2 GF(2) hamming\n110\n011\n\ncode 3 02 2 GF(6) lee\n110\n011\n"),
        refused(1, 62, 5, 8)
    );
    assert_eq!(rt;
        outcome(b"code 1000 2 2 GF(2) hamming\n"),
        refused(0, 62, 1, 6)
    );
    assert_eq!(rt;
        outcome(b"code 3 2 0 GF(2) hamming\n110\n011\n"),
        refused(0, 62, 1, 10)
    );
    assert_eq!(rt;
        outcome(b"code 3 -2 2 GF(2) hamming\n"),
        refused(0, 62, 1, 8)
    );
    assert_eq!(rt;
        outcome(b"code 3 2 2a GF(2) hamming\n"),
        refused(0, 62, 1, 10)
    );
    assert_eq!(rt;
        outcome(b"code 12 0 x GF(2) hamming\n"),
        refused(0, 62, 1, 9)
    );
}

#[test]
fn fields_and_weights(rt: HostRuntime) {
    assert_eq!(rt;
        outcome(b"code 3 2 2 GF(2) hamming\n110\n011\n\ncode 3 2 2 GF(6) euclid\n110\n011\n"),
        refused(1, 63, 5, 12)
    );
    assert_eq!(rt;
        outcome(b"code 3 2 2 GF(13 hamming\n110\n011\n"),
        refused(0, 63, 1, 12)
    );
    assert_eq!(rt;
        outcome(b"code 3 2 2 gf(2) hamming\n110\n011\n"),
        refused(0, 63, 1, 12)
    );
    assert_eq!(rt;
        outcome(b"code 3 2 2 GF(2) hamming\n110\n011\n\ncode 3 2 2 GF(4) lee\n110\n011\n"),
        refused(1, 64, 5, 18)
    );
    assert_eq!(rt;
        outcome(b"code 3 2 2 GF(11) euclid\n110\n011\n"),
        refused(0, 64, 1, 19)
    );
    assert_eq!(rt;
        outcome(b"code 3 2 2 GF(2) hamming\r\n110\n011\n"),
        refused(0, 64, 1, 18)
    );
}

#[test]
fn limits(rt: HostRuntime) {
    assert_eq!(rt;
        outcome(b"code 3 2 2 GF(2) hamming\n110\n011\n\ncode 3 2 7 GF(5) lee\n110\n011\n"),
        refused(1, 65, 5, 1)
    );
    assert_eq!(rt;
        outcome(b"code 2 3 1 GF(2) hamming\n"),
        refused(0, 65, 1, 1)
    );
    assert_eq!(rt;
        outcome(b"code 65 2 1 GF(2) hamming\n"),
        refused(0, 65, 1, 1)
    );
    assert_eq!(rt;
        outcome(b"code 40 33 1 GF(2) hamming\n"),
        refused(0, 65, 1, 1)
    );
    assert_eq!(rt;
        outcome(b"code 3 2 4 GF(13) hamming\n110\n011\n"),
        refused(0, 65, 1, 1)
    );
    assert_eq!(rt;
        outcome(b"code 1 1 7 GF(13) lee\n1\n"),
        refused(0, 65, 1, 1)
    );
}

#[test]
fn rows(rt: HostRuntime) {
    assert_eq!(rt;
        outcome(b"code 3 2 2 GF(2) hamming\n110\n011\n\ncode 3 2 2 GF(5) lee\n110\n"),
        refused(1, 66, 7, 1)
    );
    assert_eq!(rt;
        outcome(
            b"code 3 2 2 GF(2) hamming\n110\n011\n\ncode 3 2 2 GF(2) hamming\n110\n011\ncode 3 2 2 GF(2) hamming\n110\n011\n"
        ),
        refused(1, 66, 8, 1)
    );
    assert_eq!(rt;
        outcome(b"code 3 2 2 GF(2) hamming\n110\n01\n"),
        refused(0, 66, 3, 1)
    );
    assert_eq!(rt;
        outcome(b"code 3 2 2 GF(2) hamming\n1102\n011\n"),
        refused(0, 66, 2, 1)
    );
    assert_eq!(rt;
        outcome(b"code 3 2 2 GF(2) hamming\n110\n\n011\n"),
        refused(0, 66, 3, 1)
    );
    assert_eq!(rt;
        outcome(b"code 3 2 2 GF(2) hamming\n110\n011\r\n"),
        refused(0, 66, 3, 1)
    );
}

#[test]
fn symbols(rt: HostRuntime) {
    assert_eq!(rt;
        outcome(b"code 3 2 2 GF(2) hamming\n110\n011\n\ncode 3 2 2 GF(5) lee\n110\n015\n"),
        refused(1, 67, 7, 3)
    );
    assert_eq!(rt;
        outcome(b"code 3 2 2 GF(2) hamming\n1 0\n01\n"),
        refused(0, 67, 2, 2)
    );
    assert_eq!(rt;
        outcome(b"code 3 1 2 GF(13) lee\nabd\n"),
        refused(0, 67, 2, 3)
    );
    assert_eq!(rt;
        outcome(b"code 3 1 2 GF(11) lee\n9ab\n"),
        refused(0, 67, 2, 3)
    );
    assert_eq!(rt;
        outcome(b"code 3 1 2 GF(13) lee\n0C1\n"),
        refused(0, 67, 2, 2)
    );
    assert_eq!(rt;
        outcome(b"code 2 1 2 GF(2) hamming\n\xc3\xa9\n"),
        refused(0, 67, 2, 1)
    );
}
