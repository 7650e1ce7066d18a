// Records and refusals as text.
use records::{ParseRecordError, RollRefusal, TrailRecord, TrailRefusal};
use std::test::Fail;

#[test]
fn records(rt: HostRuntime) -> Result<(), Fail> {
    let item: TrailRecord = "7,4294967295,32".parse()?;
    assert_eq!(rt;
        item,
        TrailRecord {
            form: 7,
            visits: 4_294_967_295,
            level: 32
        }
    );
    assert_eq!(rt; item.to_string(rt.alloc())?.as_str(), "7,4294967295,32");
    assert_eq!(rt;
        "0,3".parse::<TrailRecord>(),
        Err(ParseRecordError::MissingComma)
    );
    assert!(rt; "0,4294967296,0".parse::<TrailRecord>().is_err());
    Ok(())
}

#[test]
fn refusals(rt: HostRuntime) -> Result<(), Fail> {
    let full = RollRefusal::Full.to_string(rt.alloc())?;
    assert_eq!(rt; full.as_str(), "refused 41 at 0");
    let outside = TrailRefusal::FieldOutside { at: 2 }.to_string(rt.alloc())?;
    assert_eq!(rt; outside.as_str(), "refused 53 at 2");
    Ok(())
}
