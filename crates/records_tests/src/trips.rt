// Trails there and back.
use records::{Roll, TrailRecord, TrailRefusal, read_and_write, write_and_read};
use std::test::Fail;

// What slots hold before they are used.
const OPENING: TrailRecord = TrailRecord {
    form: 0,
    visits: 1,
    level: 0,
};

#[test]
fn records_by_bytes(rt: HostRuntime) -> Result<(), Fail> {
    let raise = TrailRecord {
        form: 3,
        visits: 66_051,
        level: 2,
    };
    let mut slots = [raise; 2];
    let mut from = Roll::new(&mut slots);
    from.add(raise)?;
    let mut others = [OPENING; 2];
    let mut to = Roll::new(&mut others);
    let mut buffer = [0xeeu8; 8];
    write_and_read(&from, &mut buffer, &mut to)?;
    assert_eq!(rt; buffer, [3, 3, 2, 1, 0, 2, 0xee, 0xee]);
    assert_eq!(rt; to.count(), 1);
    let mut item = OPENING;
    to.read(0, &mut item)?;
    assert_eq!(rt; item, raise);
    Ok(())
}

#[test]
fn bytes_by_records(rt: HostRuntime) -> Result<(), Fail> {
    let bytes = [7, 255, 255, 255, 255, 32];
    let mut slots = [OPENING; 1];
    let mut roll = Roll::new(&mut slots);
    let mut buffer = [0u8; 6];
    read_and_write(&bytes, &mut roll, &mut buffer)?;
    assert_eq!(rt; buffer, bytes);
    let mut short = [0u8; 5];
    assert_eq!(rt;
        read_and_write(&bytes, &mut roll, &mut short),
        Err(TrailRefusal::BufferShort)
    );
    Ok(())
}
