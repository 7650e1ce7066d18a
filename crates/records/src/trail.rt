// Trails: what was raised, six bytes a record.
ghost use Rattle.std.specs.Prelude.{◌≡◌, ◌*◌, ◌≤◌, [], ◌++◌, length, drop, map, MatchResult, OnOk};
ghost use Rattle.std.specs.Result.{result_err};
ghost use Rattle.records.specs.Rolls.{records, room, SameSlots};
ghost use Rattle.records.specs.Trails.{in_range, record_at, record_bytes, trail, first_outside, write_fault, bytes_after, trail_fault, read_fault, records_after, first_fault, short_fault};

use crate::refusal::TrailRefusal;
use crate::roll::Roll;

// The bytes of a record: form, visits with the low byte first, level.
const RECORD_BYTES: usize = 6;

// A raise: the form, the visits made, and the level that it ended, 0 while that is open.
#[derive(Clone, Copy, PartialEq, Eq, Debug)]
pub struct TrailRecord {
    pub form: u8,
    pub visits: u32,
    pub level: u8,
}

impl TrailRecord {
    // Whether form, visits and level are in their ranges.
    pub fn in_range(self) -> bool
        ensures value { result ≡ in_range self }
    {
        self.form < 8 && self.visits >= 1 && self.level <= 32
    }
}

impl From<TrailRecord> for [u8; RECORD_BYTES] {
    ghost from_gives = { λ item bytes. bytes ≡ record_bytes item };

    fn from(item: TrailRecord) -> [u8; RECORD_BYTES] {
        let [a, b, c, d] = item.visits.to_le_bytes();
        [item.form, a, b, c, d, item.level]
    }
}

impl From<[u8; RECORD_BYTES]> for TrailRecord {
    ghost from_gives = { λ bytes item. item ≡ record_at bytes };

    fn from([form, a, b, c, d, level]: [u8; RECORD_BYTES]) -> TrailRecord {
        TrailRecord {
            form,
            visits: u32::from_le_bytes([a, b, c, d]),
            level,
        }
    }
}

// The first record out of range.
fn first_outside(items: &[TrailRecord]) -> Option<usize>
    ensures value { result ≡ first_outside 0 items.now }
{
    items.iter().position(|item| !item.in_range())
}

// Writes the trail of records to the front of a buffer.
fn put_all(items: &[TrailRecord], buffer: &mut [u8])
    requires { (length items.now ≤ 4096) × (6 * length items.now ≤ length buffer.old) }
    ensures after { buffer.new ≡ trail items.now ++ drop (6 * length items.now) buffer.old }
{
    // Not by `chunks_exact_mut`: what a loop over it writes is not known to the check.
    for (i, item) in items.iter().enumerate() {
        let bytes = <[u8; RECORD_BYTES]>::from(*item);
        buffer[RECORD_BYTES * i..RECORD_BYTES * (i + 1)].copy_from_slice(&bytes);
    }
}

// Adds the records of a trail to an empty roll, up to the first at fault.
fn add_records(
    parts: &[[u8; RECORD_BYTES]],
    roll: &mut Roll<'_, TrailRecord>,
) -> Result<(), TrailRefusal>
    requires { records roll.old ≡ [] }
    ensures value { result_err result ≡ trail_fault (room roll.old) 0 (map record_at parts.now) }
    ensures added { OnOk result (records roll.new ≡ map record_at parts.now) }
    ensures same { SameSlots roll.old roll.new }
{
    // The number of a record is the place of its refusal.
    for (at, part) in parts.iter().enumerate() {
        let item = TrailRecord::from(*part);
        if !item.in_range() {
            return Err(TrailRefusal::FieldOutside { at });
        }
        roll.add(item).map_err(|_| TrailRefusal::RollFull { at })?;
    }
    Ok(())
}

// Writes the trail of a roll's records to the front of a buffer: a refusal writes nothing.
pub fn write_trail(roll: &Roll<'_, TrailRecord>, buffer: &mut [u8]) -> Result<(), TrailRefusal>
    ensures value { result_err result ≡ write_fault (records roll.now) (length buffer.old) }
    ensures after { buffer.new ≡ bytes_after (result_err result) (records roll.now) buffer.old }
{
    let items = roll.as_slice();
    if let Some(at) = first_outside(items) {
        return Err(TrailRefusal::FieldOutside { at });
    }
    if buffer.len() < RECORD_BYTES * items.len() {
        return Err(TrailRefusal::BufferShort);
    }
    put_all(items, buffer);
    Ok(())
}

// Reads a trail into a roll, which is emptied first, and left empty by a refusal.
#[tactic(auto, using(crate::proofs::TrailSteps::parts_as_records, crate::proofs::TrailSteps::fault_of_whole))]
pub fn read_trail(bytes: &[u8], roll: &mut Roll<'_, TrailRecord>) -> Result<(), TrailRefusal>
    ensures value { result_err result ≡ read_fault (room roll.old) bytes.now }
    ensures after { records roll.new ≡ records_after (result_err result) bytes.now }
    ensures trail { OnOk result (trail (records roll.new) ≡ bytes.now) }
    ensures same { SameSlots roll.old roll.new }
{
    roll.clear();
    let (parts, rest) = bytes.as_chunks::<RECORD_BYTES>();
    if !rest.is_empty() {
        return Err(TrailRefusal::PartialRecord);
    }
    let read = add_records(parts, roll);
    // Whatever the refusal is, it is answered and the roll emptied; a match would name it only to hand it on.
    if read.is_err() {
        roll.clear();
    }
    read
}

// Writes the trail of a roll into a buffer and reads it from there into another: that then holds the same records.
#[tactic(auto, using(crate::proofs::Trips::trip_fault))]
pub fn write_and_read(
    from: &Roll<'_, TrailRecord>,
    buffer: &mut [u8],
    to: &mut Roll<'_, TrailRecord>,
) -> Result<(), TrailRefusal>
    ensures value { result_err result ≡ first_fault (write_fault (records from.now) (length buffer.old)) (trail_fault (room to.old) 0 (records from.now)) }
    ensures back { OnOk result (records to.new ≡ records from.now) }
    ensures buffer { buffer.new ≡ bytes_after (write_fault (records from.now) (length buffer.old)) (records from.now) buffer.old }
{
    write_trail(from, buffer)?;
    read_trail(&buffer[..RECORD_BYTES * from.count()], to)
}

// Reads a trail into a roll and writes it from there into a buffer: that then begins with the same bytes.
#[tactic(auto, using(crate::proofs::Trips::trip_short))]
pub fn read_and_write(
    bytes: &[u8],
    roll: &mut Roll<'_, TrailRecord>,
    buffer: &mut [u8],
) -> Result<(), TrailRefusal>
    ensures value { result_err result ≡ first_fault (read_fault (room roll.old) bytes.now) (short_fault (length bytes.now) (length buffer.old)) }
    ensures back { MatchResult result (λ _. buffer.new ≡ bytes.now ++ drop (length bytes.now) buffer.old) (λ _. buffer.new ≡ buffer.old) }
    ensures roll { records roll.new ≡ records_after (read_fault (room roll.old) bytes.now) bytes.now }
{
    read_trail(bytes, roll)?;
    write_trail(roll, buffer)
}
