// Reads and writes trails on request: one request a line of standard input, one answer a line.
#![tactic(auto)]

mod requests;

use records::{Roll, TrailRecord, read_trail, write_trail};
use requests::{Fault, Request};
use std::str::Split;
use std::{io, str};

// What slots hold before they are used, and bytes before they are written.
const NO_RECORD: TrailRecord = TrailRecord {
    form: 0,
    visits: 0,
    level: 0,
};

const UNWRITTEN: u8 = 0xee;

// How many bytes are turned into digits at a time.
const PIECE: usize = 256;

fn main(rt: HostRuntime) -> anyhow::Result<()> {
    for line in rt.lines(rt.alloc()) {
        let line = line?;
        answer(&rt, line.as_str())?;
    }
    Ok(())
}

// Answers a request; an empty line and a comment get no answer.
fn answer(rt: &HostRuntime, line: &str) -> anyhow::Result<()> {
    if line.is_empty() || line.starts_with('#') {
        return Ok(());
    }
    match Request::from_line(rt.alloc(), line) {
        Ok(Request::Read { slots, bytes }) => read(rt, slots, &bytes),
        Ok(
            Request::Write {
                slots,
                length,
                records,
            },
        ) => write(rt, slots, length, records),
        Err(fault @ Fault::OutOfMemory) => Err(fault.into()),
        Err(fault) => Ok(println!(rt; "{fault}")?),
    }
}

// Reads a trail into so many slots.
fn read(rt: &HostRuntime, slots: usize, bytes: &[u8]) -> anyhow::Result<()> {
    let mut slots = vec![in rt.alloc(); NO_RECORD; slots]?;
    let mut roll = Roll::new(&mut slots);
    match read_trail(bytes, &mut roll) {
        Ok(()) => print_records(rt, roll.as_slice())?,
        Err(refusal) => println!(rt; "{refusal}")?,
    }
    Ok(())
}

// Writes the trail of records into a buffer of this length, by way of so many slots.
fn write(
    rt: &HostRuntime,
    slots: usize,
    length: usize,
    records: Split<'_, char>,
) -> anyhow::Result<()> {
    let mut slots = vec![in rt.alloc(); NO_RECORD; slots]?;
    let mut roll = Roll::new(&mut slots);
    if let Err(fault) = add_words(records, &mut roll) {
        return Ok(println!(rt; "{fault}")?);
    }
    let mut buffer = vec![in rt.alloc(); UNWRITTEN; length]?;
    match write_trail(&roll, &mut buffer) {
        Ok(()) => print_buffer(rt, &buffer)?,
        Err(refusal) => println!(rt; "{refusal}")?,
    }
    Ok(())
}

// Adds the records of words to a roll, up to the first fault.
fn add_words(words: Split<'_, char>, roll: &mut Roll<'_, TrailRecord>) -> Result<(), Fault> {
    for word in words {
        roll.add(word.parse()?)?;
    }
    Ok(())
}

// The records of a roll on one line.
fn print_records(rt: &HostRuntime, records: &[TrailRecord]) -> io::Result<()> {
    print!(rt; "records {}", records.len())?;
    for record in records {
        print!(rt; " {record}")?;
    }
    println!(rt; "")
}

// A buffer on one line, by its hexadecimal digits, `-` where it has no bytes. The digits are written in pieces, so that they take no memory.
fn print_buffer(rt: &HostRuntime, buffer: &[u8]) -> anyhow::Result<()> {
    if buffer.is_empty() {
        return Ok(println!(rt; "buffer -")?);
    }
    print!(rt; "buffer ")?;
    let mut digits = [0; 2 * PIECE];
    for piece in buffer.chunks(PIECE) {
        let digits = &mut digits[..2 * piece.len().min(PIECE)];
        hex::encode_to_slice(piece, digits)?;
        print!(rt; "{}", str::from_utf8(digits)?)?;
    }
    Ok(println!(rt; "")?)
}
