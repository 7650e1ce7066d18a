// What a text comes to: how many entries it hands out, and where it is refused.
use entries::{EntryReader, MOST_CODES, TextRefusal};

// Where a text is refused: after how many entries, with what number, and at what place.
#[derive(Clone, Copy, PartialEq, Eq, Debug)]
pub struct Stop {
    entries: usize,
    number: u8,
    line: usize,
    column: usize,
}

impl Stop {
    // A refusal after so many entries.
    fn new(entries: usize, refusal: TextRefusal) -> Stop {
        Stop {
            entries,
            number: refusal.number(),
            line: refusal.line(),
            column: refusal.column(),
        }
    }
}

// Reads a text to its end, or to its first fault.
pub fn outcome(text: &[u8]) -> Result<usize, Stop> {
    let mut codes = [0; MOST_CODES];
    let mut reader = EntryReader::new(text);
    // The number of entries read is part of the answer.
    for entries in 0..60_000 {
        let header = reader
            .next_entry(&mut codes)
            .map_err(|refusal| Stop::new(entries, refusal))?;
        if header.is_none() {
            return Ok(entries);
        }
    }
    Ok(60_000)
}

// A text hands out so many entries and is then refused so.
pub fn refused(entries: usize, number: u8, line: usize, column: usize) -> Result<usize, Stop> {
    Err(Stop {
        entries,
        number,
        line,
        column,
    })
}
