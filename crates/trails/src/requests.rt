// The requests of the program, and what keeps one from being carried out.
ghost use Rattle.std.specs.Prelude.{◌≤◌, IfOk};

use hex::FromHexError;
use records::{ParseRecordError, RollRefusal};
use std::alloc::Global;
use std::num::ParseIntError;
use std::str::Split;
use thiserror::Error;

// The most slots or bytes that a request may ask for.
const MOST: usize = 65_536;

// A request, whose records are read as they are added: the words of a line are taken one by one, so that a long line costs no more than its bytes.
#[derive(Drop)]
pub(crate) enum Request<'a> {
    // `read SLOTS HEX`
    Read {
        slots: usize,
        bytes: Vec<u8>,
    },
    // `write SLOTS LENGTH F,V,L ..`
    Write {
        slots: usize,
        length: usize,
        records: Split<'a, char>,
    },
}

// Why a request is not carried out.
#[derive(Debug, Drop, Error)]
pub(crate) enum Fault {
    #[error("unknown request")]
    Unknown,
    #[error("{0}")]
    Roll(#[from] RollRefusal),
    #[error("memory allocation failed")]
    OutOfMemory,
}

impl From<ParseIntError> for Fault {
    fn from(_error: ParseIntError) -> Fault {
        Fault::Unknown
    }
}

impl From<ParseRecordError> for Fault {
    fn from(_error: ParseRecordError) -> Fault {
        Fault::Unknown
    }
}

impl From<FromHexError> for Fault {
    fn from(error: FromHexError) -> Fault {
        match error {
            FromHexError::OutOfMemory => Fault::OutOfMemory,
            _ => Fault::Unknown,
        }
    }
}

impl<'a> Request<'a> {
    // The request of a line.
    pub(crate) fn from_line(alloc: Global, line: &'a str) -> Result<Request<'a>, Fault> {
        let mut words = line.split(' ');
        match (words.next(), words.next(), words.next()) {
            (Some("read"), Some(slots), Some(hex)) if words.next().is_none() => {
                Ok(Request::Read {
                    slots: number_of(slots)?,
                    bytes: bytes_of(alloc, hex)?,
                })
            }
            (Some("write"), Some(slots), Some(length)) => {
                Ok(Request::Write {
                    slots: number_of(slots)?,
                    length: number_of(length)?,
                    records: words,
                })
            }
            _ => Err(Fault::Unknown),
        }
    }
}

// A number of slots or bytes; `parse` alone has no upper limit.
fn number_of(word: &str) -> Result<usize, Fault>
    ensures bound { IfOk result (λ n. n ≤ 65536) }
{
    let n = word.parse::<usize>()?;
    if n <= MOST {
        Ok(n)
    } else {
        Err(Fault::Unknown)
    }
}

// The bytes that pairs of hexadecimal digits write, in lower case, `-` for none; `decode` alone takes capitals, and asks for memory before it looks at a digit.
fn bytes_of(alloc: Global, hex: &str) -> Result<Vec<u8>, Fault> {
    if hex == "-" {
        return Ok(Vec::new(alloc));
    }
    if hex.is_empty()
        || hex.len() % 2 != 0
        || !hex.bytes().all(|b| matches!(b, b'0'..=b'9' | b'a'..=b'f'))
    {
        return Err(Fault::Unknown);
    }
    Ok(hex::decode(alloc, hex)?)
}
