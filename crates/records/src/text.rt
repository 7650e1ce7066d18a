// How a record of a trail is written as text, and read from it.
ghost use Rattle.std.specs.Prelude.{◌≡◌, Some};

use crate::trail::TrailRecord;
use std::error::Error;
use std::fmt;
use std::num::ParseIntError;
use std::str::FromStr;

// Why a text is no record.
#[derive(Clone, Debug, Drop, PartialEq, Eq)]
pub enum ParseRecordError {
    MissingComma,
    Number(ParseIntError),
}

// Written by hand, so that the library needs no other crate.
impl fmt::Display for ParseRecordError {
    ghost use Rattle.records.specs.Texts.{fault_text};

    ghost output = { λ fault. fault_text fault };

    fn fmt<W: fmt::Write>(&self, f: &mut fmt::Formatter<W>) -> fmt::Result {
        match self {
            ParseRecordError::MissingComma => write!(f, "a record is written as FORM,VISITS,LEVEL"),
            ParseRecordError::Number(fault) => write!(f, "{fault}"),
        }
    }
}

impl Error for ParseRecordError {}

impl From<ParseIntError> for ParseRecordError {
    ghost use Rattle.records.specs.declared.text.ParseRecordError.TheVariants.{Number};

    ghost from_gives = { λ error e. e ≡ Number error };

    fn from(error: ParseIntError) -> ParseRecordError {
        ParseRecordError::Number(error)
    }
}

impl fmt::Display for TrailRecord {
    ghost use Rattle.records.specs.Texts.{record_text};

    ghost output = { λ item. Some (record_text item) };

    fn fmt<W: fmt::Write>(&self, f: &mut fmt::Formatter<W>) -> fmt::Result {
        write!(f, "{},{},{}", self.form, self.visits, self.level)
    }
}

impl FromStr for TrailRecord {
    type Err = ParseRecordError;

    ghost use Rattle.records.specs.Texts.{ReadsRecord};

    ghost from_str_gives = { ReadsRecord };

    fn from_str(text: &str) -> Result<TrailRecord, ParseRecordError> {
        let (form, rest) = text.split_once(',').ok_or(ParseRecordError::MissingComma)?;
        let (visits, level) = rest.split_once(',').ok_or(ParseRecordError::MissingComma)?;
        Ok(TrailRecord {
            form: form.parse()?,
            visits: visits.parse()?,
            level: level.parse()?,
        })
    }
}
