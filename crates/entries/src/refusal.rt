// Why a text is refused, and where: lines and columns count from 1.
ghost use Rattle.std.specs.Prelude.{◌≡◌};
ghost use Rattle.entries.specs.Refusals.{number, line, column};

use std::error::Error;
use std::fmt;

// The first fault found: of the text as a whole, of a header, of a row, or of an entry's end.
#[derive(Clone, Copy, PartialEq, Eq, Debug)]
pub enum TextRefusal {
    // The text has more than 60,000 bytes.
    TooLong,
    // The line is not six words, none empty, the first `code`.
    HeaderShape { line: usize },
    // n, k or the claim is not one to three digits, or starts with 0.
    BadNumber { line: usize, column: usize },
    // The word names no field.
    UnknownField { line: usize, column: usize },
    // The word names no weight of the field.
    UnknownWeight { line: usize, column: usize },
    // n, k or the claim is outside the limits.
    OutsideLimits { line: usize },
    // The text ends where a row is due.
    MissingRow { line: usize },
    // The row is not n bytes long.
    RowLength { line: usize },
    // A line that is not empty stands where the entry should end.
    NoEntryEnd { line: usize },
    // The symbol is no element of the field.
    BadSymbol { line: usize, column: usize },
}

impl TextRefusal {
    // The number of the refusal.
    pub fn number(self) -> u8
        ensures value { result ≡ number self }
    {
        match self {
            TextRefusal::TooLong => 60,
            TextRefusal::HeaderShape { .. } => 61,
            TextRefusal::BadNumber { .. } => 62,
            TextRefusal::UnknownField { .. } => 63,
            TextRefusal::UnknownWeight { .. } => 64,
            TextRefusal::OutsideLimits { .. } => 65,
            TextRefusal::MissingRow { .. }
            | TextRefusal::RowLength { .. }
            | TextRefusal::NoEntryEnd { .. } => 66,
            TextRefusal::BadSymbol { .. } => 67,
        }
    }

    // The line at fault, 0 for the text as a whole.
    pub fn line(self) -> usize
        ensures value { result ≡ line self }
    {
        match self {
            TextRefusal::TooLong => 0,
            TextRefusal::HeaderShape { line }
            | TextRefusal::BadNumber { line, .. }
            | TextRefusal::UnknownField { line, .. }
            | TextRefusal::UnknownWeight { line, .. }
            | TextRefusal::OutsideLimits { line }
            | TextRefusal::MissingRow { line }
            | TextRefusal::RowLength { line }
            | TextRefusal::NoEntryEnd { line }
            | TextRefusal::BadSymbol { line, .. } => line,
        }
    }

    // The column at fault: that of a word or a symbol, else 1, and 0 for the text as a whole.
    pub fn column(self) -> usize
        ensures value { result ≡ column self }
    {
        match self {
            TextRefusal::TooLong => 0,
            TextRefusal::BadNumber { column, .. }
            | TextRefusal::UnknownField { column, .. }
            | TextRefusal::UnknownWeight { column, .. }
            | TextRefusal::BadSymbol { column, .. } => column,
            TextRefusal::HeaderShape { .. }
            | TextRefusal::OutsideLimits { .. }
            | TextRefusal::MissingRow { .. }
            | TextRefusal::RowLength { .. }
            | TextRefusal::NoEntryEnd { .. } => 1,
        }
    }
}

impl fmt::Display for TextRefusal {
    ghost use Rattle.std.specs.Prelude.{◌++◌, Some, codes, decimal};

    ghost output = { λ r. Some (codes "text refused " ++ decimal (number r) ++ codes " line " ++ decimal (line r) ++ codes " column " ++ decimal (column r)) };

    fn fmt<W: fmt::Write>(&self, f: &mut fmt::Formatter<W>) -> fmt::Result {
        let number = self.number();
        let line = self.line();
        let column = self.column();
        write!(f, "text refused {number} line {line} column {column}")
    }
}

impl Error for TextRefusal {}
